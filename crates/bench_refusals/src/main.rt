//! Owners in one thread that continue after a refused allocation: the refused step is tried again. They search a grid
//! of 64 states to the end. Then the program prints their states on standard error, so that the text is the same
//! whichever growth is refused, followed by the number of refused steps. If memory is refused before or after the
//! search, nothing is printed and the status is 6.
#![tactic(auto)]

ghost use Rattle.std.specs.Prelude.{◌≤◌, IfOk};

use fdr::{FdrTask, Operator};
use netcore::{World, WorldStep};
use optplan_device::{Device, ProcessDevice};
use owner::{Entry, Owner, OwnerFault, Space, Ties};
use packed::{Bits, StateForm};
use packed_spread::{Spread, Zobrist};
use rand_core::{Rng, SeedableRng};
use rand_xoshiro::Xoshiro256PlusPlus;
use scp::make_columns;
use std::alloc::{AllocError, Global};
use std::process::ExitCode;
use std::thread::Threads;
use testing_tasks::{fact, operator, task};

/// The seed of the random steps.
const SEED: u64 = 1;

/// The number of owners.
const OWNERS: usize = 3;

/// The number of variables.
const VARIABLES: usize = 3;

/// The number of values of each of them.
const VALUES: u32 = 4;

/// The number of attempts at a step before the program stops: at most one growth is refused.
const ATTEMPTS: u32 = 3;

/// Returns operators from each value of each variable to the next one.
fn unit_steps(alloc: Global) -> Result<Vec<Operator>, AllocError> {
    let mut operators = Vec::new(alloc);
    for variable in 0..VARIABLES {
        for value in 1..VALUES {
            let (low, high) = (fact(variable, value - 1), fact(variable, value));
            operators.push(operator(alloc, &[low], &[high])?)?;
            operators.push(operator(alloc, &[high], &[low])?)?;
        }
    }
    Ok(operators)
}

/// Returns the grid, from one corner to another.
fn grid(alloc: Global) -> Result<Option<FdrTask>, AllocError> {
    let goal = &[fact(0, 3), fact(1, 3), fact(2, 3)];
    task(alloc, &[4, 4, 4], &[0, 0, 0], goal, unit_steps(alloc)?)
}

/// Performs the step, again if memory is refused. Returns the number of refusals.
fn step_at_last<S: Spread + Drop, F: StateForm + Drop>(
    world: &mut World<'_, S, F>,
    step: WorldStep,
) -> Result<u64, OwnerFault>
    ensures { IfOk result (λ count. count ≤ 3) }
{
    for refused in 0..ATTEMPTS {
        match world.step(step) {
            Ok(_) => return Ok(refused as u64),
            Err(OwnerFault::OutOfMemory) => {}
            Err(fault) => return Err(fault),
        }
    }
    Err(OwnerFault::OutOfMemory)
}

/// Performs random steps until no work is left. Returns the number of refusals.
fn search<S: Spread + Drop, F: StateForm + Drop>(
    world: &mut World<'_, S, F>,
) -> Result<u64, OwnerFault> {
    let mut generator = Xoshiro256PlusPlus::seed_from_u64(SEED);
    let mut refused = 0u64;
    for _ in 0..1_000_000 {
        let possible = world.possible_count();
        if world.count() == 0 || possible == 0 {
            break;
        }
        let number = generator.next_u64() as u128 % possible;
        let step = world.possible_step(number).unwrap_or(WorldStep::Look(0));
        refused = refused.saturating_add(step_at_last(world, step)?);
    }
    Ok(refused)
}

/// Appends the line of a state with its entry.
fn push_entry(
    alloc: Global,
    text: &mut String,
    worker: usize,
    state: &[u32],
    entry: Entry,
) -> Result<(), AllocError> {
    let Entry {
        rank,
        parent,
        expanded,
    } = entry;
    let from = match parent {
        Some(parent) => format!(in alloc;
            "{} {} {}",
            parent.worker, parent.index, parent.operator
        )?,
        None => String::from_str(alloc, "none")?,
    };
    let line = format!(in alloc;
        "owner {worker} state {state:?} cost {} steps {} from {from} expanded {expanded}\n",
        rank.cost, rank.steps
    )?;
    text.push_str(line.as_str())?;
    Ok(())
}

/// Appends the lines of an owner's states.
fn push_owner<S: Spread + Drop, F: StateForm + Drop>(
    alloc: Global,
    text: &mut String,
    worker: usize,
    owner: &Owner<'_, S, F>,
) -> Result<(), AllocError> {
    let mut state = vec![in alloc; 0u32; owner.space().task().variable_count()]?;
    for index in 0..owner.len() {
        owner.copy_state(index, &mut state);
        push_entry(alloc, text, worker, &state, owner.entry(index))?;
    }
    Ok(())
}

/// The report of a search.
#[derive(Drop)]
struct Told {
    /// The owners' states, and the number of refused steps.
    states: String,
    /// The number of stored states.
    line: String,
}

/// Returns the report of the search of a space.
fn searched<'a>(alloc: Global, space: &'a Space<'a, Zobrist<'a>>) -> Result<Told, OwnerFault> {
    if !Bits::<1>::fits(space.layout()) {
        return Err(OwnerFault::TotalTooLarge); // never: a state has six bits
    }
    let mut world: World<'a, Zobrist<'a>, Bits<1>> = World::start(alloc, space, OWNERS)?;
    let refused = search(&mut world)?;
    let (mut states, mut kept) = (String::new(alloc), 0usize);
    for (worker, owner) in world.joined().owners().iter().enumerate() {
        push_owner(alloc, &mut states, worker, owner)?;
        kept = kept.saturating_add(owner.len());
    }
    states.push_str(format!(in alloc; "{refused} refused\n")?.as_str())?;
    let line = format!(in alloc; "{kept} states kept\n")?;
    Ok(Told { states, line })
}

/// Returns the report of the search of the grid.
fn searched_grid<'t, R: Threads + Sync>(
    rt: &R,
    alloc: Global,
    task: &'t FdrTask,
) -> Result<Told, OwnerFault> {
    let columns = make_columns(rt, alloc, task, &[])?;
    // the type is given so that the borrow checker need not infer how long the space is borrowed
    let space: Space<'t, Zobrist<'t>> = Space::new(
        alloc,
        task,
        columns,
        Zobrist::new(alloc, task)?,
        None,
        Ties::Shallow,
    )?;
    searched(alloc, &space)
}

/// Writes the states to standard error, and prints their number. Returns whether it could.
fn put<D: Device, R: Threads + Sync>(rt: &R, alloc: Global, device: &mut D) -> bool {
    let Ok(Some(task)) = grid(alloc) else {
        return false;
    };
    match searched_grid(rt, alloc, &task) {
        Ok(told) => {
            device.err(told.states.as_bytes()).is_ok() && device.out(told.line.as_bytes()).is_ok()
        }
        Err(_) => false,
    }
}

fn main(rt: HostRuntime) -> ExitCode {
    let mut device = ProcessDevice::new(&rt);
    if put(&rt, rt.alloc(), &mut device) {
        ExitCode::from(0)
    } else {
        ExitCode::from(6)
    }
}
