//! Three owners of the values of one variable perform random steps, possible or not, and then steps that change
//! something until no work is left: for every choice, they are settled at the cost of a cheapest plan, their
//! certificate is accepted, and their plan has that cost.

ghost use Rattle.std.specs.Prelude.{◌<◌, ◌≤◌};

use cert::cert_of;
use cert_value::CertificateKind;
use checker_fdr::{Verdict, check_fdr};
use cost::Dist;
use extract::plan_of;
use fdr::FdrTask;
use netcore::{Joined, SearchAnswer, World, WorldStep};
use owner::{Space, Ties};
use packed::{Bits, StateForm};
use packed_spread::{ByValue, Spread};
use rand_core::{Rng, SeedableRng};
use rand_xoshiro::{SplitMix64, Xoshiro256PlusPlus};
use scp::make_columns;
use std::alloc::{AllocError, Global};
use std::process::Abort;
use std::test::Fail;
use std::thread::Threads;
use testing_tasks::walk;

/// From 0 to 1 and back at no cost, and from 1 to 2.
const CYCLE: &[(u32, u32, u64)] = &[(0, 1, 0), (1, 0, 0), (1, 2, 1)];

/// State 1 may be expanded at cost 9 before it is reached at cost 4, and the goal is reached at cost 3.
const DETOUR: &[(u32, u32, u64)] = &[(0, 1, 9), (0, 2, 2), (2, 1, 2), (0, 3, 3), (1, 3, 5)];

/// The number of random lists of steps in a test. Four tests make 10,000 for a space.
const LISTS: u64 = 2_500;

/// The number of steps of a list.
const STEPS: u32 = 60;

/// The number of owners.
const OWNERS: usize = 3;

/// The number of messages underway to an owner from which one is chosen.
const MESSAGES: u64 = 4;

/// Returns a random number below `bound`.
fn number_below(generator: &mut SplitMix64, bound: u64) -> usize
    requires { 0 < bound }
{
    (generator.next_u64() % bound) as usize
}

/// Returns a random step of any kind, which need not change anything.
fn any_step(generator: &mut SplitMix64) -> WorldStep {
    let worker = number_below(generator, OWNERS as u64);
    match number_below(generator, 6) {
        0 => WorldStep::Expand(worker),
        1 => WorldStep::Send(worker, number_below(generator, OWNERS as u64)),
        2 => WorldStep::Deliver(worker, number_below(generator, MESSAGES)),
        3 => WorldStep::Offer(worker),
        4 => WorldStep::Look(worker),
        _ => WorldStep::Rest(worker),
    }
}

/// Performs a random list of steps.
fn do_any_steps<S: Spread + Drop, F: StateForm + Drop>(
    world: &mut World<'_, S, F>,
    generator: &mut SplitMix64,
) -> Result<(), Fail> {
    for _ in 0..STEPS {
        let step = any_step(generator);
        let is_possible = world.would_change(step);
        let changed = world.step(step).map_err(|_| "a step")?;
        if changed != is_possible {
            return Err(Fail::from("a step that says what it does not do"));
        }
    }
    Ok(())
}

/// Performs random steps that would change something, chosen as in a simulation, until no work is left.
fn do_the_rest<S: Spread + Drop, F: StateForm + Drop>(
    world: &mut World<'_, S, F>,
    generator: &mut Xoshiro256PlusPlus,
) -> Result<(), Fail> {
    for _ in 0..1_000_000 {
        let possible = world.possible_count();
        if world.count() == 0 || possible == 0 {
            return Ok(());
        }
        let number = generator.next_u64() as u128 % possible;
        let step = world.possible_step(number).ok_or("a possible step")?;
        let _ = world.step(step).map_err(|_| "a step")?;
    }
    Err(Fail::from("no end"))
}

/// Checks the certificate of the owners, and the cost of the plan to their best goal node.
fn proves<'a, R: AllocGlobal + Threads + Sync + Abort, S: Spread + Drop, F: StateForm + Drop>(
    rt: &R,
    task: &FdrTask,
    joined: &Joined<'a, S, F>,
    cost: u64,
) -> Result<(), Fail> {
    let certificate = cert_of(rt, rt.alloc(), joined, CertificateKind::Sas)?;
    let bound = Dist::fin(cost).ok_or("a cost")?;
    assert_eq!(rt;
        check_fdr(rt, task, &certificate)?,
        Verdict::Accepted(bound)
    );
    let goal = joined.best(rt.alloc())?.ok_or("a goal node")?;
    let mut total = 0u64;
    for &operator in plan_of(rt.alloc(), joined, goal)?.iter() {
        total = total.saturating_add(task.cost(operator).get());
    }
    assert_eq!(rt; total, cost);
    Ok(())
}

/// Performs one random list of steps, from this seed, and the rest of the work, and checks the result.
fn settles<'a, R: AllocGlobal + Threads + Sync + Abort, S: Spread + Drop>(
    rt: &R,
    task: &FdrTask,
    space: &'a Space<'a, S>,
    seed: u64,
    cost: u64,
) -> Result<(), Fail> {
    assert!(rt; Bits::<1>::fits(space.layout()), "states of one word");
    let mut generator = SplitMix64::seed_from_u64(seed);
    let mut world: World<'a, S, Bits<1>> = World::start(rt.alloc(), space, OWNERS)?;
    do_any_steps(&mut world, &mut generator)?;
    do_the_rest(&mut world, &mut Xoshiro256PlusPlus::seed_from_u64(seed))?;
    assert_eq!(rt; world.count(), 0);
    assert_eq!(rt; world.answer(rt.alloc())?, Some(SearchAnswer::Solved(cost)));
    proves(rt, task, &world.joined(), cost)
}

/// Returns the space of the task without columns.
fn space_for<'t, R: Threads + Sync>(
    rt: &R,
    alloc: Global,
    task: &'t FdrTask,
) -> Result<Space<'t, ByValue<'t>>, AllocError> {
    let columns = make_columns(rt, alloc, task, &[])?;
    Space::new(
        alloc,
        task,
        columns,
        ByValue::new(task),
        None,
        Ties::Shallow,
    )
}

/// Performs the lists of steps for a task, with `LISTS` seeds from `first` on.
fn settle<'t, R: AllocGlobal + Threads + Sync + Abort>(
    rt: &R,
    task: &'t FdrTask,
    first: u64,
    cost: u64,
) -> Result<(), Fail>
    requires { first ≤ 7500 }
{
    // the type is given so that the borrow checker need not infer how long the space is borrowed
    let space: Space<'t, ByValue<'t>> = space_for(rt, rt.alloc(), task)?;
    for seed in first..first + LISTS {
        settles(rt, task, &space, seed, cost)?;
    }
    Ok(())
}

/// Performs the lists of steps on the cycle.
fn settle_cycle<R: AllocGlobal + Threads + Sync + Abort>(rt: &R, first: u64) -> Result<(), Fail>
    requires { first ≤ 7500 }
{
    let task = walk(rt.alloc(), 3, 2, CYCLE)?.ok_or("a task")?;
    settle(rt, &task, first, 1)
}

/// Performs the lists of steps on the detour.
fn settle_detour<R: AllocGlobal + Threads + Sync + Abort>(rt: &R, first: u64) -> Result<(), Fail>
    requires { first ≤ 7500 }
{
    let task = walk(rt.alloc(), 4, 3, DETOUR)?.ok_or("a task")?;
    settle(rt, &task, first, 3)
}

#[test]
fn cycle_by_the_first_lists(rt: HostRuntime) -> Result<(), Fail> {
    settle_cycle(&rt, 0)
}

#[test]
fn cycle_by_the_second_lists(rt: HostRuntime) -> Result<(), Fail> {
    settle_cycle(&rt, 2_500)
}

#[test]
fn cycle_by_the_third_lists(rt: HostRuntime) -> Result<(), Fail> {
    settle_cycle(&rt, 5_000)
}

#[test]
fn cycle_by_the_last_lists(rt: HostRuntime) -> Result<(), Fail> {
    settle_cycle(&rt, 7_500)
}

#[test]
fn detour_by_the_first_lists(rt: HostRuntime) -> Result<(), Fail> {
    settle_detour(&rt, 0)
}

#[test]
fn detour_by_the_second_lists(rt: HostRuntime) -> Result<(), Fail> {
    settle_detour(&rt, 2_500)
}

#[test]
fn detour_by_the_third_lists(rt: HostRuntime) -> Result<(), Fail> {
    settle_detour(&rt, 5_000)
}

#[test]
fn detour_by_the_last_lists(rt: HostRuntime) -> Result<(), Fail> {
    settle_detour(&rt, 7_500)
}
