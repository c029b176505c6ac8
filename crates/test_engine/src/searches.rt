//! Multi-threaded searches of small tasks, and the answers of owners in one thread for them.

ghost use Rattle.std.specs.Prelude.{◌<◌};
ghost use Rattle.fdr.specs.Tasks.{ranges};

use engine::{Cause, Open, Searched, search};
use extract::{Joined, SearchAnswer, plan_of};
use fdr::{FdrTask, Operator};
use netcore::World;
use owner::{Owner, Space, Ties};
use packed::{Plain, StateForm};
use packed_spread::{ByValue, Spread, Zobrist};
use scp::make_columns;
use std::alloc::{AllocError, Global};
use std::process::Abort;
use std::sync::Wait;
use std::test::Fail;
use std::thread::Threads;
use std::time::Clock;
use testing_tasks::{fact, operator, task, walk};

/// From 0 to 1 and back at no cost, and from 1 to 2.
const CYCLE: &[(u32, u32, u64)] = &[(0, 1, 0), (1, 0, 0), (1, 2, 1)];

/// State 1 may be expanded at cost 9 before it is reached at cost 4.
const DETOUR: &[(u32, u32, u64)] = &[(0, 1, 9), (0, 2, 2), (2, 1, 2), (0, 3, 13), (1, 3, 5)];

/// Returns the space of the task without columns, in which the owner of a state depends on its values.
pub(crate) fn space_for<'a, R: Threads + Sync>(
    rt: &R,
    alloc: Global,
    task: &'a FdrTask,
    limit: Option<u64>,
) -> Result<Space<'a, ByValue<'a>>, AllocError> {
    let columns = make_columns(rt, alloc, task, &[])?;
    Space::new(
        alloc,
        task,
        columns,
        ByValue::new(task),
        limit,
        Ties::Shallow,
    )
}

/// Returns the answer of owners in one thread, which perform the first step that would change something until no work
/// is left.
fn answer_in_one_thread<'a, S: Spread + Drop>(
    alloc: Global,
    space: &'a Space<'a, S>,
    owners: usize,
) -> Result<Option<SearchAnswer>, Fail>
    requires { 0 < owners }
{
    let mut world: World<'a, S, Plain> = World::start(alloc, space, owners)?;
    for _ in 0..1_000_000 {
        let Some(step) = world.possible_step(0) else {
            break;
        };
        let _ = world.step(step).map_err(|_| "a step")?;
    }
    Ok(world.answer(alloc)?)
}

/// Returns the finding of the owners.
fn answer_of<S: Spread + Drop, F: StateForm + Drop>(
    alloc: Global,
    joined: &Joined<'_, S, F>,
) -> Result<Option<SearchAnswer>, AllocError> {
    let Some(bound) = joined.settled(alloc)? else {
        return Ok(None);
    };
    match bound.get() {
        Some(cost) => Ok(Some(SearchAnswer::Solved(cost))),
        None => Ok(Some(SearchAnswer::Unsolvable)),
    }
}

/// Checks that a search by `workers` workers, with links of this capacity, ends settled with this answer.
fn settles<'a, R: Threads + Wait + Clock + Sync + Abort, S: Spread + Drop + Send + Sync>(
    rt: &R,
    alloc: Global,
    space: &'a Space<'a, S>,
    workers: usize,
    capacity: usize,
    answer: SearchAnswer,
) -> Result<(), Fail>
    requires { 0 < workers }
{
    let end: Searched<'a, S, Plain> = search(rt, alloc, space, workers, capacity, &Open)?;
    match end {
        Searched::Settled(joined) => {
            assert_eq!(rt; answer_of(alloc, &joined)?, Some(answer));
            Ok(())
        }
        Searched::Stopped(_, _) => panic!(rt; "the search was stopped"),
    }
}

/// Checks that the plan to the best goal node has this length.
fn has_plan_of<S: Spread + Drop, F: StateForm + Drop>(
    rt: &impl Abort,
    alloc: Global,
    joined: &Joined<'_, S, F>,
    length: usize,
) -> Result<(), Fail> {
    let goal = joined.best(alloc)?.ok_or("a goal node")?;
    assert_eq!(rt; plan_of(alloc, joined, goal)?.len(), length);
    Ok(())
}

/// Returns the greatest number of nodes that one of the owners has expanded.
fn most_expansions<S: Spread + Drop, F: StateForm + Drop>(joined: &Joined<'_, S, F>) -> u64 {
    let mut most = 0;
    for owner in joined.owners() {
        most = most.max(owner.expansions());
    }
    most
}

/// Checks that a search by `workers` workers ends at the limit of the space, because some owner has expanded as many
/// nodes as that.
fn stops<'a, R: Threads + Wait + Clock + Sync + Abort, S: Spread + Drop + Send + Sync>(
    rt: &R,
    alloc: Global,
    space: &'a Space<'a, S>,
    workers: usize,
    limit: u64,
) -> Result<(), Fail>
    requires { 0 < workers }
{
    let end: Searched<'a, S, Plain> = search(rt, alloc, space, workers, 64, &Open)?;
    match end {
        Searched::Settled(_) => panic!(rt; "the search was settled"),
        Searched::Stopped(joined, cause) => {
            assert_eq!(rt; cause, Cause::Limit);
            assert!(rt; most_expansions(&joined) == limit);
            assert_eq!(rt; joined.settled(alloc)?, None);
            Ok(())
        }
    }
}

/// Checks that searches by one, two and four workers, with links of capacity 1 and 64, have the answer of one thread.
fn agrees<'a, R: Threads + Wait + Clock + Sync + Abort, S: Spread + Drop + Send + Sync>(
    rt: &R,
    alloc: Global,
    space: &'a Space<'a, S>,
    wanted: SearchAnswer,
) -> Result<(), Fail> {
    for workers in [1, 2, 4] {
        assert_eq!(rt; answer_in_one_thread(alloc, space, workers)?, Some(wanted));
        for capacity in [1, 64] {
            settles(rt, alloc, space, workers, capacity, wanted)?;
        }
    }
    Ok(())
}

/// Runs `agrees` for a task.
fn agrees_on<'t, R: Threads + Wait + Clock + Sync + Abort>(
    rt: &R,
    alloc: Global,
    task: &'t FdrTask,
    wanted: SearchAnswer,
) -> Result<(), Fail> {
    // the type is given so that the borrow checker need not infer how long the space is borrowed
    let space: Space<'t, ByValue<'t>> = space_for(rt, alloc, task, None)?;
    agrees(rt, alloc, &space, wanted)
}

#[test]
fn a_cycle_of_cost_0(rt: HostRuntime) -> Result<(), Fail> {
    let task = walk(rt.alloc(), 3, 2, CYCLE)?.ok_or("a task")?;
    agrees_on(&rt, rt.alloc(), &task, SearchAnswer::Solved(1))
}

#[test]
fn a_detour(rt: HostRuntime) -> Result<(), Fail> {
    let task = walk(rt.alloc(), 4, 3, DETOUR)?.ok_or("a task")?;
    agrees_on(&rt, rt.alloc(), &task, SearchAnswer::Solved(9))
}

#[test]
fn no_plan(rt: HostRuntime) -> Result<(), Fail> {
    let task = walk(rt.alloc(), 5, 4, CYCLE)?.ok_or("a task")?;
    agrees_on(&rt, rt.alloc(), &task, SearchAnswer::Unsolvable)
}

#[test]
fn the_initial_state_is_a_goal(rt: HostRuntime) -> Result<(), Fail> {
    let task = walk(rt.alloc(), 3, 0, CYCLE)?.ok_or("a task")?;
    agrees_on(&rt, rt.alloc(), &task, SearchAnswer::Solved(0))
}

/// Checks that searches of the task stop if each owner may expand at most `limit` nodes.
fn stops_on<'t, R: Threads + Wait + Clock + Sync + Abort>(
    rt: &R,
    alloc: Global,
    task: &'t FdrTask,
    limit: u64,
) -> Result<(), Fail> {
    // the type is given so that the borrow checker need not infer how long the space is borrowed
    let space: Space<'t, ByValue<'t>> = space_for(rt, alloc, task, Some(limit))?;
    for workers in [1, 2, 4] {
        stops(rt, alloc, &space, workers, limit)?;
    }
    Ok(())
}

#[test]
fn a_limit_of_one_node(rt: HostRuntime) -> Result<(), Fail> {
    // each owner of 4 has one of the values from 0 to 3 and one from 4 to 7
    let steps = &[
        (0, 1, 1),
        (1, 2, 1),
        (2, 3, 1),
        (3, 4, 1),
        (4, 5, 1),
        (5, 6, 1),
        (6, 7, 1),
    ];
    let task = walk(rt.alloc(), 8, 7, steps)?.ok_or("a task")?;
    stops_on(&rt, rt.alloc(), &task, 1)
}

/// Returns operators that add or subtract 1 in one of several variables, all with the same number of values.
fn unit_steps(alloc: Global, variables: usize, values: u32) -> Result<Vec<Operator>, AllocError> {
    let mut operators = Vec::new(alloc);
    for variable in 0..variables {
        for value in 1..values {
            let low = &[fact(variable, value - 1)];
            let high = &[fact(variable, value)];
            operators.push(operator(alloc, low, high)?)?;
            operators.push(operator(alloc, high, low)?)?;
        }
    }
    Ok(operators)
}

/// Checks a search by `workers` workers of a space whose cheapest plan has `cost` operators of cost 1.
fn finds_plan<'a, R: Threads + Wait + Clock + Sync + Abort, S: Spread + Drop + Send + Sync>(
    rt: &R,
    alloc: Global,
    space: &'a Space<'a, S>,
    workers: usize,
    capacity: usize,
    cost: usize,
) -> Result<(), Fail>
    requires { 0 < workers }
{
    let end: Searched<'a, S, Plain> = search(rt, alloc, space, workers, capacity, &Open)?;
    match end {
        Searched::Settled(joined) => {
            assert_eq!(rt;
                answer_of(alloc, &joined)?,
                Some(SearchAnswer::Solved(cost as u64))
            );
            has_plan_of(rt, alloc, &joined, cost)
        }
        Searched::Stopped(_, _) => panic!(rt; "the search was stopped"),
    }
}

/// Checks searches of the task, whose states are spread by hashes, by one to eight workers.
fn finds_plans<'t, R: Threads + Wait + Clock + Sync + Abort>(
    rt: &R,
    alloc: Global,
    task: &'t FdrTask,
    cost: usize,
) -> Result<(), Fail> {
    let columns = make_columns(rt, alloc, task, &[])?;
    // the type is given so that the borrow checker need not infer how long the space is borrowed
    let space: Space<'t, Zobrist<'t>> = Space::new(
        alloc,
        task,
        columns,
        Zobrist::new(alloc, task)?,
        None,
        Ties::Shallow,
    )?;
    for workers in [1, 2, 3, 4, 8] {
        for capacity in [0, 1, 64] {
            finds_plan(rt, alloc, &space, workers, capacity, cost)?;
        }
    }
    Ok(())
}

/// Returns the grid of four values in each of three variables, from one corner to another.
fn grid(alloc: Global) -> Result<Option<FdrTask>, AllocError> {
    let goal = &[fact(0, 3), fact(1, 3), fact(2, 3)];
    let operators = unit_steps(alloc, 3, 4)?;
    task(alloc, &[4, 4, 4], &[0, 0, 0], goal, operators)
}

#[test]
fn a_grid_of_64_states(rt: HostRuntime) -> Result<(), Fail> {
    let grid = grid(rt.alloc())?.ok_or("a task")?;
    finds_plans(&rt, rt.alloc(), &grid, 9)
}

#[test]
fn a_limit_of_ten_nodes(rt: HostRuntime) -> Result<(), Fail> {
    // 63 nodes have costs below that of a cheapest plan
    let grid = grid(rt.alloc())?.ok_or("a task")?;
    stops_on(&rt, rt.alloc(), &grid, 10)
}

/// Returns how many states of an owner were reached from a state of another one.
fn reached_from_others<S: Spread + Drop, F: StateForm + Drop>(
    owner: &Owner<'_, S, F>,
    worker: usize,
) -> usize {
    let mut count = 0usize;
    for index in 0..owner.len() {
        if let Some(parent) = owner.entry(index).parent
            && parent.worker != worker
        {
            count = count.saturating_add(1);
        }
    }
    count
}

/// Returns how many states were reached from a state of another owner.
fn crossings<S: Spread + Drop, F: StateForm + Drop>(joined: &Joined<'_, S, F>) -> usize {
    let owners = joined.owners();
    let mut count = 0usize;
    for worker in 0..owners.len() {
        count = count.saturating_add(reached_from_others(&owners[worker], worker));
    }
    count
}

/// Checks that a search of the task by two workers, whose states are spread by a hash of all variables, as the program
/// spreads them in tasks of few values, sends this many states from one to the other.
fn crosses<'t, R: Threads + Wait + Clock + Sync + Abort>(
    rt: &R,
    alloc: Global,
    task: &'t FdrTask,
    count: usize,
) -> Result<(), Fail> {
    let columns = make_columns(rt, alloc, task, &[])?;
    let spread = Zobrist::new(alloc, task)?;
    // the type is given so that the borrow checker need not infer how long the space is borrowed
    let space: Space<'t, Zobrist<'t>> = Space::new(
        alloc,
        task,
        columns,
        spread,
        None,
        Ties::Fresh,
    )?;
    let end: Searched<'_, Zobrist<'t>, Plain> = search(rt, alloc, &space, 2, 64, &Open)?;
    match end {
        Searched::Settled(joined) => {
            assert_eq!(rt; crossings(&joined), count);
            Ok(())
        }
        Searched::Stopped(_, _) => panic!(rt; "the search was stopped"),
    }
}

#[test]
fn few_states_have_both_owners(rt: HostRuntime) -> Result<(), Fail> {
    // of the first five words of SplitMix64 from seed 1 only the third is even: so state 2 alone has owner 0
    let steps = &[(0, 1, 1), (1, 2, 1), (2, 3, 1), (3, 4, 1)];
    let task = walk(rt.alloc(), 5, 4, steps)?.ok_or("a task")?;
    crosses(&rt, rt.alloc(), &task, 2)
}
