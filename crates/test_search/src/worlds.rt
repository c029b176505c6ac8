//! A world of two owners of the values of one variable, worked out by hand: the owner of a state is its value modulo 2.

use fdr::FdrTask;
use netcore::{World, WorldStep};
use owner::{Space, Ties};
use packed::{Plain, StateForm};
use packed_spread::{ByValue, Spread};
use scp::make_columns;
use std::alloc::{AllocError, Global};
use std::process::Abort;
use std::test::Fail;
use std::thread::Threads;
use testing_tasks::walk;

/// From 0 to 1 and back at no cost, and from 1 to 2, which is the goal.
const STEPS: &[(u32, u32, u64)] = &[(0, 1, 0), (1, 0, 0), (1, 2, 1)];

/// Returns the space of the task without columns.
fn space_for<'a, R: Threads + Sync>(
    rt: &R,
    alloc: Global,
    task: &'a FdrTask,
) -> Result<Space<'a, ByValue<'a>>, AllocError> {
    let columns = make_columns(rt, alloc, task, &[])?;
    Space::new(
        alloc,
        task,
        columns,
        ByValue::new(task),
        None,
        Ties::Shallow,
    )
}

/// Checks that the step would change nothing, and changes nothing.
fn idles<S: Spread + Drop, F: StateForm + Drop>(
    rt: &impl Abort,
    world: &mut World<'_, S, F>,
    step: WorldStep,
) {
    assert!(rt; !world.would_change(step));
    assert_eq!(rt; world.step(step), Ok(false));
}

/// Checks that two steps would change something.
fn has_two_steps<S: Spread + Drop, F: StateForm + Drop>(rt: &impl Abort, world: &World<'_, S, F>) {
    assert_eq!(rt; world.possible_count(), 2);
    assert_eq!(rt; world.possible_step(0), Some(WorldStep::Expand(0)));
    assert_eq!(rt; world.possible_step(1), Some(WorldStep::Rest(1)));
    assert_eq!(rt; world.possible_step(2), None);
}

/// Checks that the count is two units, and that there is no answer yet.
fn has_two_units<S: Spread + Drop, F: StateForm + Drop>(
    rt: &impl Abort,
    alloc: Global,
    world: &World<'_, S, F>,
) {
    let answer = world.answer(alloc).expect(rt, "memory");
    assert_eq!(rt; (world.count(), answer), (2, None));
}

/// Lets the second owner rest, and checks that one step is left, and that there is no answer yet.
fn second_rests<S: Spread + Drop, F: StateForm + Drop>(
    rt: &impl Abort,
    alloc: Global,
    world: &mut World<'_, S, F>,
) {
    assert!(rt; world.would_change(WorldStep::Rest(1)));
    assert_eq!(rt; world.step(WorldStep::Rest(1)), Ok(true));
    assert_eq!(rt; (world.count(), world.possible_count()), (1, 1));
    let answer = world.answer(alloc).expect(rt, "memory");
    assert_eq!(rt; answer, None);
}

/// Checks which steps would change nothing at the start.
fn idles_at_first<S: Spread + Drop, F: StateForm + Drop>(
    rt: &impl Abort,
    world: &mut World<'_, S, F>,
) {
    idles(rt, world, WorldStep::Rest(0));
    idles(rt, world, WorldStep::Send(0, 1));
    idles(rt, world, WorldStep::Deliver(1, 5));
    idles(rt, world, WorldStep::Look(0));
    idles(rt, world, WorldStep::Expand(9));
    idles(rt, world, WorldStep::Send(0, 9));
}

/// Checks which steps would change something at the start, and which would not.
fn first_steps<'a, S: Spread + Drop>(
    rt: &impl Abort,
    alloc: Global,
    space: &'a Space<'a, S>,
) -> Result<(), Fail> {
    let mut world: World<'a, S, Plain> = World::start(alloc, space, 2)?;
    has_two_steps(rt, &world);
    idles_at_first(rt, &mut world);
    has_two_units(rt, alloc, &world);
    second_rests(rt, alloc, &mut world);
    Ok(())
}

/// Runs `first_steps` over the task.
fn first_steps_of<'t, R: Threads + Sync + Abort>(
    rt: &R,
    alloc: Global,
    task: &'t FdrTask,
) -> Result<(), Fail> {
    // the type is given so that the borrow checker need not infer how long the space is borrowed
    let space: Space<'t, ByValue<'t>> = space_for(rt, alloc, task)?;
    first_steps(rt, alloc, &space)
}

#[test]
fn two_owners_at_the_beginning(rt: HostRuntime) -> Result<(), Fail> {
    let task = walk(rt.alloc(), 3, 2, STEPS)?.ok_or("a task")?;
    first_steps_of(&rt, rt.alloc(), &task)
}
