//! The values of the initial states of worked tasks in the abstractions of the first stage.

use crate::heuristics::initial_value;
use fdr::{FdrTask, Operator};
use scp_pool::{Finding, Pool, STAGES, pool_of};
use std::alloc::{AllocError, Global};
use std::process::Abort;
use std::test::Fail;
use std::thread::Threads;
use testing_tasks::{fact, operator, task, walk};

/// Checks what the pool of the first stage finds, and the greatest cost of a cheapest abstract plan from the initial
/// state over its abstractions.
fn has_value<R: Abort + Threads + Sync>(
    rt: &R,
    alloc: Global,
    task: &FdrTask,
    wanted: u64,
    finding: Finding,
) -> Result<(), AllocError> {
    let pooled = pool_of(rt, alloc, &STAGES[0], Pool::new(alloc, task))?;
    let mut greatest = 0;
    for mapping in pooled.pool.mappings() {
        let value = initial_value(alloc, task, mapping)?;
        greatest = greatest.max(value.unwrap_or(u64::MAX));
    }
    assert_eq!(rt; greatest, wanted);
    assert_eq!(rt; pooled.finding, finding);
    Ok(())
}

#[test]
fn two_steps_of_a_road(rt: HostRuntime) -> Result<(), Fail> {
    // from a over b to c
    let road = walk(rt.alloc(), 3, 2, &[(0, 1, 1), (1, 2, 1)])?.ok_or("no task")?;
    has_value(&rt, rt.alloc(), &road, 2, Finding::Plan)?;
    Ok(())
}

#[test]
fn the_shorter_of_two_drives(rt: HostRuntime) -> Result<(), Fail> {
    // from a to c, over b for 3 and 4 or directly for 8
    let drive = walk(rt.alloc(), 3, 2, &[(0, 1, 3), (1, 2, 4), (0, 2, 8)])?.ok_or("no task")?;
    has_value(&rt, rt.alloc(), &drive, 7, Finding::Plan)?;
    Ok(())
}

/// The operators of two rooms, two balls and a hand. Variable 0 is the room of the hand, variables 1 and 2 are the
/// rooms of the balls, or 2 if they are held, and variable 3 is 0 if the hand is free.
fn grip_operators(alloc: Global) -> Result<Vec<Operator>, AllocError> {
    let mut operators = Vec::new(alloc);
    let (free, full) = (fact(3, 0), fact(3, 1));
    for room in 0..2 {
        let here = fact(0, room);
        operators.push(operator(alloc, &[here], &[fact(0, 1 - room)])?)?;
        for ball in 1..3 {
            let (lies, is_held) = (fact(ball, room), fact(ball, 2));
            operators.push(operator(alloc, &[here, lies, free], &[is_held, full])?)?;
            operators.push(operator(alloc, &[here, is_held], &[lies, free])?)?;
        }
    }
    Ok(operators)
}

#[test]
fn two_balls_are_carried_one_by_one(rt: HostRuntime) -> Result<(), Fail> {
    // two picks, two drops, and three moves between the rooms
    let goal = [fact(1, 1), fact(2, 1)];
    let operators = grip_operators(rt.alloc())?;
    let grip = task(rt.alloc(), &[2, 3, 3, 2], &[0, 0, 0, 0], &goal, operators)?.ok_or("no task")?;
    has_value(&rt, rt.alloc(), &grip, 7, Finding::Plan)?;
    Ok(())
}

#[test]
fn a_road_without_a_way(rt: HostRuntime) -> Result<(), Fail> {
    let road = walk(rt.alloc(), 3, 2, &[(0, 1, 1)])?.ok_or("no task")?;
    has_value(&rt, rt.alloc(), &road, u64::MAX, Finding::Unsolvable)?;
    Ok(())
}
