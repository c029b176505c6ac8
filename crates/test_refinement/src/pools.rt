//! Pools of stages: their mappings are within the limits, and the same each time.

use crate::heuristics::{initial_value, size_of};
use crate::random_tasks::random_task;
use crate::worked_tasks::{counters, road, same_operators};
use abstraction_mapping::Mapping;
use fdr::FdrTask;
use rand_core::SeedableRng;
use rand_xoshiro::SplitMix64;
use scp_pool::{Finding, Pool, Pooled, STAGES, StageLimits, pool_of};
use std::alloc::{AllocError, Global};
use std::process::Abort;
use std::test::Fail;
use std::thread::Threads;
use testing_tasks::{fact, operator, task};

/// The limits of a small stage.
const SMALL: StageLimits = StageLimits {
    number: 7,
    refined_states: 20,
    runs: 9,
    pattern_transitions: 400,
    domain_transitions: 400,
    grown_transitions: 400,
    work: 100_000,
    grown_states: 40,
};

/// Checks that no two mappings are the same.
fn are_distinct(rt: &impl Abort, mappings: &[Mapping]) {
    for (position, mapping) in mappings.iter().enumerate() {
        for other in mappings.iter().take(position) {
            assert!(rt; !mapping.is_same(other));
        }
    }
}

/// Checks that both lists have the same mappings.
fn are_same(rt: &impl Abort, mappings: &[Mapping], others: &[Mapping]) {
    assert_eq!(rt; mappings.len(), others.len());
    for (mapping, other) in mappings.iter().zip(others) {
        assert!(rt; mapping.is_same(other));
    }
}

/// Makes the pool of a stage with nothing taken over, and checks that each mapping is within the limits, that no two
/// are the same, and that the pool is the same when it is made again.
fn pool_within<'a, R: Abort + Threads + Sync>(
    rt: &R,
    alloc: Global,
    task: &'a FdrTask,
    stage: &StageLimits,
) -> Result<Pooled<'a>, AllocError> {
    let pooled = pool_of(rt, alloc, stage, Pool::new(alloc, task))?;
    let most = stage.refined_states.max(stage.grown_states);
    for mapping in pooled.pool.mappings() {
        assert!(rt; size_of(task, mapping) <= most);
    }
    are_distinct(rt, pooled.pool.mappings());
    let again = pool_of(rt, alloc, stage, Pool::new(alloc, task))?;
    are_same(rt, pooled.pool.mappings(), again.pool.mappings());
    assert!(rt; pooled.finding == again.finding);
    Ok(pooled)
}

#[test]
fn pools_of_small_tasks(rt: HostRuntime) -> Result<(), Fail> {
    let alloc = rt.alloc();
    let one = task(alloc, &[3], &[0], &[fact(0, 2)], Vec::new(alloc))?.ok_or("no task")?;
    let single = task(alloc, &[1], &[0], &[fact(0, 0)], Vec::new(alloc))?.ok_or("no task")?;
    let empty = task(alloc, &[], &[], &[], Vec::new(alloc))?.ok_or("no task")?;
    let road = road(alloc, 4)?.ok_or("no task")?;
    for stage in [SMALL, STAGES[0], STAGES[1]] {
        let pooled = pool_within(&rt, alloc, &one, &stage)?;
        assert_eq!(rt; pooled.finding, Finding::Unsolvable);
        assert_eq!(rt; pooled.pool.mappings().len(), 1);
        let pooled = pool_within(&rt, alloc, &single, &stage)?;
        assert_eq!(rt; pooled.finding, Finding::Plan);
        let pooled = pool_within(&rt, alloc, &empty, &stage)?;
        assert!(rt; pooled.pool.mappings().is_empty());
        let pooled = pool_within(&rt, alloc, &road, &stage)?;
        assert_eq!(rt; pooled.finding, Finding::Plan);
    }
    Ok(())
}

#[test]
fn many_variables_have_a_pool(rt: HostRuntime) -> Result<(), Fail> {
    let counters = counters(rt.alloc(), 4_000)?.ok_or("no task")?;
    let pooled = pool_within(&rt, rt.alloc(), &counters, &SMALL)?;
    assert!(rt; pooled.pool.mappings().len() > 60);
    Ok(())
}

#[test]
fn many_operators_have_a_pool(rt: HostRuntime) -> Result<(), Fail> {
    let operators = same_operators(rt.alloc(), 50_000)?;
    let goal = [fact(0, 1)];
    let many = task(rt.alloc(), &[3, 2], &[0, 0], &goal, operators)?.ok_or("no task")?;
    let pooled = pool_within(&rt, rt.alloc(), &many, &STAGES[1])?;
    assert_eq!(rt; pooled.finding, Finding::Plan);
    Ok(())
}

#[test]
fn goals_that_no_operator_reaches(rt: HostRuntime) -> Result<(), Fail> {
    let alloc = rt.alloc();
    let mut operators = Vec::new(alloc);
    operators.push(operator(alloc, &[fact(0, 0)], &[fact(0, 1)])?)?;
    let goal = [fact(0, 1), fact(1, 1)];
    let none = task(alloc, &[2, 2], &[0, 0], &goal, operators)?.ok_or("no task")?;
    let pooled = pool_within(&rt, alloc, &none, &STAGES[0])?;
    // the first abstraction shows it, and no other is made
    assert_eq!(rt; pooled.finding, Finding::Unsolvable);
    assert_eq!(rt; pooled.pool.mappings().len(), 1);
    let last = pooled.pool.mappings().last().ok_or("no mapping")?;
    assert_eq!(rt; initial_value(alloc, &none, last)?, None);
    Ok(())
}

#[test]
fn mappings_are_taken_over(rt: HostRuntime) -> Result<(), Fail> {
    let alloc = rt.alloc();
    let road = road(alloc, 20)?.ok_or("no task")?;
    let first = pool_within(&rt, alloc, &road, &SMALL)?;
    let mut copies = Vec::new(alloc);
    for mapping in first.pool.mappings() {
        copies.push(mapping.copied(alloc)?)?;
    }
    let second = pool_of(&rt, alloc, &STAGES[0], first.pool)?;
    let mappings = second.pool.mappings();
    assert!(rt; mappings.len() > copies.len());
    are_same(&rt, &mappings[..copies.len()], &copies);
    are_distinct(&rt, mappings);
    Ok(())
}

#[test]
fn plans_of_random_tasks_are_found(rt: HostRuntime) -> Result<(), Fail> {
    let mut words = SplitMix64::seed_from_u64(2);
    for _ in 0..50 {
        let task = random_task(rt.alloc(), &mut words)?.ok_or("no task")?;
        let pooled = pool_within(&rt, rt.alloc(), &task, &SMALL)?;
        if pooled.finding == Finding::Unsolvable {
            let last = pooled.pool.mappings().last().ok_or("no mapping")?;
            assert_eq!(rt; initial_value(rt.alloc(), &task, last)?, None);
        }
    }
    Ok(())
}
