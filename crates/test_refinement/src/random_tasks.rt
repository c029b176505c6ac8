//! Random tasks: with large limits the cost of an abstract plan is that of a plan.

use crate::heuristics::{initial_value, size_by, whole};
use crate::runs::{LARGE, run};
use fdr::{Fact, FdrTask, Operator};
use pdb_refinement::{Finding, Kind, Limits};
use rand_core::{Rng, SeedableRng};
use rand_xoshiro::SplitMix64;
use std::alloc::{AllocError, Global};
use std::process::Abort;
use std::test::Fail;
use testing_tasks::{fact, operator, task};

/// A random number below `bound`, and 0 if there is none.
fn below(words: &mut SplitMix64, bound: usize) -> usize {
    (words.next_u64() % bound.max(1) as u64) as usize
}

/// Facts on random variables, one in `rarity`, with random values.
fn facts(
    alloc: Global,
    ranges: &[usize],
    rarity: usize,
    words: &mut SplitMix64,
) -> Result<Vec<Fact>, AllocError> {
    let mut facts = Vec::new(alloc);
    for (variable, range) in ranges.iter().enumerate() {
        if below(words, rarity) == 0 {
            facts.push(fact(variable, below(words, *range).min(65_536) as u32))?;
        }
    }
    Ok(facts)
}

/// Random operators.
fn operators(
    alloc: Global,
    ranges: &[usize],
    words: &mut SplitMix64,
) -> Result<Vec<Operator>, AllocError> {
    let mut operators = Vec::new(alloc);
    for _ in 0..below(words, 30).max(10) {
        let precondition = facts(alloc, ranges, 3, words)?;
        let effect = facts(alloc, ranges, 3, words)?;
        operators.push(operator(alloc, &precondition, &effect)?)?;
    }
    Ok(operators)
}

/// A random task of 5 variables with 2 to 4 values.
pub(crate) fn random_task(
    alloc: Global,
    words: &mut SplitMix64,
) -> Result<Option<FdrTask>, AllocError> {
    let mut ranges = Vec::new(alloc);
    let mut initial = Vec::new(alloc);
    for _ in 0..5 {
        let range = below(words, 5).max(2);
        ranges.push(range)?;
        initial.push(below(words, range).min(65_536) as u32)?;
    }
    let goal = facts(alloc, &ranges, 2, words)?;
    let operators = operators(alloc, &ranges, words)?;
    task(alloc, &ranges, &initial, &goal, operators)
}

/// Checks the first run without limits that matter, and returns the cost of a plan.
fn check_exact(
    rt: &impl Abort,
    alloc: Global,
    task: &FdrTask,
    words: &mut SplitMix64,
) -> Result<Option<u64>, AllocError> {
    let optimum = initial_value(alloc, task, &whole(alloc, task)?)?;
    for kind in [Kind::Pattern, Kind::Domain] {
        let refined = run(alloc, task, kind, &LARGE, 0, words)?;
        let found = if optimum.is_some() {
            Finding::Plan
        } else {
            Finding::Unsolvable
        };
        assert_eq!(rt; refined.finding, found);
        match &refined.mapping {
            Some(mapping) => {
                let value = initial_value(alloc, task, mapping)?;
                assert_eq!(rt; value, optimum);
            }
            None => assert_eq!(rt; optimum, Some(0)),
        }
    }
    Ok(optimum)
}

/// Checks runs with small limits.
fn check_limits(
    rt: &impl Abort,
    alloc: Global,
    task: &FdrTask,
    words: &mut SplitMix64,
) -> Result<(), AllocError> {
    for number in 0..4 {
        for kind in [Kind::Pattern, Kind::Domain] {
            let limits = Limits {
                states: below(words, 30).max(1),
                transitions: below(words, 60) as u64,
                work: below(words, 2_000) as u64,
            };
            let refined = run(alloc, task, kind, &limits, number, words)?;
            assert!(rt; size_by(task, &refined.mapping) <= limits.states);
        }
    }
    Ok(())
}

#[test]
fn abstract_plans_are_plans(rt: HostRuntime) -> Result<(), Fail> {
    let mut words = SplitMix64::seed_from_u64(1);
    let mut costly: u32 = 0;
    let mut unsolvable: u32 = 0;
    for _ in 0..200 {
        let task = random_task(rt.alloc(), &mut words)?.ok_or("no task")?;
        match check_exact(&rt, rt.alloc(), &task, &mut words)? {
            None => unsolvable = unsolvable.saturating_add(1),
            Some(0) => {}
            Some(_) => costly = costly.saturating_add(1),
        }
        check_limits(&rt, rt.alloc(), &task, &mut words)?;
    }
    // among the tasks there are those with plans and those without
    assert!(rt; costly > 20);
    assert!(rt; unsolvable > 20);
    Ok(())
}
