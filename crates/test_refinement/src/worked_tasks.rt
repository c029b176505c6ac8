//! Tasks whose refinement is worked out by hand.

use crate::heuristics::{initial_value, size_by};
use crate::runs::{LARGE, run};
use abstraction_mapping::Mapping;
use fdr::{Fact, FdrTask, Operator};
use pdb_refinement::{Finding, Kind, Limits, Refined};
use rand_core::SeedableRng;
use rand_xoshiro::SplitMix64;
use std::alloc::{AllocError, Global};
use std::process::Abort;
use std::test::Fail;
use testing_tasks::{fact, operator, task};

/// The kinds of splits.
const KINDS: [Kind; 2] = [Kind::Pattern, Kind::Domain];

/// Makes the first run, which considers all goals.
fn first_run(
    alloc: Global,
    task: &FdrTask,
    kind: Kind,
    limits: &Limits,
) -> Result<Refined, AllocError> {
    let mut words = SplitMix64::seed_from_u64(1);
    run(alloc, task, kind, limits, 0, &mut words)
}

/// The operators of a road of towns: variable 0 is the town of a truck, and variable 1 the town of a package, or the
/// number of towns if it is in the truck.
fn road_operators(alloc: Global, towns: u32) -> Result<Vec<Operator>, AllocError> {
    let mut operators = Vec::new(alloc);
    for town in 1..towns {
        let before = fact(0, town - 1);
        let after = fact(0, town);
        operators.push(operator(alloc, &[before], &[after])?)?;
        operators.push(operator(alloc, &[after], &[before])?)?;
    }
    for town in 0..towns {
        let here = fact(0, town);
        let loaded = fact(1, towns);
        let delivered = fact(1, town);
        operators.push(operator(alloc, &[here, delivered], &[loaded])?)?;
        operators.push(operator(alloc, &[here, loaded], &[delivered])?)?;
    }
    Ok(operators)
}

/// A road on which the truck is in the last town and the package in the first, and is wanted in the last.
pub(crate) fn road(alloc: Global, towns: u32) -> Result<Option<FdrTask>, AllocError> {
    let last = towns.saturating_sub(1);
    let ranges = [towns as usize, towns as usize + 1];
    let operators = road_operators(alloc, towns)?;
    task(alloc, &ranges, &[last, 0], &[fact(1, last)], operators)
}

#[test]
fn a_road_needs_both_variables(rt: HostRuntime) -> Result<(), Fail> {
    // two steps to the package, one to load it, two back, and one to unload it
    let road = road(rt.alloc(), 3)?.ok_or("no task")?;
    for kind in KINDS {
        let refined = first_run(rt.alloc(), &road, kind, &LARGE)?;
        assert!(rt; refined.finding == Finding::Plan);
        assert_eq!(rt; size_by(&road, &refined.mapping), 12);
        let mapping = refined.mapping.ok_or("no mapping")?;
        assert_eq!(rt; initial_value(rt.alloc(), &road, &mapping)?, Some(6));
    }
    Ok(())
}

/// Checks that the abstraction of a run has at most this many abstract states.
fn is_within(
    rt: &impl Abort,
    alloc: Global,
    task: &FdrTask,
    states: usize,
) -> Result<(), AllocError> {
    let limits = Limits {
        states,
        transitions: LARGE.transitions,
        work: LARGE.work,
    };
    for kind in KINDS {
        let refined = first_run(alloc, task, kind, &limits)?;
        assert!(rt; size_by(task, &refined.mapping) <= states, "at {states}");
    }
    Ok(())
}

#[test]
fn abstract_states_are_within_the_limit(rt: HostRuntime) -> Result<(), Fail> {
    let road = road(rt.alloc(), 20)?.ok_or("no task")?;
    for states in [1, 2, 3, 4, 10, 50, 200] {
        is_within(&rt, rt.alloc(), &road, states)?;
    }
    Ok(())
}

#[test]
fn transitions_are_within_the_limit(rt: HostRuntime) -> Result<(), Fail> {
    // in the task of three towns the package alone has 6 transitions: loading and unloading in each; with the truck
    // it has these and 4 drives for each of its 4 values
    let road = road(rt.alloc(), 3)?.ok_or("no task")?;
    for (transitions, states) in [(0, 1), (5, 1), (6, 4), (21, 4), (22, 12)] {
        let limits = Limits {
            states: LARGE.states,
            transitions,
            work: LARGE.work,
        };
        let refined = first_run(rt.alloc(), &road, Kind::Pattern, &limits)?;
        assert_eq!(rt;
            size_by(&road, &refined.mapping),
            states,
            "at {transitions}"
        );
    }
    Ok(())
}

#[test]
fn nothing_to_split(rt: HostRuntime) -> Result<(), Fail> {
    // the goal holds, it is empty, and there is no variable
    let alloc = rt.alloc();
    let met = task(alloc, &[2], &[0], &[fact(0, 0)], Vec::new(alloc))?.ok_or("no task")?;
    let free = task(alloc, &[1, 3], &[0, 2], &[], Vec::new(alloc))?.ok_or("no task")?;
    let empty = task(alloc, &[], &[], &[], Vec::new(alloc))?.ok_or("no task")?;
    for task in [&met, &free, &empty] {
        for kind in KINDS {
            let refined = first_run(alloc, task, kind, &LARGE)?;
            assert!(rt; refined.mapping.is_none());
            assert!(rt; refined.finding == Finding::Plan);
        }
    }
    Ok(())
}

#[test]
fn a_goal_that_no_operator_reaches(rt: HostRuntime) -> Result<(), Fail> {
    let goal = [fact(0, 1)];
    let none = task(rt.alloc(), &[2], &[0], &goal, Vec::new(rt.alloc()))?.ok_or("no task")?;
    for kind in KINDS {
        let refined = first_run(rt.alloc(), &none, kind, &LARGE)?;
        assert!(rt; refined.finding == Finding::Unsolvable);
        let mapping = refined.mapping.ok_or("no mapping")?;
        assert_eq!(rt; initial_value(rt.alloc(), &none, &mapping)?, None);
    }
    Ok(())
}

/// This many operators with the same precondition and effect.
pub(crate) fn same_operators(alloc: Global, count: usize) -> Result<Vec<Operator>, AllocError> {
    let mut operators = Vec::new(alloc);
    for _ in 0..count {
        operators.push(operator(alloc, &[fact(0, 0)], &[fact(0, 1)])?)?;
    }
    Ok(operators)
}

#[test]
fn many_operators_are_one_group(rt: HostRuntime) -> Result<(), Fail> {
    // a round with 1 abstract state, and one with 3 or 2, 1 transition and 50,000 operators
    let operators = same_operators(rt.alloc(), 50_000)?;
    let goal = [fact(0, 1)];
    let many = task(rt.alloc(), &[3, 2], &[0, 0], &goal, operators)?.ok_or("no task")?;
    for (kind, states) in [(Kind::Pattern, 3), (Kind::Domain, 2)] {
        let refined = first_run(rt.alloc(), &many, kind, &LARGE)?;
        assert!(rt; refined.finding == Finding::Plan);
        assert_eq!(rt; refined.work, 1 + states + 1 + 1_000_000);
    }
    Ok(())
}

/// A task of this many variables with 3 values, each of which is to change from 0 to 2 by way of 1.
pub(crate) fn counters(alloc: Global, count: usize) -> Result<Option<FdrTask>, AllocError> {
    let mut goal: Vec<Fact> = Vec::new(alloc);
    let mut operators = Vec::new(alloc);
    for variable in 0..count {
        let values = [fact(variable, 0), fact(variable, 1), fact(variable, 2)];
        goal.push(values[2])?;
        operators.push(operator(alloc, &[values[0]], &[values[1]])?)?;
        operators.push(operator(alloc, &[values[1]], &[values[2]])?)?;
    }
    let ranges = vec![in alloc; 3; count]?;
    let initial = vec![in alloc; 0; count]?;
    task(alloc, &ranges, &initial, &goal, operators)
}

#[test]
fn many_variables(rt: HostRuntime) -> Result<(), Fail> {
    // 729 is the greatest power of 3 up to 1,000
    let counters = counters(rt.alloc(), 4_000)?.ok_or("no task")?;
    let limits = Limits {
        states: 1_000,
        transitions: LARGE.transitions,
        work: LARGE.work,
    };
    for kind in KINDS {
        let refined = first_run(rt.alloc(), &counters, kind, &limits)?;
        assert_eq!(rt; size_by(&counters, &refined.mapping), 729);
    }
    Ok(())
}
