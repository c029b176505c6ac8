//! First plans of small tasks.

ghost use Rattle.std.specs.Prelude.{◌≡◌};

use cost::Cost;
use fdr::{Fact, FdrTask, Operator};
use first_plan::{FirstPlan, find_plan, replay};
use scp::{Columns, choose_columns, make_columns};
use std::alloc::{AllocError, Global};
use std::process::Abort;
use std::thread::Threads;
use testing_tasks::{fact, task};

/// A precondition, an effect, and a cost.
type Step = (&'static [(usize, u32)], &'static [(usize, u32)], u64);

/// A task with the initial value 0 of each variable, and the cost of its cheapest plans.
#[derive(Drop)]
struct Row {
    ranges: &'static [usize],
    goal: &'static [(usize, u32)],
    steps: &'static [Step],
    optimum: Option<u64>,
}

fn facts(alloc: Global, pairs: &[(usize, u32)]) -> Result<Vec<Fact>, AllocError> {
    let mut facts = Vec::new(alloc);
    for &(variable, value) in pairs {
        facts.push(fact(variable, value))?;
    }
    Ok(facts)
}

fn operators(alloc: Global, steps: &[Step]) -> Result<Vec<Operator>, AllocError> {
    let mut operators = Vec::new(alloc);
    for &(precondition, effect, cost) in steps {
        operators.push(Operator {
            name: String::new(alloc),
            precondition: facts(alloc, precondition)?,
            effect: facts(alloc, effect)?,
            cost: Cost::new(cost).unwrap_or(Cost::ZERO),
        })?;
    }
    Ok(operators)
}

fn task_of(alloc: Global, row: &Row) -> Result<Option<FdrTask>, AllocError> {
    let initial = vec![in alloc; 0; row.ranges.len()]?;
    let goal = facts(alloc, row.goal)?;
    let operators = operators(alloc, row.steps)?;
    task(alloc, row.ranges, &initial, &goal, operators)
}

/// The columns with tables of at most 1,000 abstract states, or none.
fn columns_of<'a, R: Threads + Sync>(
    rt: &R,
    alloc: Global,
    task: &'a FdrTask,
    has_tables: bool,
) -> Result<Columns<'a>, AllocError> {
    if has_tables {
        choose_columns(rt, alloc, task, 1_000)
    } else {
        make_columns(rt, alloc, task, &[])
    }
}

/// What is found with 1,000 expansions.
fn found<R: Threads + Sync + Abort>(
    rt: &R,
    alloc: Global,
    row: &Row,
    has_tables: bool,
) -> Result<FirstPlan, AllocError> {
    let task = task_of(alloc, row)?.expect(rt, "a task");
    let columns = columns_of(rt, alloc, &task, has_tables)?;
    let found = find_plan(alloc, &columns, 1_000, 1)?;
    if let Some(plan) = &found.plan {
        assert_eq!(rt; replay(alloc, &task, &plan.operators)?, Some(plan.cost));
    }
    Ok(found)
}

/// Small tasks are searched to the end, so that the cheapest plan is found.
fn is_found<R: Threads + Sync + Abort>(rt: &R, alloc: Global, row: &Row) {
    for has_tables in [true, false] {
        let found = found(rt, alloc, row, has_tables).expect(rt, "memory");
        let cost = match &found.plan {
            Some(plan) => Some(plan.cost),
            None => None,
        };
        assert_eq!(rt; cost, row.optimum);
    }
}

/// From 0 the direct way costs 9, that by 1 and 2 costs 1 + 2 + 3.
const DETOUR: Row = Row {
    ranges: &[4],
    goal: &[(0, 3)],
    steps: &[
        (&[(0, 0)], &[(0, 3)], 9),
        (&[(0, 0)], &[(0, 1)], 1),
        (&[(0, 1)], &[(0, 2)], 2),
        (&[(0, 2)], &[(0, 3)], 3),
    ],
    optimum: Some(6),
};

/// A way of cost 0 round a circle, and one step of cost 1.
const FREE: Row = Row {
    ranges: &[3],
    goal: &[(0, 2)],
    steps: &[
        (&[(0, 0)], &[(0, 2)], 1),
        (&[(0, 0)], &[(0, 1)], 0),
        (&[(0, 1)], &[(0, 0)], 0),
        (&[(0, 1)], &[(0, 2)], 0),
    ],
    optimum: Some(0),
};

/// The value 2 is reached from 3 alone.
const CLOSED: Row = Row {
    ranges: &[4],
    goal: &[(0, 2)],
    steps: &[(&[(0, 0)], &[(0, 1)], 1), (&[(0, 3)], &[(0, 2)], 1)],
    optimum: None,
};

/// Each of two switches may be set alone at cost 2, or both with a key at cost 1, which costs 2.
const KEY: Row = Row {
    ranges: &[2, 2, 2],
    goal: &[(0, 1), (1, 1)],
    steps: &[
        (&[], &[(0, 1)], 2),
        (&[], &[(1, 1)], 2),
        (&[], &[(2, 1)], 2),
        (&[(2, 1)], &[(0, 1), (1, 1)], 1),
    ],
    optimum: Some(3),
};

/// The goal holds at first.
const THERE: Row = Row {
    ranges: &[2],
    goal: &[(0, 0)],
    steps: &[(&[(0, 0)], &[(0, 1)], 1)],
    optimum: Some(0),
};

#[test]
fn cheaper_way_round(rt: HostRuntime) {
    is_found(&rt, rt.alloc(), &DETOUR);
}

#[test]
fn steps_of_cost_0(rt: HostRuntime) {
    is_found(&rt, rt.alloc(), &FREE);
}

#[test]
fn no_plan(rt: HostRuntime) {
    is_found(&rt, rt.alloc(), &CLOSED);
}

#[test]
fn a_key_for_both(rt: HostRuntime) {
    is_found(&rt, rt.alloc(), &KEY);
}

/// No state is expanded if the goal holds at first, or if the heuristic value is infinite.
#[test]
fn nothing_to_expand(rt: HostRuntime) {
    for row in [&THERE, &CLOSED] {
        let found = found(&rt, rt.alloc(), row, true).expect(&rt, "memory");
        assert_eq!(rt; found.expansions, 0);
    }
    is_found(&rt, rt.alloc(), &THERE);
}

/// Greedy search reaches the goal by the direct way. With a table that is exact, a search in a window, which expands
/// the three states of the cheapest plan, then finds one that costs the heuristic value of the initial state.
#[test]
fn ends_at_the_lower_bound(rt: HostRuntime) {
    let found = found(&rt, rt.alloc(), &DETOUR, true).expect(&rt, "memory");
    assert_eq!(rt; found.expansions, 4);
    assert_eq!(rt; found.effort.greedy, 1);
    assert_eq!(rt; found.effort.windows, 3);
}

/// Without expansions there is no plan.
#[test]
fn no_expansions(rt: HostRuntime) {
    let alloc = rt.alloc();
    let task = task_of(alloc, &DETOUR)
        .expect(&rt, "memory")
        .expect(&rt, "a task");
    let columns = columns_of(&rt, alloc, &task, true).expect(&rt, "memory");
    let found = find_plan(alloc, &columns, 0, 1).expect(&rt, "memory");
    assert!(rt; found.plan.is_none());
    assert_eq!(rt; found.expansions, 0);
}

#[test]
fn replays(rt: HostRuntime) {
    let alloc = rt.alloc();
    let task = task_of(alloc, &DETOUR)
        .expect(&rt, "memory")
        .expect(&rt, "a task");
    for (operators, cost) in [
        ([1, 2, 3].as_slice(), Some(6)),
        ([0].as_slice(), Some(9)),
        ([1, 2].as_slice(), None),
        ([1, 3].as_slice(), None),
        ([0, 4].as_slice(), None),
        ([].as_slice(), None),
    ] {
        assert_eq!(rt; replay(alloc, &task, operators).expect(&rt, "memory"), cost);
    }
}

/// The result is the same each time. A refused allocation comes back as an error.
#[test]
fn the_same_again_or_refused(rt: HostRuntime) {
    let alloc = rt.alloc();
    for has_tables in [true, false] {
        for row in [&DETOUR, &FREE, &CLOSED, &KEY] {
            let first = found(&rt, alloc, row, has_tables);
            let again = found(&rt, alloc, row, has_tables);
            if let (Ok(first), Ok(again)) = (first, again) {
                assert_eq!(rt; first.expansions, again.expansions);
                assert_eq!(rt; first.plan.is_some(), again.plan.is_some());
                if let (Some(first), Some(again)) = (first.plan, again.plan) {
                    assert_eq!(rt; first.operators, again.operators);
                }
            }
        }
    }
}
