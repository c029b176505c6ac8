//! Tasks for the tests, and checks of their reductions.

use crate::optimum::{cheapest_plan, cost_of_plan};
use crate::ordering::is_in_walk_order;
use cost::Cost;
use fdr::{Fact, FdrTask, Operator};
use reduction::{Reduction, reduce};
use std::alloc::Global;
use std::process::Abort;
use testing_tasks::task;

/// Adds an operator.
pub(crate) fn add(
    rt: &impl Abort,
    alloc: Global,
    operators: &mut Vec<Operator>,
    precondition: &[Fact],
    effect: &[Fact],
    cost: u64,
) {
    let operator = Operator {
        name: String::new(alloc),
        precondition: Vec::from_slice(alloc, precondition).expect(rt, "memory"),
        effect: Vec::from_slice(alloc, effect).expect(rt, "memory"),
        cost: Cost::new(cost).expect(rt, "a cost"),
    };
    operators.push(operator).expect(rt, "memory");
}

/// Returns the task with these parts, initially 0 everywhere.
pub(crate) fn task_with(
    rt: &impl Abort,
    alloc: Global,
    ranges: &[usize],
    goal: &[Fact],
    operators: Vec<Operator>,
) -> FdrTask {
    let initial = vec![in alloc; 0u32; ranges.len()].expect(rt, "memory");
    task(alloc, ranges, &initial, goal, operators)
        .expect(rt, "memory")
        .expect(rt, "a task")
}

/// Checks the classes of each variable and the retained operators.
pub(crate) fn is_reduced_to(
    rt: &impl Abort,
    reduction: &Reduction,
    classes: &[&[u32]],
    retained: &[usize],
) {
    assert_eq!(rt; reduction.classes.rows().len(), classes.len());
    for variable in 0..classes.len() {
        match reduction.classes.rows().get(variable) {
            Some(row) => assert_eq!(rt; row.classes(), classes[variable]),
            None => panic!(rt; "a row"),
        }
    }
    assert_eq!(rt; reduction.retained.as_slice(), retained);
    assert_eq!(rt; reduction.task.operator_count(), retained.len());
}

/// Returns the least cost of a plan, after checking that it is the same for the reduced task, and that a plan of the
/// reduced task is, operator by operator, a plan of the task.
pub(crate) fn same_optimum(
    rt: &impl Abort,
    alloc: Global,
    task: &FdrTask,
    reduction: &Reduction,
) -> Option<u64> {
    let cheapest = cheapest_plan(alloc, task).expect(rt, "memory");
    let reduced = cheapest_plan(alloc, &reduction.task).expect(rt, "memory");
    let cost = cheapest.map(|found| found.cost);
    match reduced {
        Some(found) => {
            assert_eq!(rt; Some(found.cost), cost);
            let mut plan = Vec::new(alloc);
            for step in &found.plan {
                let operator = reduction.retained.get(*step).expect(rt, "an operator");
                plan.push(*operator).expect(rt, "memory");
            }
            let paid = cost_of_plan(alloc, task, &plan).expect(rt, "memory");
            assert_eq!(rt; paid, cost);
        }
        None => assert!(rt; cost.is_none(), "no plan"),
    }
    cost
}

/// Reduces the task, checks what is left, and returns the least cost of a plan, which must not change.
pub(crate) fn check(
    rt: &impl Abort,
    alloc: Global,
    task: &FdrTask,
    classes: &[&[u32]],
    retained: &[usize],
) -> Option<u64> {
    let reduction = reduce(alloc, task).expect(rt, "memory");
    is_reduced_to(rt, &reduction, classes, retained);
    is_in_walk_order(rt, alloc, &reduction);
    same_optimum(rt, alloc, task, &reduction)
}
