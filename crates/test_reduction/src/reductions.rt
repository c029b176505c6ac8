//! Small tasks and what is left of them.

use crate::tasks::{add, check, task_with};
use reduction::reduce;
use sasfile::read_sas;
use std::alloc::Global;
use std::process::Abort;
use testing_tasks::fact;

/// A road from 0 by 1 to 2 and a lamp, variable 1, that can be switched on and off. The goal is at `place`.
fn road(rt: &impl Abort, alloc: Global, place: u32) -> fdr::FdrTask {
    let mut operators = Vec::new(alloc);
    add(rt, alloc, &mut operators, &[fact(0, 0)], &[fact(0, 1)], 1);
    add(rt, alloc, &mut operators, &[fact(0, 1)], &[fact(0, 2)], 1);
    add(rt, alloc, &mut operators, &[], &[fact(1, 0)], 1);
    add(rt, alloc, &mut operators, &[fact(1, 0)], &[fact(1, 1)], 1);
    task_with(rt, alloc, &[3, 2], &[fact(0, place)], operators)
}

/// The lamp is left out, and both of its operators.
#[test]
fn road_with_lamp(rt: HostRuntime) {
    let alloc = rt.alloc();
    let task = road(&rt, alloc, 2);
    let cost = check(&rt, alloc, &task, &[&[0, 1, 2], &[0, 0]], &[0, 1]);
    assert_eq!(rt; cost, Some(2));
}

/// With the goal at the start of the road, its other values are one class, and only the step away from it changes a
/// class.
#[test]
fn road_from_the_goal(rt: HostRuntime) {
    let alloc = rt.alloc();
    let task = road(&rt, alloc, 0);
    let cost = check(&rt, alloc, &task, &[&[0, 1, 1], &[0, 0]], &[0]);
    assert_eq!(rt; cost, Some(0));
}

/// Everything is asked for: all values stay apart, and a variable with a single value stays too.
#[test]
fn all_asked_for(rt: HostRuntime) {
    let alloc = rt.alloc();
    let mut operators = Vec::new(alloc);
    add(&rt, alloc, &mut operators, &[fact(0, 0)], &[fact(0, 1)], 1);
    add(
        &rt,
        alloc,
        &mut operators,
        &[fact(0, 1), fact(1, 0)],
        &[fact(0, 2), fact(1, 1)],
        4,
    );
    add(
        &rt,
        alloc,
        &mut operators,
        &[fact(0, 1), fact(1, 1)],
        &[fact(1, 0)],
        2,
    );
    let task = task_with(&rt, alloc, &[3, 2, 1], &[fact(0, 2)], operators);
    let reduction = reduce(alloc, &task).expect(&rt, "memory");
    assert_eq!(rt; reduction.task.variable_count(), 3);
    let cost = check(&rt, alloc, &task, &[&[0, 1, 2], &[0, 1], &[0]], &[0, 1, 2]);
    assert_eq!(rt; cost, Some(5));
}

/// With merged values elsewhere, a variable with a single value is left out.
#[test]
fn single_value_left_out(rt: HostRuntime) {
    let alloc = rt.alloc();
    let mut operators = Vec::new(alloc);
    add(&rt, alloc, &mut operators, &[fact(1, 0)], &[fact(0, 2)], 3);
    add(&rt, alloc, &mut operators, &[fact(0, 0)], &[fact(1, 0)], 1);
    let task = task_with(&rt, alloc, &[3, 1], &[fact(0, 2)], operators);
    let reduction = reduce(alloc, &task).expect(&rt, "memory");
    assert_eq!(rt; reduction.task.variable_count(), 1);
    let cost = check(&rt, alloc, &task, &[&[0, 0, 1], &[0]], &[0]);
    assert_eq!(rt; cost, Some(3));
}

/// Of 4,000 variables that can all be switched one is asked for.
#[test]
fn one_of_many(rt: HostRuntime) {
    let alloc = rt.alloc();
    let mut operators = Vec::new(alloc);
    for variable in 0..4_000 {
        add(
            &rt,
            alloc,
            &mut operators,
            &[fact(variable, 0)],
            &[fact(variable, 1)],
            1,
        );
    }
    let ranges = vec![in alloc; 2; 4_000].expect(&rt, "memory");
    let task = task_with(&rt, alloc, &ranges, &[fact(1_234, 1)], operators);
    let reduction = reduce(alloc, &task).expect(&rt, "memory");
    assert_eq!(rt; reduction.retained.as_slice(), [1_234].as_slice());
    assert_eq!(rt; reduction.classes.staying(), [1_234].as_slice());
    assert_eq!(rt; reduction.task.variable_count(), 1);
    assert_eq!(rt; reduction.task.operator_count(), 1);
}

/// A variable that only effects name is left out, and so is the operator that sets nothing else.
#[test]
fn named_by_effects_alone(rt: HostRuntime) {
    let alloc = rt.alloc();
    let mut operators = Vec::new(alloc);
    add(
        &rt,
        alloc,
        &mut operators,
        &[],
        &[fact(0, 1), fact(1, 1)],
        7,
    );
    add(&rt, alloc, &mut operators, &[], &[fact(1, 2)], 1);
    let task = task_with(&rt, alloc, &[2, 3], &[fact(0, 1)], operators);
    let cost = check(&rt, alloc, &task, &[&[0, 1], &[0, 0, 0]], &[0]);
    assert_eq!(rt; cost, Some(7));
}

/// The second operator's only effect on the goal's variable is what it requires already, so its other conditions are
/// not asked for.
#[test]
fn effect_that_is_required(rt: HostRuntime) {
    let alloc = rt.alloc();
    let mut operators = Vec::new(alloc);
    add(&rt, alloc, &mut operators, &[fact(0, 0)], &[fact(0, 1)], 2);
    add(
        &rt,
        alloc,
        &mut operators,
        &[fact(0, 1), fact(1, 1)],
        &[fact(0, 1), fact(2, 1)],
        1,
    );
    add(&rt, alloc, &mut operators, &[], &[fact(1, 1)], 1);
    let task = task_with(&rt, alloc, &[2, 2, 2], &[fact(0, 1)], operators);
    let cost = check(&rt, alloc, &task, &[&[0, 1], &[0, 0], &[0, 0]], &[0]);
    assert_eq!(rt; cost, Some(2));
}

/// Values 0, 1 and 2 are merged. Retained are an effect into the merged class, one out of it without a condition, and
/// one into it without a condition; an effect within the class is not. Those without a condition are the first.
#[test]
fn merged_class(rt: HostRuntime) {
    let alloc = rt.alloc();
    let mut operators = Vec::new(alloc);
    add(&rt, alloc, &mut operators, &[fact(0, 0)], &[fact(0, 1)], 1);
    add(&rt, alloc, &mut operators, &[fact(0, 3)], &[fact(0, 1)], 1);
    add(&rt, alloc, &mut operators, &[], &[fact(0, 3)], 6);
    add(&rt, alloc, &mut operators, &[], &[fact(0, 2)], 1);
    let task = task_with(&rt, alloc, &[4], &[fact(0, 3)], operators);
    let cost = check(&rt, alloc, &task, &[&[0, 0, 0, 1]], &[2, 3, 1]);
    assert_eq!(rt; cost, Some(6));
}

/// Of equal operators, which differ in what they do to a lamp alone, the first of the least cost is retained.
#[test]
fn equal_operators(rt: HostRuntime) {
    let alloc = rt.alloc();
    let mut operators = Vec::new(alloc);
    add(
        &rt,
        alloc,
        &mut operators,
        &[fact(0, 0)],
        &[fact(0, 1), fact(1, 0)],
        3,
    );
    add(
        &rt,
        alloc,
        &mut operators,
        &[fact(0, 0)],
        &[fact(1, 1), fact(0, 1)],
        2,
    );
    add(&rt, alloc, &mut operators, &[fact(0, 0)], &[fact(0, 1)], 2);
    add(&rt, alloc, &mut operators, &[fact(0, 0)], &[fact(0, 1)], 5);
    add(&rt, alloc, &mut operators, &[fact(0, 1)], &[fact(0, 2)], 1);
    add(&rt, alloc, &mut operators, &[fact(0, 1)], &[fact(0, 2)], 1);
    let task = task_with(&rt, alloc, &[3, 2], &[fact(0, 2)], operators);
    let cost = check(&rt, alloc, &task, &[&[0, 1, 2], &[0, 0]], &[1, 4]);
    assert_eq!(rt; cost, Some(3));
}

/// Operators with the same conditions and effects in another order are equal; one that has them on other variables, or
/// a condition more, is not. The one whose condition others begin with is the first.
#[test]
fn equal_in_another_order(rt: HostRuntime) {
    let alloc = rt.alloc();
    let mut operators = Vec::new(alloc);
    add(
        &rt,
        alloc,
        &mut operators,
        &[fact(0, 0), fact(1, 0)],
        &[fact(0, 1), fact(1, 1)],
        2,
    );
    add(
        &rt,
        alloc,
        &mut operators,
        &[fact(1, 0), fact(0, 0)],
        &[fact(1, 1), fact(0, 1)],
        1,
    );
    add(
        &rt,
        alloc,
        &mut operators,
        &[fact(0, 0)],
        &[fact(0, 1), fact(1, 1)],
        9,
    );
    add(
        &rt,
        alloc,
        &mut operators,
        &[fact(1, 0)],
        &[fact(0, 1), fact(1, 1)],
        9,
    );
    let task = task_with(&rt, alloc, &[2, 2], &[fact(0, 1), fact(1, 1)], operators);
    let cost = check(&rt, alloc, &task, &[&[0, 1], &[0, 1]], &[2, 1, 3]);
    assert_eq!(rt; cost, Some(1));
}

/// Without the metric each operator costs 1, and the first of equal ones is retained.
#[test]
fn equal_operators_without_metric(rt: HostRuntime) {
    let alloc = rt.alloc();
    let text = "begin_version\n3\nend_version\nbegin_metric\n0\nend_metric\n2\n\
        begin_variable\nvar0\n-1\n2\na\nb\nend_variable\n\
        begin_variable\nvar1\n-1\n2\non\noff\nend_variable\n\
        0\n\
        begin_state\n0\n0\nend_state\n\
        begin_goal\n1\n0 1\nend_goal\n\
        2\n\
        begin_operator\ndear\n0\n1\n0 0 0 1\n9\nend_operator\n\
        begin_operator\ncheap\n0\n2\n0 0 0 1\n0 1 -1 1\n2\nend_operator\n\
        0\n";
    match read_sas(alloc, text.as_bytes()) {
        Ok(task) => {
            let cost = check(&rt, alloc, &task, &[&[0, 1], &[0, 0]], &[0]);
            assert_eq!(rt; cost, Some(1));
        }
        Err(_) => panic!(rt; "a task"),
    }
}

/// Nothing is asked for: no variable and no operator is left, and the goal holds at once.
#[test]
fn nothing_asked_for(rt: HostRuntime) {
    let alloc = rt.alloc();
    let mut operators = Vec::new(alloc);
    add(&rt, alloc, &mut operators, &[fact(0, 0)], &[fact(0, 1)], 1);
    add(&rt, alloc, &mut operators, &[fact(1, 1)], &[fact(0, 2)], 1);
    let task = task_with(&rt, alloc, &[3, 2], &[], operators);
    let reduction = reduce(alloc, &task).expect(&rt, "memory");
    assert_eq!(rt; reduction.task.variable_count(), 0);
    let cost = check(&rt, alloc, &task, &[&[0, 0, 0], &[0, 0]], &[]);
    assert_eq!(rt; cost, Some(0));
}

/// No operator sets the goal's variable: none is retained, and the reduced task is unsolvable as the task is.
#[test]
fn unsolvable(rt: HostRuntime) {
    let alloc = rt.alloc();
    let mut operators = Vec::new(alloc);
    add(&rt, alloc, &mut operators, &[fact(0, 0)], &[fact(0, 1)], 1);
    add(&rt, alloc, &mut operators, &[fact(0, 1)], &[fact(0, 2)], 1);
    let task = task_with(&rt, alloc, &[3, 2], &[fact(1, 1)], operators);
    let cost = check(&rt, alloc, &task, &[&[0, 0, 0], &[0, 1]], &[]);
    assert_eq!(rt; cost, None);
}

/// A condition is asked for by an operator that is found late: from the goal back by a chain of conditions, against the
/// order of the operators and with it. They are retained in the order of their conditions' variables.
#[test]
fn chain_of_conditions(rt: HostRuntime) {
    let alloc = rt.alloc();
    let mut operators = Vec::new(alloc);
    add(&rt, alloc, &mut operators, &[fact(1, 1)], &[fact(0, 1)], 1);
    add(&rt, alloc, &mut operators, &[fact(3, 1)], &[fact(2, 1)], 1);
    add(&rt, alloc, &mut operators, &[fact(2, 1)], &[fact(1, 1)], 1);
    add(&rt, alloc, &mut operators, &[], &[fact(3, 1)], 1);
    add(&rt, alloc, &mut operators, &[fact(3, 1)], &[fact(4, 1)], 1);
    let task = task_with(&rt, alloc, &[2, 2, 2, 2, 2], &[fact(0, 1)], operators);
    let cost = check(
        &rt,
        alloc,
        &task,
        &[&[0, 1], &[0, 1], &[0, 1], &[0, 1], &[0, 0]],
        &[3, 0, 2, 1],
    );
    assert_eq!(rt; cost, Some(4));
}
