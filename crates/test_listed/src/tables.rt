//! Tables of small tasks, worked out by hand.

ghost use Rattle.std.specs.Prelude.{◌≡◌};

use crate::comparison::{NONE, enters, has_classes, has_table, projections_agree, transitions_of};
use crate::value_sum::ValueSum;
use abstraction::Abstraction;
use fdr::{Fact, FdrTask, Operator};
use std::alloc::Global;
use std::process::Abort;
use testing_tasks::{fact, is_state_of, operator, task};

/// Pushes an operator.
fn push(
    rt: &impl Abort,
    operators: &mut Vec<Operator>,
    alloc: Global,
    precondition: &[Fact],
    effect: &[Fact],
) {
    let next = operator(alloc, precondition, effect).expect(rt, "memory");
    operators.push(next).expect(rt, "memory");
}

/// Returns a task of variables x and y with 3 values each. Operators: x from 0 to 1; x from 1 to 2; y from 0 to 2; x
/// from 1 to 0 and y from 0 to 1; y from 2 to 0. The goal is x = 2 and y = 2.
fn pour(rt: &impl Abort, alloc: Global) -> FdrTask {
    let mut operators = Vec::new(alloc);
    push(rt, &mut operators, alloc, &[fact(0, 0)], &[fact(0, 1)]);
    push(rt, &mut operators, alloc, &[fact(0, 1)], &[fact(0, 2)]);
    push(rt, &mut operators, alloc, &[fact(1, 0)], &[fact(1, 2)]);
    let both = [fact(0, 1), fact(1, 0)];
    push(rt, &mut operators, alloc, &both, &[fact(0, 0), fact(1, 1)]);
    push(rt, &mut operators, alloc, &[fact(1, 2)], &[fact(1, 0)]);
    task(
        alloc,
        &[3, 3],
        &[0, 0],
        &[fact(0, 2), fact(1, 2)],
        operators,
    )
    .expect(rt, "memory")
    .expect(rt, "a task")
}

/// The shares of the operators of `pour`.
const POUR_SHARES: &[u32] = &[2, 1, 5, 7, 3];

/// Returns a task of variables x with 3 values and y with 2. Operators: x from 2 to 0; x and y from 1 to 0.
fn drain(rt: &impl Abort, alloc: Global, goal: &[Fact]) -> FdrTask {
    let mut operators = Vec::new(alloc);
    push(rt, &mut operators, alloc, &[fact(0, 2)], &[fact(0, 0)]);
    let both = [fact(0, 1), fact(1, 1)];
    push(rt, &mut operators, alloc, &both, &[fact(0, 0), fact(1, 0)]);
    task(alloc, &[3, 2], &[2, 0], goal, operators)
        .expect(rt, "memory")
        .expect(rt, "a task")
}

/// Returns the abstraction of a task by the sum of x and y.
fn sum_of_both<'a>(rt: &impl Abort, task: &'a FdrTask) -> ValueSum<'a>
    ensures { result.task ≡ task.now }
{
    ValueSum::new(task, 0, 1).expect(rt, "an abstraction")
}

/// The sums are the numbers below 5. The first operator adds 1; the second adds 1 if the sum is not 0; the third adds
/// 2; the fourth does not affect the sum; the last subtracts 2.
#[test]
fn lists_transitions(rt: HostRuntime) {
    let alloc = rt.alloc();
    let task = pour(&rt, alloc);
    let sum = sum_of_both(&rt, &task);
    let listed = transitions_of(&rt, alloc, &task, &sum);
    has_classes(&rt, &listed, &[0, 1, 2, 4]);
    let entering: [&[(u32, u32)]; 5] = [
        &[(3, 2)],
        &[(0, 0), (3, 3)],
        &[(0, 1), (1, 1), (2, 0), (3, 4)],
        &[(0, 2), (1, 2), (2, 1)],
        &[(0, 3), (1, 3), (2, 2)],
    ];
    enters(&rt, alloc, &listed, &entering);
}

#[test]
fn follows_sums(rt: HostRuntime) {
    let alloc = rt.alloc();
    let task = pour(&rt, alloc);
    let sum = sum_of_both(&rt, &task);
    let listed = transitions_of(&rt, alloc, &task, &sum);
    has_table(
        &rt,
        alloc,
        &task,
        &listed,
        POUR_SHARES,
        &[5, 3, 2, 1, 0],
        &[2, 1, 3, 0, 0],
    );
}

#[test]
fn maps_states(rt: HostRuntime) {
    let alloc = rt.alloc();
    let task = pour(&rt, alloc);
    let sum = sum_of_both(&rt, &task);
    let listed = transitions_of(&rt, alloc, &task, &sum);
    let state = [2, 1];
    assert!(rt; is_state_of(&task, &state));
    assert_eq!(rt; listed.index(&state), 3);
    assert_eq!(rt; listed.size(), 5);
    assert_eq!(rt; listed.transition(1, 2), Some(3));
    assert!(rt; listed.is_goal(4) && !listed.is_goal(3));
    assert!(rt; !listed.touches(3) && listed.touches(4) && !listed.touches(5));
}

/// Both operators subtract 2, so that the goal, whose sum is 0, is not reached from the sums 1 and 3.
#[test]
fn finds_sums_without_a_plan(rt: HostRuntime) {
    let alloc = rt.alloc();
    let task = drain(&rt, alloc, &[fact(0, 0), fact(1, 0)]);
    let sum = sum_of_both(&rt, &task);
    let listed = transitions_of(&rt, alloc, &task, &sum);
    has_table(
        &rt,
        alloc,
        &task,
        &listed,
        &[4, 3],
        &[0, NONE, 3, NONE],
        &[3, 3],
    );
}

/// A goal on one of the variables allows each sum.
#[test]
fn takes_a_goal_on_one_variable(rt: HostRuntime) {
    let alloc = rt.alloc();
    let task = drain(&rt, alloc, &[fact(0, 0)]);
    let sum = sum_of_both(&rt, &task);
    let listed = transitions_of(&rt, alloc, &task, &sum);
    has_table(&rt, alloc, &task, &listed, &[4, 3], &[0, 0, 0, 0], &[0, 0]);
}

#[test]
fn agrees_with_projections(rt: HostRuntime) {
    let alloc = rt.alloc();
    let task = pour(&rt, alloc);
    projections_agree(
        &rt,
        alloc,
        &task,
        &[0],
        POUR_SHARES,
        &[3, 1, 0],
        &[2, 1, 0, 0, 0],
    );
    projections_agree(
        &rt,
        alloc,
        &task,
        &[0, 1],
        POUR_SHARES,
        &[8, 6, 5, NONE, NONE, NONE, 3, 1, 0],
        &[2, 1, 5, 0, 0],
    );
    projections_agree(&rt, alloc, &task, &[], POUR_SHARES, &[0], &[0, 0, 0, 0, 0]);
}

/// A variable that does not exist has no sum, nor has one with an effect whose value before is unknown.
#[test]
fn refuses_sums(rt: HostRuntime) {
    let alloc = rt.alloc();
    let task = pour(&rt, alloc);
    assert!(rt; ValueSum::new(&task, 0, 2).is_none());
    assert!(rt; ValueSum::new(&task, 2, 0).is_none());
    let mut operators = Vec::new(alloc);
    push(&rt, &mut operators, alloc, &[], &[fact(1, 1)]);
    let free = testing_tasks::task(alloc, &[2, 2], &[0, 0], &[], operators)
        .expect(&rt, "memory")
        .expect(&rt, "a task");
    assert!(rt; ValueSum::new(&free, 0, 1).is_none());
    assert!(rt; ValueSum::new(&free, 0, 0).is_some());
}
