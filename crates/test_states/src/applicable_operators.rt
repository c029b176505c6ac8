//! The operators that apply in states of small tasks, worked out by hand.

ghost use Rattle.std.specs.Prelude.{◌≡◌, length};

use fdr::{Fact, FdrTask, Operator};
use fdr_successors::SuccessorGenerator;
use std::alloc::Global;
use std::process::Abort;
use testing_tasks::{fact, operator, states, task};

/// Checks that these operators are found, whatever the vector held.
fn finds(
    rt: &impl Abort,
    alloc: Global,
    generator: &SuccessorGenerator<'_>,
    state: &[u32],
    numbers: &[usize],
)
    requires { length state.now ≡ length generator.now.value_names }
{
    let mut found = Vec::from_slice(alloc, &[77, 5]).expect(rt, "memory");
    generator.applicable(state, &mut found).expect(rt, "memory");
    assert_eq!(rt; found.as_slice(), numbers);
    generator.applicable(state, &mut found).expect(rt, "memory");
    assert_eq!(rt; found.as_slice(), numbers, "again");
}

/// Checks that these operators apply.
fn applies(rt: &impl Abort, alloc: Global, task: &FdrTask, state: &[u32], numbers: &[usize]) {
    assert_eq!(rt; state.len(), task.variable_count());
    match SuccessorGenerator::new(alloc, task) {
        Ok(generator) => finds(rt, alloc, &generator, state, numbers),
        Err(_) => panic!(rt; "memory"),
    }
}

/// Pushes an operator.
fn push(
    rt: &impl Abort,
    operators: &mut Vec<Operator>,
    alloc: Global,
    precondition: &[Fact],
    effect: &[Fact],
) {
    let next = operator(alloc, precondition, effect).expect(rt, "memory");
    operators.push(next).expect(rt, "memory");
}

/// Returns a task of two variables, of 2 and 3 values. Operators test one of them, both or none, and are in no order.
fn crossing(rt: &impl Abort, alloc: Global) -> FdrTask {
    let mut operators = Vec::new(alloc);
    push(rt, &mut operators, alloc, &[fact(1, 1)], &[fact(1, 2)]);
    push(rt, &mut operators, alloc, &[fact(0, 0)], &[fact(0, 1)]);
    push(rt, &mut operators, alloc, &[], &[fact(0, 0)]);
    push(
        rt,
        &mut operators,
        alloc,
        &[fact(0, 0), fact(1, 1)],
        &[fact(1, 0)],
    );
    push(rt, &mut operators, alloc, &[fact(0, 1)], &[fact(0, 0)]);
    push(
        rt,
        &mut operators,
        alloc,
        &[fact(1, 2), fact(0, 0)],
        &[fact(1, 1)],
    );
    task(alloc, &[2, 3], &[0, 0], &[fact(1, 2)], operators)
        .expect(rt, "memory")
        .expect(rt, "a task")
}

#[test]
fn finds_across_groups(rt: HostRuntime) {
    let task = crossing(&rt, rt.alloc());
    applies(&rt, rt.alloc(), &task, &[0, 0], &[1, 2]);
    applies(&rt, rt.alloc(), &task, &[0, 1], &[0, 1, 2, 3]);
    applies(&rt, rt.alloc(), &task, &[0, 2], &[1, 2, 5]);
    applies(&rt, rt.alloc(), &task, &[1, 0], &[2, 4]);
    applies(&rt, rt.alloc(), &task, &[1, 1], &[0, 2, 4]);
    applies(&rt, rt.alloc(), &task, &[1, 2], &[2, 4]);
}

#[test]
fn finds_nothing_past_the_values(rt: HostRuntime) {
    let task = crossing(&rt, rt.alloc());
    applies(&rt, rt.alloc(), &task, &[2, 3], &[2]);
    applies(&rt, rt.alloc(), &task, &[4_294_967_295, 1], &[0, 2]);
}

/// Returns a task without variables, of one operator.
fn one_operator(rt: &impl Abort, alloc: Global) -> FdrTask {
    let mut operators = Vec::new(alloc);
    push(rt, &mut operators, alloc, &[], &[]);
    task(alloc, &[], &[], &[], operators)
        .expect(rt, "memory")
        .expect(rt, "a task")
}

#[test]
fn finds_without_variables(rt: HostRuntime) {
    let one = one_operator(&rt, rt.alloc());
    applies(&rt, rt.alloc(), &one, &[], &[0]);
}

#[test]
fn finds_without_operators(rt: HostRuntime) {
    let none = states(rt.alloc(), &[3], &[0])
        .expect(&rt, "memory")
        .expect(&rt, "a task");
    applies(&rt, rt.alloc(), &none, &[1], &[]);
}

/// Returns a task of three variables of 3, 3 and 2 values. Preconditions begin with others, and two of them occur
/// twice.
fn nested(rt: &impl Abort, alloc: Global) -> FdrTask {
    let mut operators = Vec::new(alloc);
    push(
        rt,
        &mut operators,
        alloc,
        &[fact(2, 0), fact(0, 1), fact(1, 2)],
        &[],
    );
    push(rt, &mut operators, alloc, &[fact(0, 1)], &[]);
    push(rt, &mut operators, alloc, &[fact(0, 1), fact(1, 2)], &[]);
    push(rt, &mut operators, alloc, &[fact(0, 1), fact(2, 1)], &[]);
    push(rt, &mut operators, alloc, &[fact(1, 2), fact(0, 1)], &[]);
    push(rt, &mut operators, alloc, &[fact(0, 1)], &[]);
    push(rt, &mut operators, alloc, &[fact(1, 2)], &[]);
    task(alloc, &[3, 3, 2], &[0, 0, 0], &[], operators)
        .expect(rt, "memory")
        .expect(rt, "a task")
}

#[test]
fn finds_longer_and_equal_preconditions(rt: HostRuntime) {
    let task = nested(&rt, rt.alloc());
    applies(&rt, rt.alloc(), &task, &[1, 2, 0], &[0, 1, 2, 4, 5, 6]);
    applies(&rt, rt.alloc(), &task, &[1, 2, 1], &[1, 2, 3, 4, 5, 6]);
    applies(&rt, rt.alloc(), &task, &[1, 0, 1], &[1, 3, 5]);
    applies(&rt, rt.alloc(), &task, &[2, 2, 0], &[6]);
    applies(&rt, rt.alloc(), &task, &[0, 1, 1], &[]);
}

/// Returns a task of variables of 100 and 60,000 values. Each third value of the first has an operator, and the first
/// and the last value of the second.
fn wide(rt: &impl Abort, alloc: Global) -> FdrTask {
    let mut operators = Vec::new(alloc);
    for third in 0..34 {
        push(rt, &mut operators, alloc, &[fact(0, 3 * third)], &[]);
    }
    push(rt, &mut operators, alloc, &[fact(1, 59_999)], &[]);
    push(rt, &mut operators, alloc, &[fact(1, 0)], &[]);
    task(alloc, &[100, 60_000], &[0, 0], &[], operators)
        .expect(rt, "memory")
        .expect(rt, "a task")
}

#[test]
fn finds_under_variables_of_many_values(rt: HostRuntime) {
    let task = wide(&rt, rt.alloc());
    applies(&rt, rt.alloc(), &task, &[99, 59_999], &[33, 34]);
    applies(&rt, rt.alloc(), &task, &[98, 59_999], &[34]);
    applies(&rt, rt.alloc(), &task, &[0, 0], &[0, 35]);
    applies(&rt, rt.alloc(), &task, &[3, 1], &[1]);
    applies(&rt, rt.alloc(), &task, &[100, 60_000], &[]);
}

/// Returns a task with operators on the first facts of a row: all of them, and all but the last, both twice.
fn deep(rt: &impl Abort, alloc: Global, facts: &[Fact]) -> FdrTask {
    let mut ranges = Vec::new(alloc);
    let mut initial = Vec::new(alloc);
    for _ in facts {
        ranges.push(2).expect(rt, "memory");
        initial.push(0).expect(rt, "memory");
    }
    let mut operators = Vec::new(alloc);
    let shorter = &facts[..facts.len().saturating_sub(1)];
    push(rt, &mut operators, alloc, facts, &[]);
    push(rt, &mut operators, alloc, shorter, &[]);
    push(rt, &mut operators, alloc, facts, &[]);
    push(rt, &mut operators, alloc, shorter, &[]);
    task(alloc, &ranges, &initial, &[], operators)
        .expect(rt, "memory")
        .expect(rt, "a task")
}

#[test]
fn finds_below_many_levels(rt: HostRuntime) {
    let mut facts = Vec::new(rt.alloc());
    let mut state = Vec::new(rt.alloc());
    for variable in 0..70 {
        facts.push(fact(variable, 1)).expect(&rt, "memory");
        state.push(1).expect(&rt, "memory");
    }
    let task = deep(&rt, rt.alloc(), &facts);
    applies(&rt, rt.alloc(), &task, &state, &[0, 1, 2, 3]);
    let _ = state.pop();
    state.push(0).expect(&rt, "memory");
    applies(&rt, rt.alloc(), &task, &state, &[1, 3]);
    let _ = state.pop();
    let _ = state.pop();
    state.push(0).expect(&rt, "memory");
    state.push(1).expect(&rt, "memory");
    applies(&rt, rt.alloc(), &task, &state, &[]);
}
