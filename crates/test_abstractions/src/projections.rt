ghost use Rattle.std.specs.Prelude.{◌≡◌, ◌<◌, true, length, IfOk};
ghost use Rattle.fdr.specs.Tasks.{ranges, IsState, is_goal_state};

use abstraction::{Abstraction, Projection, ProjectionFault};
use fdr::{Fact, FdrTask, Operator};
use std::alloc::Global;
use std::process::Abort;
use testing_tasks::{fact, is_increasing, is_state_of, operator, states, task};

/// Returns whether these are the operators' successors of the abstract state.
fn has_row<A: Abstraction>(a: &A, state: usize, row: &[Option<usize>]) -> bool
    requires { state < (A.abstraction a.now).size }
{
    for operator in 0..row.len() {
        if a.transition(state, operator) != row[operator] {
            return false;
        }
    }
    true
}

/// Returns whether these are its transitions, one row for each abstract state.
fn has_rows<A: Abstraction>(a: &A, rows: &[[Option<usize>; 11]]) -> bool {
    if rows.len() != a.size() {
        return false;
    }
    for state in 0..rows.len() {
        if !has_row(a, state, &rows[state]) {
            return false;
        }
    }
    true
}

/// Returns whether these are its abstract goals.
fn has_goals<A: Abstraction>(a: &A, goals: &[bool]) -> bool {
    if goals.len() != a.size() {
        return false;
    }
    for state in 0..goals.len() {
        if a.is_goal(state) != goals[state] {
            return false;
        }
    }
    true
}

/// Returns whether no transition from the abstract state lowers the value by more than its operator's share.
fn falls_within<A: Abstraction>(a: &A, state: usize, shares: &[u64], values: &[u64]) -> bool
    requires state { state < (A.abstraction a.now).size }
    requires values { length values.now ≡ (A.abstraction a.now).size }
{
    for operator in 0..shares.len() {
        if let Some(next) = a.transition(state, operator) {
            if values[state].saturating_sub(values[next]) > shares[operator] {
                return false;
            }
        }
    }
    true
}

/// Returns whether a table of numbers is consistent: abstract goals have 0, and no transition lowers the value by more
/// than its operator's share.
fn is_consistent<A: Abstraction>(a: &A, shares: &[u64], values: &[u64]) -> bool {
    if values.len() != a.size() {
        return false;
    }
    for state in 0..values.len() {
        if a.is_goal(state) && values[state] != 0 || !falls_within(a, state, shares, values) {
            return false;
        }
    }
    true
}

/// Returns whether a goal state's abstract state is an abstract goal, which the laws of an abstraction imply.
fn keeps_goal<A: Abstraction>(a: &A, state: &[u32]) -> bool
    requires state { IsState (ranges (A.task a.now)) state.now }
    requires goal { is_goal_state (A.task a.now) state.now ≡ true }
    ensures { result ≡ true }
{
    a.is_goal(a.index(state))
}

/// Pushes an operator.
fn push(
    rt: &impl Abort,
    operators: &mut Vec<Operator>,
    alloc: Global,
    precondition: &[Fact],
    effect: &[Fact],
) {
    let next = operator(alloc, precondition, effect).expect(rt, "memory");
    operators.push(next).expect(rt, "memory");
}

/// Returns a task of two balls x and y, in rooms p and q, and one gripper. Variables: the gripper's room; the position
/// of x, and that of y (in p, in q, held); whether the gripper is free. Operators: move p q, move q p; pick x p, x q, y
/// p, y q; drop x p, x q, y p, y q.
fn grip(rt: &impl Abort, alloc: Global) -> FdrTask {
    let mut operators = Vec::new(alloc);
    for room in 0..2 {
        push(
            rt,
            &mut operators,
            alloc,
            &[fact(0, room)],
            &[fact(0, 1 - room)],
        );
    }
    for ball in 1..3 {
        for room in 0..2 {
            let before = [fact(0, room), fact(ball, room), fact(3, 0)];
            push(
                rt,
                &mut operators,
                alloc,
                &before,
                &[fact(ball, 2), fact(3, 1)],
            );
        }
    }
    for ball in 1..3 {
        for room in 0..2 {
            let before = [fact(0, room), fact(ball, 2)];
            push(
                rt,
                &mut operators,
                alloc,
                &before,
                &[fact(ball, room), fact(3, 0)],
            );
        }
    }
    let goal = [fact(1, 1), fact(2, 1)];
    task(alloc, &[2, 3, 3, 2], &[0, 0, 0, 0], &goal, operators)
        .expect(rt, "memory")
        .expect(rt, "a task")
}

/// Returns the projection to a pattern that is checked to be strictly increasing.
fn project<'a>(
    rt: &impl Abort,
    alloc: Global,
    task: &'a FdrTask,
    pattern: &[usize],
) -> Result<Projection<'a>, ProjectionFault>
    ensures { IfOk result (λ p. p.task ≡ task.now) }
{
    assert!(rt; is_increasing(pattern), "increasing");
    Projection::new(alloc, task, pattern)
}

fn fault_of(
    rt: &impl Abort,
    alloc: Global,
    task: &FdrTask,
    pattern: &[usize],
) -> Option<ProjectionFault> {
    project(rt, alloc, task, pattern).err()
}

/// Returns the projection to a pattern that has one.
fn projected<'a>(
    rt: &impl Abort,
    alloc: Global,
    task: &'a FdrTask,
    pattern: &[usize],
) -> Projection<'a> {
    project(rt, alloc, task, pattern).expect(rt, "a projection")
}

/// The transitions of a ball's variable.
const BALL_ROWS: &[[Option<usize>; 11]] = &[
    [S0, S0, S2, None, S0, S0, None, None, S0, S0, None],
    [S1, S1, None, S2, S1, S1, None, None, S1, S1, None],
    [S2, S2, None, None, S2, S2, S0, S1, S2, S2, None],
];

const S0: Option<usize> = Some(0);

const S1: Option<usize> = Some(1);

const S2: Option<usize> = Some(2);

const S3: Option<usize> = Some(3);

const S4: Option<usize> = Some(4);

const S5: Option<usize> = Some(5);

/// Checks the projection to the first ball's variable.
fn is_of_the_ball(rt: &impl Abort, ball: &Projection<'_>) {
    assert!(rt; has_rows(ball, BALL_ROWS), "rows");
    assert!(rt; has_goals(ball, &[false, true, false]), "goals");
    for operator in 0..11 {
        let touches = matches!(operator, 2 | 3 | 6 | 7);
        assert_eq!(rt; ball.touches(operator), touches);
    }
}

/// Checks which numbers are consistent for the first ball's variable.
fn is_consistent_for_the_ball(rt: &impl Abort, ball: &Projection<'_>) {
    let saturated = [0, 0, 1, 0, 0, 0, 0, 1, 0, 0];
    let without_drop = [0, 0, 1, 0, 0, 0, 0, 0, 0, 0];
    assert!(rt; is_consistent(ball, &saturated, &[2, 0, 1]), "distances");
    assert!(rt; !is_consistent(ball, &saturated, &[3, 0, 1]), "too far");
    assert!(rt;
        !is_consistent(ball, &saturated, &[2, 1, 1]),
        "goal not at 0"
    );
    assert!(rt; !is_consistent(ball, &without_drop, &[2, 0, 1]), "no share");
}

fn projects_to_the_ball(rt: &impl Abort, alloc: Global, grip: &FdrTask) {
    let ball = projected(rt, alloc, grip, &[1]);
    is_of_the_ball(rt, &ball);
    is_consistent_for_the_ball(rt, &ball);
}

#[test]
fn one_variable(rt: HostRuntime) {
    let grip = grip(&rt, rt.alloc());
    projects_to_the_ball(&rt, rt.alloc(), &grip);
}

/// The transitions of a ball's variable and the gripper's.
const TWO_ROWS: &[[Option<usize>; 11]] = &[
    [S0, S0, S5, None, S3, S3, None, None, S0, S0, None],
    [S1, S1, None, S5, S4, S4, None, None, S1, S1, None],
    [S2, S2, None, None, S5, S5, S0, S1, S2, S2, None],
    [S3, S3, None, None, None, None, None, None, S0, S0, None],
    [S4, S4, None, None, None, None, None, None, S1, S1, None],
    [S5, S5, None, None, None, None, S0, S1, S2, S2, None],
];

/// The transitions of the one abstract state of no variable.
const NO_ROWS: &[[Option<usize>; 11]] = &[[S0, S0, S0, S0, S0, S0, S0, S0, S0, S0, None]];

/// Checks the transitions and the goals of the projection to a pattern.
fn projects_to(
    rt: &impl Abort,
    alloc: Global,
    grip: &FdrTask,
    pattern: &[usize],
    rows: &[[Option<usize>; 11]],
    goals: &[bool],
) {
    let projection = projected(rt, alloc, grip, pattern);
    assert!(rt; has_rows(&projection, rows), "rows");
    assert!(rt; has_goals(&projection, goals), "goals");
}

#[test]
fn two_variables(rt: HostRuntime) {
    let grip = grip(&rt, rt.alloc());
    let goals = [false, true, false, false, true, false];
    projects_to(&rt, rt.alloc(), &grip, &[1, 3], TWO_ROWS, &goals);
    projects_to(&rt, rt.alloc(), &grip, &[], NO_ROWS, &[true]);
}

/// States of the balls and the gripper.
const STATES: &[[u32; 4]] = &[
    [0, 0, 0, 0],
    [1, 2, 1, 0],
    [1, 0, 2, 1],
    [0, 2, 0, 1],
    [1, 2, 2, 1],
];

/// Checks the size of a projection, and the abstract states of the states.
fn indexes(
    rt: &impl Abort,
    task: &FdrTask,
    projection: &Projection<'_>,
    size: usize,
    indices: &[usize],
)
    requires { projection.now.task ≡ task.now }
{
    assert_eq!(rt; projection.size(), size);
    assert_eq!(rt; indices.len(), STATES.len());
    for (state, index) in STATES.iter().zip(indices) {
        assert!(rt; is_state_of(task, state), "a state");
        assert_eq!(rt; projection.index(state), *index);
    }
}

/// Checks the size and the abstract states of the projection to a pattern.
fn has_indices(
    rt: &impl Abort,
    alloc: Global,
    task: &FdrTask,
    pattern: &[usize],
    size: usize,
    indices: &[usize],
) {
    match project(rt, alloc, task, pattern) {
        Ok(projection) => indexes(rt, task, &projection, size, indices),
        Err(_) => panic!(rt; "a projection"),
    }
}

/// Checks that a goal state's abstract state is an abstract goal, in the projection to all variables but the first
/// ball's.
fn keeps_the_goal(rt: &impl Abort, alloc: Global, task: &FdrTask, goal: &[u32]) {
    assert!(rt;
        is_state_of(task, goal) && task.is_goal(goal),
        "a goal state"
    );
    match project(rt, alloc, task, &[0, 2, 3]) {
        Ok(rest) => assert!(rt; keeps_goal(&rest, goal), "an abstract goal"),
        Err(_) => panic!(rt; "a projection"),
    }
}

#[test]
fn indices(rt: HostRuntime) {
    let grip = grip(&rt, rt.alloc());
    has_indices(&rt, rt.alloc(), &grip, &[0, 2, 3], 12, &[0, 3, 11, 6, 11]);
    has_indices(
        &rt,
        rt.alloc(),
        &grip,
        &[0, 1, 2, 3],
        36,
        &[0, 11, 31, 22, 35],
    );
    has_indices(&rt, rt.alloc(), &grip, &[], 1, &[0, 0, 0, 0, 0]);
    keeps_the_goal(&rt, rt.alloc(), &grip, &[0, 1, 1, 1]);
}

/// Checks that the variable at this index of the pattern is unknown.
fn is_unknown(rt: &impl Abort, alloc: Global, grip: &FdrTask, pattern: &[usize], place: usize) {
    assert_eq!(rt;
        fault_of(rt, alloc, grip, pattern),
        Some(ProjectionFault::UnknownVariable(place))
    );
}

#[test]
fn unknown_variables(rt: HostRuntime) {
    let grip = grip(&rt, rt.alloc());
    is_unknown(&rt, rt.alloc(), &grip, &[0, 3, 4], 2);
    is_unknown(&rt, rt.alloc(), &grip, &[1, 4, 5], 1);
    is_unknown(&rt, rt.alloc(), &grip, &[4, 5, 6], 0);
    assert_eq!(rt; fault_of(&rt, rt.alloc(), &grip, &[0, 1, 2, 3]), None);
}

/// Checks that the table of a pattern would be too large.
fn is_too_large(rt: &impl Abort, alloc: Global, task: &FdrTask, pattern: &[usize]) {
    let fault = fault_of(rt, alloc, task, pattern);
    assert_eq!(rt; fault, Some(ProjectionFault::TableTooLarge));
}

/// Checks the size of the projection to a pattern.
fn has_size(rt: &impl Abort, alloc: Global, task: &FdrTask, pattern: &[usize], size: usize) {
    let projection = projected(rt, alloc, task, pattern);
    assert_eq!(rt; projection.size(), size);
}

#[test]
fn table_limit(rt: HostRuntime) {
    let bits = states(rt.alloc(), &[2; 25], &[0; 25])
        .expect(&rt, "memory")
        .expect(&rt, "a task");
    let all = [
        0, 1, 2, 3, 4, 5, 6, 7, 8, 9, 10, 11, 12, 13, 14, 15, 16, 17, 18, 19, 20, 21, 22, 23, 24,
        25,
    ];
    is_too_large(&rt, rt.alloc(), &bits, &all[..25]);
    is_unknown(&rt, rt.alloc(), &bits, &all, 25);
    has_size(&rt, rt.alloc(), &bits, &all[..24], 16_777_216);
}

#[test]
fn large_ranges(rt: HostRuntime) {
    let ranges = [65_536, 65_536, 65_536, 65_536, 256, 257, 1];
    let long = states(rt.alloc(), &ranges, &[0; 7])
        .expect(&rt, "memory")
        .expect(&rt, "a task");
    // 2^64, 2^32 and 2^24 + 2^16
    is_too_large(&rt, rt.alloc(), &long, &[0, 1, 2, 3]);
    is_too_large(&rt, rt.alloc(), &long, &[0, 1]);
    is_too_large(&rt, rt.alloc(), &long, &[0, 5]);
    has_size(&rt, rt.alloc(), &long, &[0, 4], 16_777_216);
    has_size(&rt, rt.alloc(), &long, &[3, 6], 65_536);
    has_size(&rt, rt.alloc(), &long, &[4, 5, 6], 65_792);
}
