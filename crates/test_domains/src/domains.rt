ghost use Rattle.std.specs.Prelude.{◌≡◌, ◌<◌, IfOk};

use abstraction::Abstraction;
use abstraction_domain::{ClassRow, DomainAbstraction, DomainFault, are_increasing};
use fdr::{Fact, FdrTask, Operator};
use std::alloc::Global;
use std::process::Abort;
use testing_tasks::{fact, is_state_of, operator, states, task};

/// Returns whether these are the operators' successors of the abstract state.
fn has_row<A: Abstraction>(a: &A, state: usize, row: &[Option<usize>]) -> bool
    requires { state < (A.abstraction a.now).size }
{
    for operator in 0..row.len() {
        if a.transition(state, operator) != row[operator] {
            return false;
        }
    }
    true
}

/// Returns whether these are its transitions, one row for each abstract state.
fn has_rows<A: Abstraction>(a: &A, rows: &[[Option<usize>; 4]]) -> bool {
    if rows.len() != a.size() {
        return false;
    }
    for state in 0..rows.len() {
        if !has_row(a, state, &rows[state]) {
            return false;
        }
    }
    true
}

/// Returns whether these are its abstract goals.
fn has_goals<A: Abstraction>(a: &A, goals: &[bool]) -> bool {
    if goals.len() != a.size() {
        return false;
    }
    for state in 0..goals.len() {
        if a.is_goal(state) != goals[state] {
            return false;
        }
    }
    true
}

/// Returns whether these operators affect it.
fn has_touching<A: Abstraction>(a: &A, touching: &[bool]) -> bool {
    for operator in 0..touching.len() {
        if a.touches(operator) != touching[operator] {
            return false;
        }
    }
    true
}

/// Pushes an operator.
fn push(
    rt: &impl Abort,
    operators: &mut Vec<Operator>,
    alloc: Global,
    precondition: &[Fact],
    effect: &[Fact],
) {
    let next = operator(alloc, precondition, effect).expect(rt, "memory");
    operators.push(next).expect(rt, "memory");
}

/// Returns a task of variables x with 4 values and y with 3. Operators: x from 0 to 1; x from 2 to 3 and y from 1 to 2;
/// y to 0 if x is 3. The goal is x = 3 and y = 2.
pub(crate) fn worked(rt: &impl Abort, alloc: Global) -> FdrTask {
    let mut operators = Vec::new(alloc);
    push(rt, &mut operators, alloc, &[fact(0, 0)], &[fact(0, 1)]);
    push(
        rt,
        &mut operators,
        alloc,
        &[fact(0, 2), fact(1, 1)],
        &[fact(0, 3), fact(1, 2)],
    );
    push(rt, &mut operators, alloc, &[fact(0, 3)], &[fact(1, 0)]);
    let goal = [fact(0, 3), fact(1, 2)];
    task(alloc, &[4, 3], &[0, 0], &goal, operators)
        .expect(rt, "memory")
        .expect(rt, "a task")
}

/// Returns a row of the classes of a variable.
fn row(rt: &impl Abort, alloc: Global, variable: usize, classes: &[u32]) -> ClassRow {
    let classes = Vec::from_slice(alloc, classes).expect(rt, "memory");
    match ClassRow::new(variable, classes) {
        Ok(row) => row,
        Err(_) => panic!(rt; "numbered"),
    }
}

/// Returns the rows of these variables and classes.
pub(crate) fn rows(rt: &impl Abort, alloc: Global, spelled: &[(usize, &[u32])]) -> Vec<ClassRow> {
    let mut rows = Vec::new(alloc);
    for (variable, classes) in spelled {
        let next = row(rt, alloc, *variable, classes);
        rows.push(next).expect(rt, "memory");
    }
    rows
}

/// The classes 0 1 1 2 of x.
pub(crate) const X: (usize, &[u32]) = (0, &[0, 1, 1, 2]);

/// The classes 0 1 1 of y.
pub(crate) const Y: (usize, &[u32]) = (1, &[0, 1, 1]);

const S0: Option<usize> = Some(0);

const S1: Option<usize> = Some(1);

const S2: Option<usize> = Some(2);

const S4: Option<usize> = Some(4);

const S5: Option<usize> = Some(5);

/// The transitions for both variables: abstract state i has the class i % 3 of x and i / 3 of y. The last column
/// belongs to no operator.
const BOTH_ROWS: &[[Option<usize>; 4]] = &[
    [S1, None, None, None],
    [None, None, None, None],
    [None, None, S2, None],
    [S4, None, None, None],
    [None, S5, None, None],
    [None, None, S2, None],
];

/// The transitions for y alone: the second operator maps the class of 1 to the class of 2, which is the same one.
const Y_ROWS: &[[Option<usize>; 4]] = &[[S0, None, S0, None], [S1, S1, S0, None]];

/// States with their abstract states.
const STATES: &[([u32; 2], usize)] = &[
    ([0, 0], 0),
    ([1, 0], 1),
    ([2, 0], 1),
    ([3, 0], 2),
    ([0, 2], 3),
    ([1, 2], 4),
    ([2, 1], 4),
    ([3, 1], 5),
    ([3, 2], 5),
];

/// Returns the domain abstraction by rows that are checked to be on strictly increasing variables.
pub(crate) fn abstraction<'a>(
    rt: &impl Abort,
    alloc: Global,
    task: &'a FdrTask,
    rows: &[ClassRow],
) -> Result<DomainAbstraction<'a>, DomainFault>
    ensures { IfOk result (λ d. d.task ≡ task.now) }
{
    assert!(rt; are_increasing(rows), "increasing");
    DomainAbstraction::new(alloc, task, rows)
}

/// Checks the transitions, goals and affecting operators of the domain abstraction by these rows.
fn abstracts(
    rt: &impl Abort,
    alloc: Global,
    task: &FdrTask,
    rows: &[ClassRow],
    expected: &[[Option<usize>; 4]],
    goals: &[bool],
    touching: &[bool],
) {
    match abstraction(rt, alloc, task, rows) {
        Ok(domain) => {
            assert!(rt; has_rows(&domain, expected), "transitions");
            assert!(rt; has_goals(&domain, goals), "goals");
            assert!(rt; has_touching(&domain, touching), "touching");
        }
        Err(_) => panic!(rt; "a domain abstraction"),
    }
}

#[test]
fn transitions(rt: HostRuntime) {
    let alloc = rt.alloc();
    let task = worked(&rt, alloc);
    let both = rows(&rt, alloc, &[X, Y]);
    let goals = [false, false, false, false, false, true];
    let touching = [true, true, true, false];
    abstracts(&rt, alloc, &task, &both, BOTH_ROWS, &goals, &touching);
    let y = rows(&rt, alloc, &[Y]);
    let touching = [false, true, true, false];
    abstracts(&rt, alloc, &task, &y, Y_ROWS, &[false, true], &touching);
}

/// Checks the abstract states of the states.
fn has_indices(rt: &impl Abort, task: &FdrTask, domain: &DomainAbstraction<'_>)
    requires { domain.now.task ≡ task.now }
{
    for (state, index) in STATES {
        assert!(rt; is_state_of(task, state), "a state");
        assert_eq!(rt; domain.index(state), *index);
    }
}

#[test]
fn indices(rt: HostRuntime) {
    let alloc = rt.alloc();
    let task = worked(&rt, alloc);
    let both = rows(&rt, alloc, &[X, Y]);
    match abstraction(&rt, alloc, &task, &both) {
        Ok(domain) => has_indices(&rt, &task, &domain),
        Err(_) => panic!(&rt; "a domain abstraction"),
    }
}

/// Returns the reason why there is no domain abstraction by these rows.
fn fault_of(
    rt: &impl Abort,
    alloc: Global,
    task: &FdrTask,
    spelled: &[(usize, &[u32])],
) -> Option<DomainFault> {
    let rows = rows(rt, alloc, spelled);
    abstraction(rt, alloc, task, &rows).err()
}

#[test]
fn faults(rt: HostRuntime) {
    let alloc = rt.alloc();
    let task = worked(&rt, alloc);
    let unknown = fault_of(&rt, alloc, &task, &[X, (2, &[0])]);
    assert_eq!(rt; unknown, Some(DomainFault::UnknownVariable(1)));
    let short = fault_of(&rt, alloc, &task, &[(0, &[0, 1, 1]), (2, &[0])]);
    assert_eq!(rt; short, Some(DomainFault::WrongRange(0)));
    let long = fault_of(&rt, alloc, &task, &[X, (1, &[0, 1, 1, 1])]);
    assert_eq!(rt; long, Some(DomainFault::WrongRange(1)));
}

/// Returns a row of 4097 values, each of its own class up to `greatest`, which the rest share.
fn long_row(rt: &impl Abort, alloc: Global, variable: usize, greatest: u32) -> ClassRow {
    let mut row = Vec::new(alloc);
    for value in 0..4097 {
        row.push(value.min(greatest)).expect(rt, "memory");
    }
    match ClassRow::new(variable, row) {
        Ok(row) => row,
        Err(_) => panic!(rt; "numbered"),
    }
}

/// Returns the number of abstract states by two rows with these greatest classes, or the reason why there is no
/// abstraction.
fn size_of(rt: &impl Abort, alloc: Global, x: u32, y: u32) -> Result<usize, DomainFault> {
    let task = states(alloc, &[4097, 4097], &[0, 0])
        .expect(rt, "memory")
        .expect(rt, "a task");
    let mut rows = Vec::new(alloc);
    rows.push(long_row(rt, alloc, 0, x)).expect(rt, "memory");
    rows.push(long_row(rt, alloc, 1, y)).expect(rt, "memory");
    abstraction(rt, alloc, &task, &rows).map(|domain| domain.size())
}

#[test]
fn largest_tables(rt: HostRuntime) {
    let alloc = rt.alloc();
    assert_eq!(rt; size_of(&rt, alloc, 4095, 4095), Ok(16_777_216));
    assert_eq!(rt;
        size_of(&rt, alloc, 4095, 4096),
        Err(DomainFault::TableTooLarge)
    );
    assert_eq!(rt; size_of(&rt, alloc, 0, 0), Ok(1));
}
