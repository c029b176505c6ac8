use crate::closed_violations::found;
use crate::table_violations::{Given, Kept, table_violation};
use cert_value::ClosedList;
use checker_clauses::Violation;
use cost::Dist;
use fdr::FdrTask;
use std::alloc::Global;
use std::process::Abort;
use std::thread::Threads;
use testing_tasks::{fact, operator, task};

/// Returns a task of two variables with the values 0 and 1, initially 0; the goal is 1 of the first. Operators 0 and 3
/// have their conditions as effects, so they change no state; so does operator 1 but for its second effect. Operator 2
/// reaches the goal.
fn switches(rt: &impl Abort, alloc: Global) -> FdrTask {
    let mut operators = Vec::new(alloc);
    let off = [fact(0, 0)];
    for effect in [
        &[fact(0, 0)],
        &[fact(0, 0), fact(1, 1)] as &[_],
        &[fact(0, 1)],
    ] {
        let made = operator(alloc, &off, effect).expect(rt, "memory");
        operators.push(made).expect(rt, "memory");
    }
    let on = [fact(1, 1)];
    let idle = operator(alloc, &on, &on).expect(rt, "memory");
    operators.push(idle).expect(rt, "memory");
    task(alloc, &[2, 2], &[0, 0], &[fact(0, 1)], operators)
        .expect(rt, "memory")
        .expect(rt, "a task")
}

/// Shares and values of a table over both variables, and its first violation.
type TableRow = (&'static [(u32, u32)], &'static [u64], Option<Violation>);

/// Abstract state 2 has the values 0 and 1: operator 1 reaches it from abstract state 0.
const TABLE_ROWS: &[TableRow] = &[
    (&[(2, 1)], &[1, 0, 1, 0], None),
    (&[(1, 1), (2, 1)], &[1, 0, 0, 0], None),
    (&[(2, 1)], &[1, 0, 0, 0], Some(Violation::Fall(0, 0, 0, 1))),
    (
        &[(0, 1), (2, 1)],
        &[1, 0, 0, 0],
        Some(Violation::Fall(0, 0, 0, 1)),
    ),
    (&[], &[1, 0, 1, 0], Some(Violation::Fall(0, 0, 0, 2))),
    (&[], &[0, 0, 1, 0], Some(Violation::Fall(0, 0, 2, 2))),
];

/// Checks the first violation of a table.
fn has_table_violation<R: Threads + Sync + Abort>(
    rt: &R,
    alloc: Global,
    task: &FdrTask,
    row: &TableRow,
) {
    let (shares, values, want) = row;
    let table = Given {
        mapping: Kept::Pattern(&[0, 1]),
        shares,
        values,
    };
    assert_eq!(rt; table_violation(rt, alloc, task, &[&[table]]), *want);
}

#[test]
fn tables_of_switches(rt: HostRuntime) {
    let task = switches(&rt, rt.alloc());
    for row in TABLE_ROWS {
        has_table_violation(&rt, rt.alloc(), &task, row);
    }
}

/// The bound, listed states with their costs, and the first violation.
type ClosedRow = (u64, &'static [(u64, [u32; 2])], Option<Violation>);

const CLOSED_ROWS: &[ClosedRow] = &[
    (1, &[(0, [0, 0])], None),
    (2, &[(0, [0, 0])], Some(Violation::Successor(0, 1))),
    // the second state is listed above the cost at which it is reached
    (
        2,
        &[(0, [0, 0]), (2, [0, 1])],
        Some(Violation::Successor(0, 1)),
    ),
    (
        2,
        &[(0, [0, 0]), (1, [0, 1])],
        Some(Violation::Successor(0, 2)),
    ),
];

/// Checks the first violation of a closed list.
fn has_closed_violation<R: Threads + Sync + Abort>(
    rt: &R,
    alloc: Global,
    task: &FdrTask,
    row: &ClosedRow,
) {
    let (bound, states, want) = row;
    let mut closed = ClosedList::new(alloc);
    for (cost, state) in *states {
        closed.push(*cost, state).expect(rt, "memory");
    }
    let bound = Dist::fin(*bound).unwrap_or(Dist::inf());
    assert_eq!(rt; found(rt, alloc, task, bound, closed), *want);
}

#[test]
fn closed_states_of_switches(rt: HostRuntime) {
    let task = switches(&rt, rt.alloc());
    for row in CLOSED_ROWS {
        has_closed_violation(&rt, rt.alloc(), &task, row);
    }
}
