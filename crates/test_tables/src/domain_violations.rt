//! Tables of domain abstractions: which violation is found, and the heuristic, worked out by hand.

use crate::table_violations::*;
use checker_clauses::Violation;
use fdr::FdrTask;
use std::alloc::Global;
use std::process::Abort;
use std::test::Fail;
use std::thread::Threads;
use testing_tasks::{fact, operator, task, walk};

/// The rows, the values, and the violation of the table with these and shares of 1, if there is one.
type Row = (
    &'static [(usize, &'static [u32])],
    &'static [u64],
    Option<Violation>,
);

/// A table that does not have the required form.
const FORM: Option<Violation> = Some(Violation::TableForm(0, 1));

/// Checks the violation of the table of a row, after a table that does not fail.
fn has_violation<R: Threads + Sync + Abort>(
    rt: &R,
    alloc: Global,
    task: &FdrTask,
    behind: Given<'static>,
    row: &Row,
) {
    let (rows, values, violation) = row;
    let given = Given {
        mapping: Kept::Domains(rows),
        shares: &[(0, 1), (1, 1), (2, 1)],
        values,
    };
    let found = table_violation(rt, alloc, task, &[&[behind, given], &[given]]);
    assert_eq!(rt; found, *violation);
}

/// Rows on the road of three towns; the first operator maps 0 to 1 and the second 1 to 2, the goal.
const CHAIN_ROWS: &[Row] = &[
    // each value is a class, two values share a class, all share one, and no row
    (&[(0, &[0, 1, 2])], &[2, 1, 0], None),
    (&[(0, &[0, 0, 1])], &[1, 0], None),
    (&[(0, &[0, 1, 0])], &[0, 1], None),
    (&[(0, &[0, 1, 1])], &[1, 0], None),
    (&[(0, &[0, 0, 0])], &[0], None),
    (&[], &[0], None),
    // a class too few or too many, no such variable, a variable twice, and a value for each town
    (&[(0, &[0, 0])], &[0], FORM),
    (&[(0, &[0, 0, 1, 1])], &[1, 0], FORM),
    (&[(1, &[0, 0, 1])], &[1, 0], FORM),
    (&[(0, &[0, 0, 1]), (0, &[0, 0, 1])], &[1, 0, 1, 0], FORM),
    (&[(0, &[0, 0, 1])], &[2, 1, 0], FORM),
    // 2 is in a class with 1, and with 0
    (
        &[(0, &[0, 1, 1])],
        &[2, 1],
        Some(Violation::GoalValue(0, 1, 1)),
    ),
    (
        &[(0, &[0, 1, 0])],
        &[2, 1],
        Some(Violation::GoalValue(0, 1, 0)),
    ),
    (
        &[(0, &[0, 1, 1])],
        &[2, 0],
        Some(Violation::Fall(0, 1, 0, 0)),
    ),
    (
        &[(0, &[0, 1, 0])],
        &[0, 2],
        Some(Violation::Fall(0, 1, 1, 1)),
    ),
    // the second operator is applicable in the class of 0 and 1
    (
        &[(0, &[0, 0, 1])],
        &[2, 0],
        Some(Violation::Fall(0, 1, 0, 1)),
    ),
];

#[test]
fn tables_of_a_road(rt: HostRuntime) {
    let chain = chain(&rt, rt.alloc());
    for row in CHAIN_ROWS {
        has_violation(&rt, rt.alloc(), &chain, DISTANCES, row);
    }
}

/// The values of a road of four towns that is interrupted between 1 and 2.
const BROKEN: Given<'static> = Given {
    mapping: Kept::Pattern(&[0]),
    shares: &[(0, 1), (1, 1)],
    values: &[INF, INF, 1, 0],
};

/// Rows on this road. No town is both the end of the first operator and the start of the second, but the class of 1 and
/// 2 is.
const BROKEN_ROWS: &[Row] = &[
    (&[(0, &[0, 1, 1, 2])], &[2, 1, 0], None),
    (
        &[(0, &[0, 1, 1, 2])],
        &[INF, 1, 0],
        Some(Violation::Fall(0, 1, 0, 0)),
    ),
    (
        &[(0, &[0, 1, 1, 2])],
        &[INF, INF, 0],
        Some(Violation::Fall(0, 1, 1, 1)),
    ),
    (&[(0, &[0, 0, 1, 2])], &[INF, 1, 0], None),
];

#[test]
fn ways_between_classes(rt: HostRuntime) {
    let broken = walk(rt.alloc(), 4, 3, &[(0, 1, 1), (2, 3, 1)])
        .expect(&rt, "memory")
        .expect(&rt, "a task");
    for row in BROKEN_ROWS {
        has_violation(&rt, rt.alloc(), &broken, BROKEN, row);
    }
}

/// Returns a lock with a dial, initially 0, of the values 0, 1 and 2, and a door, initially 0, whose goal is 1.
/// Operators: the dial from 0 to 1; the door from 0 to 1 if the dial is 2; the dial from 1 to 2.
fn lock(rt: &impl Abort, alloc: Global) -> FdrTask {
    let turn = operator(alloc, &[fact(0, 0)], &[fact(0, 1)]).expect(rt, "memory");
    let open = operator(alloc, &[fact(0, 2), fact(1, 0)], &[fact(1, 1)]).expect(rt, "memory");
    let turn_again = operator(alloc, &[fact(0, 1)], &[fact(0, 2)]).expect(rt, "memory");
    let operators = vec![in alloc; turn, open, turn_again].expect(rt, "memory");
    task(alloc, &[3, 2], &[0, 0], &[fact(1, 1)], operators)
        .expect(rt, "memory")
        .expect(rt, "a task")
}

/// The values of the door alone.
const DOOR: Given<'static> = Given {
    mapping: Kept::Pattern(&[1]),
    shares: &[(1, 1)],
    values: &[1, 0],
};

/// Rows on the lock.
const LOCK_ROWS: &[Row] = &[
    (&[(1, &[0, 1])], &[1, 0], None),
    (&[(0, &[0, 1, 2]), (1, &[0, 0])], &[0, 0, 0], None),
    (&[(0, &[0, 1, 1]), (1, &[0, 1])], &[2, 1, 0, 0], None),
    (&[(0, &[0, 1, 0]), (1, &[0, 1])], &[1, 2, 0, 0], None),
    // as many classes as the other variable has values, and the rows in the other order
    (&[(0, &[0, 1]), (1, &[0, 1])], &[2, 1, 0, 0], FORM),
    (&[(0, &[0, 1, 1]), (1, &[0, 1, 1])], &[2, 1, 0, 0], FORM),
    (&[(1, &[0, 1]), (0, &[0, 1, 1])], &[2, 0, 1, 0], FORM),
    // each abstract state is a goal, and the last two
    (
        &[(0, &[0, 1, 2]), (1, &[0, 0])],
        &[0, 0, 1],
        Some(Violation::GoalValue(0, 1, 2)),
    ),
    (
        &[(0, &[0, 1, 1]), (1, &[0, 1])],
        &[2, 1, 0, 1],
        Some(Violation::GoalValue(0, 1, 3)),
    ),
    // 1 and 2 of the dial share a class, and 0 and 2
    (
        &[(0, &[0, 1, 1]), (1, &[0, 1])],
        &[3, 1, 0, 0],
        Some(Violation::Fall(0, 1, 0, 0)),
    ),
    (
        &[(0, &[0, 1, 1]), (1, &[0, 1])],
        &[2, 2, 0, 0],
        Some(Violation::Fall(0, 1, 1, 1)),
    ),
    (
        &[(0, &[0, 1, 0]), (1, &[0, 1])],
        &[2, 2, 0, 0],
        Some(Violation::Fall(0, 1, 0, 1)),
    ),
    (
        &[(0, &[0, 1, 0]), (1, &[0, 1])],
        &[1, 3, 0, 0],
        Some(Violation::Fall(0, 1, 1, 2)),
    ),
];

#[test]
fn tables_of_a_lock(rt: HostRuntime) {
    let lock = lock(&rt, rt.alloc());
    for row in LOCK_ROWS {
        has_violation(&rt, rt.alloc(), &lock, DOOR, row);
    }
}

/// The towns 0 and 1 in one class.
const NEAR: Given<'static> = Given {
    mapping: Kept::Domains(&[(0, &[0, 0, 1])]),
    shares: &[(1, 1)],
    values: &[1, 0],
};

/// A town, a bound, and whether the table's heuristic reaches the bound from the town.
const REACHED_ROWS: &[(u32, u64, bool)] = &[
    (0, 1, true),
    (0, 2, false),
    (1, 1, true),
    (1, 2, false),
    (2, 0, true),
    (2, 1, false),
];

#[test]
fn values_of_classes(rt: HostRuntime) -> Result<(), Fail> {
    let chain = chain(&rt, rt.alloc());
    let certificate = certificate(&rt, rt.alloc(), &[&[NEAR]]);
    for (town, bound, reached) in REACHED_ROWS {
        let state = [*town];
        let reaches = certificate_reaches(
            &rt,
            rt.alloc(),
            &chain,
            &certificate,
            &state,
            0,
            *bound,
        )?;
        assert_eq!(rt; reaches, *reached);
    }
    Ok(())
}
