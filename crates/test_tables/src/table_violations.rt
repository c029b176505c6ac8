ghost use Rattle.std.specs.Prelude.{◌≡◌, ◌<◌, IfOk};

use abstraction_domain::ClassRow;
use abstraction_mapping::Mapping;
use cert_value::{
    AbstractionTable, Certificate, CertificateKind, ClosedList, Share, Values, Version,
};
use checker_clauses::Violation;
use checker_tables::{Heuristic, first_share_violation, first_table_violation};
use cost::Dist;
use fdr::FdrTask;
use std::alloc::Global;
use std::process::Abort;
use std::test::Fail;
use std::thread::Threads;
use testing_tasks::{fact, is_state_of, task, walk};

pub(crate) const INF: u64 = u64::MAX;

const HUGE: u64 = 9_223_372_036_854_775_808;

/// The mapping of a table: a pattern, or variables with the classes of their values.
#[derive(Clone, Copy)]
pub(crate) enum Kept<'a> {
    Pattern(&'a [u32]),
    Domains(&'a [(usize, &'a [u32])]),
}

/// A table as a text would state it: `INF` is infinite.
#[derive(Clone, Copy)]
pub(crate) struct Given<'a> {
    pub(crate) mapping: Kept<'a>,
    pub(crate) shares: &'a [(u32, u32)],
    pub(crate) values: &'a [u64],
}

fn dist(value: u64) -> Dist {
    Dist::fin(value).unwrap_or(Dist::inf())
}

fn rows(rt: &impl Abort, alloc: Global, given: &[(usize, &[u32])]) -> Vec<ClassRow> {
    let mut rows = Vec::new(alloc);
    for (variable, classes) in given {
        let classes = Vec::from_slice(alloc, classes).expect(rt, "memory");
        let row = ClassRow::new(*variable, classes).expect(rt, "classes in their order");
        rows.push(row).expect(rt, "memory");
    }
    rows
}

fn mapping(rt: &impl Abort, alloc: Global, given: Kept<'_>) -> Mapping {
    match given {
        Kept::Pattern(pattern) => {
            Mapping::Pattern(Vec::from_slice(alloc, pattern).expect(rt, "memory"))
        }
        Kept::Domains(given) => Mapping::Domains(rows(rt, alloc, given)),
    }
}

fn table(rt: &impl Abort, alloc: Global, given: &Given<'_>) -> AbstractionTable {
    let mut shares = Vec::new(alloc);
    for &(operator, amount) in given.shares {
        shares.push(Share { operator, amount }).expect(rt, "memory");
    }
    let mut values = Values::new(alloc);
    for value in given.values {
        values.push(dist(*value)).expect(rt, "memory");
    }
    AbstractionTable {
        mapping: mapping(rt, alloc, given.mapping),
        shares,
        values,
    }
}

fn column(rt: &impl Abort, alloc: Global, tables: &[Given<'_>]) -> Vec<AbstractionTable> {
    let mut column = Vec::new(alloc);
    for given in tables {
        column.push(table(rt, alloc, given)).expect(rt, "memory");
    }
    column
}

pub(crate) fn certificate(rt: &impl Abort, alloc: Global, columns: &[&[Given<'_>]]) -> Certificate {
    let mut all = Vec::new(alloc);
    for tables in columns {
        all.push(column(rt, alloc, tables)).expect(rt, "memory");
    }
    Certificate::new(
        Version::Two,
        CertificateKind::Sas,
        Dist::inf(),
        all,
        ClosedList::new(alloc),
    )
}

/// Returns the violation that the test of the third clause finds.
fn share_violation(
    rt: &impl Abort,
    alloc: Global,
    task: &FdrTask,
    columns: &[&[Given<'_>]],
) -> Option<Violation> {
    let certificate = certificate(rt, alloc, columns);
    first_share_violation(alloc, task, &certificate).expect(rt, "memory")
}

/// Returns the violation that the test of the fourth clause finds.
pub(crate) fn table_violation<R: Threads + Sync + Abort>(
    rt: &R,
    alloc: Global,
    task: &FdrTask,
    columns: &[&[Given<'_>]],
) -> Option<Violation> {
    let certificate = certificate(rt, alloc, columns);
    first_table_violation(rt, alloc, task, &certificate).expect(rt, "memory")
}

/// Checks the violations that the tests of the two clauses find.
fn has_violations<R: Threads + Sync + Abort>(
    rt: &R,
    alloc: Global,
    task: &FdrTask,
    columns: &[&[Given<'_>]],
    shares: Option<Violation>,
    tables: Option<Violation>,
) {
    assert_eq!(rt; share_violation(rt, alloc, task, columns), shares);
    assert_eq!(rt; table_violation(rt, alloc, task, columns), tables);
}

/// Returns a task of one variable with the values 0, 1 and 2, initially 0; the goal is 2. Operators: 0 to 1 and 1 to 2,
/// at cost 1 each.
pub(crate) fn chain(rt: &impl Abort, alloc: Global) -> FdrTask {
    walk(alloc, 3, 2, &[(0, 1, 1), (1, 2, 1)])
        .expect(rt, "memory")
        .expect(rt, "a task")
}

/// The distances of the chain, and each operator's whole cost.
pub(crate) const DISTANCES: Given<'static> = Given {
    mapping: Kept::Pattern(&[0]),
    shares: &[(0, 1), (1, 1)],
    values: &[2, 1, 0],
};

const IDLE: Given<'static> = Given {
    mapping: Kept::Pattern(&[]),
    shares: &[],
    values: &[0],
};

#[test]
fn accepts_distances(rt: HostRuntime) {
    let chain = chain(&rt, rt.alloc());
    has_violations(&rt, rt.alloc(), &chain, &[], None, None);
    has_violations(&rt, rt.alloc(), &chain, &[&[]], None, None);
    let columns: &[&[Given<'_>]] = &[&[DISTANCES, IDLE], &[DISTANCES]];
    has_violations(&rt, rt.alloc(), &chain, columns, None, None);
}

/// Shares of the second column, and the operator at fault.
const SHARE_ROWS: &[(&[(u32, u32)], Option<usize>)] = &[
    (&[(0, 1), (1, 2)], Some(1)),
    (&[(0, 1), (1, 1), (7, 1)], Some(7)),
    (&[(4_294_967_295, 1), (9, 1), (7, 1)], Some(7)),
    // listed with a share of 0, alone and before one that counts for nothing
    (&[(0, 1), (1, 1), (7, 0)], Some(7)),
    (&[(9, 1), (7, 0), (7, 5)], Some(7)),
    (&[(2, 0), (2, 5)], Some(2)),
    (&[(0, 0), (1, 0)], None),
    (&[(0, 1), (1, 1), (0, 4)], None),
    (&[(1, 4_294_967_295), (0, 2)], Some(0)),
];

/// Checks which operator is at fault in the second column with these shares.
fn spends(
    rt: &impl Abort,
    alloc: Global,
    chain: &FdrTask,
    shares: &[(u32, u32)],
    at_fault: Option<usize>,
) {
    let spending = Given {
        mapping: Kept::Pattern(&[0]),
        shares,
        values: &[2, 1, 0],
    };
    let violation = share_violation(rt, alloc, chain, &[&[DISTANCES], &[spending]]);
    assert_eq!(rt; violation, at_fault.map(|o| Violation::Shares(1, o)));
}

#[test]
fn spent_costs(rt: HostRuntime) {
    let chain = chain(&rt, rt.alloc());
    for (shares, at_fault) in SHARE_ROWS {
        spends(&rt, rt.alloc(), &chain, shares, *at_fault);
    }
    let twice: &[&[Given<'_>]] = &[&[DISTANCES, DISTANCES]];
    has_violations(
        &rt,
        rt.alloc(),
        &chain,
        twice,
        Some(Violation::Shares(0, 0)),
        None,
    );
}

/// A pattern and values, and the violation of the table with these and the whole costs as shares.
type TableRow = (&'static [u32], &'static [u64], Violation);

const TABLE_ROWS: &[TableRow] = &[
    (&[1], &[0, 0], Violation::TableForm(0, 1)),
    (
        &[0, 0],
        &[2, 1, 0, 2, 1, 0, 2, 1, 0],
        Violation::TableForm(0, 1),
    ),
    (&[0], &[2, 1, 0, 0], Violation::TableForm(0, 1)),
    (&[0], &[2, 1], Violation::TableForm(0, 1)),
    (&[0], &[2, 1, INF], Violation::GoalValue(0, 1, 2)),
    (&[0], &[9, 9, 1], Violation::GoalValue(0, 1, 2)),
    (&[0], &[3, 1, 0], Violation::Fall(0, 1, 0, 0)),
    (&[0], &[INF, 1, 0], Violation::Fall(0, 1, 0, 0)),
    (&[0], &[HUGE, INF, 0], Violation::Fall(0, 1, 1, 1)),
];

/// Checks that the table of a row fails with this violation, after one that does not and before others.
fn fails<R: Threads + Sync + Abort>(rt: &R, alloc: Global, chain: &FdrTask, row: &TableRow) {
    let (pattern, values, violation) = row;
    let failing = Given {
        mapping: Kept::Pattern(pattern),
        shares: &[(0, 1), (1, 1)],
        values,
    };
    let at_fault = table_violation(rt, alloc, chain, &[&[DISTANCES, failing], &[failing]]);
    assert_eq!(rt; at_fault, Some(*violation));
}

#[test]
fn faults_of_tables(rt: HostRuntime) {
    let chain = chain(&rt, rt.alloc());
    for row in TABLE_ROWS {
        fails(&rt, rt.alloc(), &chain, row);
    }
    let unpaid = Given {
        shares: &[(0, 1), (1, 0), (1, 1)],
        ..DISTANCES
    };
    let at_fault = table_violation(&rt, rt.alloc(), &chain, &[&[unpaid]]);
    assert_eq!(rt; at_fault, Some(Violation::Fall(0, 0, 1, 1)));
}

/// Returns the heuristic of a certificate whose tables are tested.
fn heuristic<'a, R: Abort + Threads + Sync>(
    rt: &R,
    alloc: Global,
    task: &'a FdrTask,
    certificate: &'a Certificate,
) -> Result<Heuristic<'a>, Fail>
    ensures { IfOk result (λ h. h.task ≡ task.now) }
{
    match first_table_violation(rt, alloc, task, certificate)? {
        None => Ok(Heuristic::new(alloc, task, certificate)?),
        Some(_) => panic!(rt; "a table that fails"),
    }
}

/// Returns a task of two variables with the values 0 and 1, initially 0 both; the goal is 1 for both, and there is no
/// operator.
fn stuck(rt: &impl Abort, alloc: Global) -> FdrTask {
    let goal = [fact(0, 1), fact(1, 1)];
    task(alloc, &[2, 2], &[0, 0], &goal, Vec::new(alloc))
        .expect(rt, "memory")
        .expect(rt, "a task")
}

/// Returns whether the heuristic of the certificate reaches the bound from the state, reached at the cost.
pub(crate) fn certificate_reaches<R: Abort + Threads + Sync>(
    rt: &R,
    alloc: Global,
    task: &FdrTask,
    certificate: &Certificate,
    state: &[u32],
    cost: u64,
    bound: u64,
) -> Result<bool, Fail> {
    assert!(rt; is_state_of(task, state), "a state");
    let heuristic = heuristic(rt, alloc, task, certificate)?;
    Ok(heuristic.reaches(state, cost, dist(bound)))
}

/// Returns whether the columns' heuristic reaches the bound from the state, reached at the cost.
fn reaches<R: Abort + Threads + Sync>(
    rt: &R,
    alloc: Global,
    columns: &[&[Given<'_>]],
    state: &[u32],
    cost: u64,
    bound: u64,
) -> Result<bool, Fail> {
    let stuck = stuck(rt, alloc);
    let certificate = certificate(rt, alloc, columns);
    certificate_reaches(rt, alloc, &stuck, &certificate, state, cost, bound)
}

const FIRST: Given<'static> = Given {
    mapping: Kept::Pattern(&[0]),
    shares: &[],
    values: &[3, 0],
};

const BOTH: Given<'static> = Given {
    mapping: Kept::Pattern(&[0, 1]),
    shares: &[],
    values: &[6, 5, 4, 0],
};

const FAR: Given<'static> = Given {
    mapping: Kept::Pattern(&[1]),
    shares: &[],
    values: &[8, 0],
};

/// The sums of the columns, from the states 0 0, 1 0, 0 1 and 1 1: 9 and 8; 5 and 8; 7 and 0; 0 and 0.
const SUMS: &[&[Given<'static>]] = &[&[FIRST, BOTH], &[FAR]];

/// A state and its heuristic value by the sums.
const SUM_ROWS: &[([u32; 2], u64)] = &[([0, 0], 9), ([1, 0], 8), ([0, 1], 7), ([1, 1], 0)];

/// Checks which bounds the sums reach from a state with this heuristic value.
fn reaches_by_sums<R: Abort + Threads + Sync>(
    rt: &R,
    alloc: Global,
    state: &[u32],
    h: u64,
) -> Result<(), Fail>
    requires { h < 10 }
{
    assert!(rt; reaches(rt, alloc, SUMS, state, 0, h)?);
    assert!(rt; !reaches(rt, alloc, SUMS, state, 0, h + 1)?);
    assert!(rt; reaches(rt, alloc, SUMS, state, 5, h + 5)?);
    assert!(rt; !reaches(rt, alloc, SUMS, state, 5, h + 6)?);
    assert!(rt; reaches(rt, alloc, SUMS, state, INF, HUGE)?);
    assert!(rt; !reaches(rt, alloc, SUMS, state, INF, INF)?);
    Ok(())
}

#[test]
fn sums_and_the_greatest(rt: HostRuntime) -> Result<(), Fail> {
    for (state, h) in SUM_ROWS {
        assert!(rt; *h < 10);
        reaches_by_sums(&rt, rt.alloc(), state, *h)?;
    }
    Ok(())
}

const HUGE_TABLE: Given<'static> = Given {
    mapping: Kept::Pattern(&[0]),
    shares: &[],
    values: &[HUGE, 0],
};

const ENDLESS: Given<'static> = Given {
    mapping: Kept::Pattern(&[1]),
    shares: &[],
    values: &[INF, 0],
};

const ONE: &[&[Given<'static>]] = &[&[HUGE_TABLE, HUGE_TABLE]];

const TWO: &[&[Given<'static>]] = &[&[HUGE_TABLE], &[HUGE_TABLE, ENDLESS, HUGE_TABLE]];

#[test]
fn large_sums(rt: HostRuntime) -> Result<(), Fail> {
    assert!(rt; reaches(&rt, rt.alloc(), ONE, &[0, 0], 0, HUGE)?);
    assert!(rt; reaches(&rt, rt.alloc(), TWO, &[0, 0], 0, HUGE)?);
    assert!(rt; !reaches(&rt, rt.alloc(), ONE, &[0, 0], 0, INF)?);
    assert!(rt; reaches(&rt, rt.alloc(), TWO, &[0, 0], 0, INF)?);
    assert!(rt;
        reaches(&rt, rt.alloc(), &[], &[0, 0], 0, 0)?,
        "0 without a column"
    );
    assert!(rt;
        !reaches(&rt, rt.alloc(), &[], &[0, 0], 0, 1)?,
        "no more than 0"
    );
    Ok(())
}
