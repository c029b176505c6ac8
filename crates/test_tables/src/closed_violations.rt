ghost use Rattle.checker_clauses.specs.Violations.{IsMet};

use cert_value::{Certificate, CertificateKind, ClosedList, Version};
use checker_clauses::Violation;
use checker_states::{Coverage, first_closed_violation, first_goal_violation};
use checker_tables::first_table_violation;
use cost::Dist;
use fdr::FdrTask;
use std::alloc::{AllocError, Global};
use std::process::Abort;
use std::thread::Threads;
use testing_tasks::walk;

const HUGE: u64 = 18_446_744_073_709_551_615;

/// Returns a task of one variable with the values 0, 1 and 2, initially 0; the goal is 2. Operators: 0 to 1 and 1 to 2,
/// at cost 1 each.
fn road(rt: &impl Abort, alloc: Global) -> FdrTask {
    walk(alloc, 3, 2, &[(0, 1, 1), (1, 2, 1)])
        .expect(rt, "memory")
        .expect(rt, "a task")
}

/// Returns a list of states of one value each, with their costs.
fn listed(rt: &impl Abort, alloc: Global, states: &[(u64, u32)]) -> ClosedList {
    let mut closed = ClosedList::new(alloc);
    for &(cost, value) in states {
        closed.push(cost, &[value]).expect(rt, "memory");
    }
    closed
}

/// Returns the first violation of the clauses 6 to 8.
fn uncovered<R: Threads + Sync>(
    rt: &R,
    alloc: Global,
    task: &FdrTask,
    certificate: &Certificate,
) -> Result<Option<Violation>, AllocError>
    requires tables { IsMet task.now certificate.now 4 }
    requires closed { IsMet task.now certificate.now 5 }
{
    let coverage = Coverage::new(rt, alloc, task, certificate)?;
    if let Some(violation) = coverage.start_violation() {
        return Ok(Some(violation));
    }
    if let Some(violation) = first_goal_violation(rt, alloc, task, certificate)? {
        return Ok(Some(violation));
    }
    coverage.first_successor_violation(rt, alloc)
}

/// Returns the first violation of the clauses 4 to 8.
fn first_violation<R: Threads + Sync>(
    rt: &R,
    alloc: Global,
    task: &FdrTask,
    certificate: &Certificate,
) -> Result<Option<Violation>, AllocError> {
    if let Some(violation) = first_table_violation(rt, alloc, task, certificate)? {
        return Ok(Some(violation));
    }
    if let Some(violation) = first_closed_violation(rt, alloc, task, certificate)? {
        return Ok(Some(violation));
    }
    uncovered(rt, alloc, task, certificate)
}

/// Returns the first violation of the clauses 4 to 8 of a certificate without tables.
pub(crate) fn found<R: Threads + Sync + Abort>(
    rt: &R,
    alloc: Global,
    task: &FdrTask,
    bound: Dist,
    closed: ClosedList,
) -> Option<Violation> {
    let certificate = Certificate::new(
        Version::One,
        CertificateKind::Sas,
        bound,
        Vec::new(alloc),
        closed,
    );
    first_violation(rt, alloc, task, &certificate).expect(rt, "memory")
}

/// The bound, listed states, and the first violation.
type Row = (Option<u64>, &'static [(u64, u32)], Option<Violation>);

const TWO: &[(u64, u32)] = &[(0, 0), (1, 1)];

const THREE: &[(u64, u32)] = &[(0, 0), (1, 1), (2, 2)];

const ROWS: &[Row] = &[
    (Some(2), TWO, None),
    (Some(3), TWO, Some(Violation::Successor(1, 1))),
    (None, TWO, Some(Violation::Successor(1, 1))),
    (Some(2), THREE, None),
    (Some(3), THREE, Some(Violation::ClosedGoal(2))),
    (None, THREE, Some(Violation::ClosedGoal(2))),
    (Some(2), &[(1, 1), (0, 0)], Some(Violation::ClosedState(1))),
    (Some(2), &[(0, 3)], Some(Violation::ClosedState(0))),
    (Some(2), &[(0, 1), (0, 1)], Some(Violation::ClosedState(1))),
    (Some(2), &[], Some(Violation::Start)),
    (Some(0), &[], None),
    (Some(2), &[(1, 0)], Some(Violation::Start)),
    // the second state is listed above the cost at which it is reached
    (Some(2), &[(0, 0), (2, 1)], Some(Violation::Successor(0, 0))),
    // a distance of 2^64 - 1, plus 1
    (Some(1), &[(0, 0), (HUGE, 1)], None),
];

/// Checks the first violation of a row.
fn has_violation<R: Threads + Sync + Abort>(rt: &R, alloc: Global, task: &FdrTask, row: &Row) {
    let (bound, states, want) = row;
    let bound = bound.and_then(Dist::fin).unwrap_or(Dist::inf());
    let closed = listed(rt, alloc, states);
    assert_eq!(rt; found(rt, alloc, task, bound, closed), *want);
}

#[test]
fn finds_the_first_violation(rt: HostRuntime) {
    let task = road(&rt, rt.alloc());
    for row in ROWS {
        has_violation(&rt, rt.alloc(), &task, row);
    }
}

#[test]
fn refuses_states_of_two_values(rt: HostRuntime) {
    let task = road(&rt, rt.alloc());
    let mut closed = ClosedList::new(rt.alloc());
    closed.push(0, &[0, 0]).expect(&rt, "memory");
    let got = found(&rt, rt.alloc(), &task, Dist::ZERO, closed);
    assert_eq!(rt; got, Some(Violation::ClosedState(0)));
}
