//! Candidates for mutex groups that are proposed.

use crate::texts::{GRIPPER, TWO_BALLS};
use mutex::{Candidate, propose};
use pddl::read_task;
use std::alloc::Global;
use std::process::Abort;

/// A part: its predicate, and the position of the argument that is bound.
type Row = (usize, Option<usize>);

// the gripper's predicates that occur in effects, in the order in which they are declared after `room` and `ball`
const HERE: usize = 2;

const IN: usize = 3;

const FREE: usize = 4;

const HELD: usize = 5;

/// The candidates with a bound argument. `here` and `held` have one argument to bind, `in` has two, and `free` has
/// none; no candidate has the two parts of `in`.
const BOUND: &[&[Row]] = &[
    &[(HERE, Some(0))],
    &[(IN, Some(0))],
    &[(IN, Some(1))],
    &[(HELD, Some(0))],
    &[(HERE, Some(0)), (IN, Some(0))],
    &[(HERE, Some(0)), (IN, Some(1))],
    &[(HERE, Some(0)), (HELD, Some(0))],
    &[(IN, Some(0)), (HELD, Some(0))],
    &[(IN, Some(1)), (HELD, Some(0))],
    &[(HERE, Some(0)), (IN, Some(0)), (HELD, Some(0))],
    &[(HERE, Some(0)), (IN, Some(1)), (HELD, Some(0))],
];

/// The candidates without a bound argument: of `here`, `free` and `held`, since `in` has two arguments.
const UNBOUND: &[&[Row]] = &[
    &[(HERE, None)],
    &[(FREE, None)],
    &[(HELD, None)],
    &[(HERE, None), (FREE, None)],
    &[(HERE, None), (HELD, None)],
    &[(FREE, None), (HELD, None)],
    &[(HERE, None), (FREE, None), (HELD, None)],
];

/// Checks the parts of a candidate.
fn has_parts(rt: &impl Abort, candidate: &Candidate, want: &[Row]) {
    let parts = candidate.parts();
    assert_eq!(rt; parts.len(), want.len());
    for (part, row) in parts.iter().zip(want) {
        assert_eq!(rt; part.predicate, row.0);
        assert_eq!(rt; part.position, row.1);
    }
}

/// Checks the candidates that are proposed for the task that the texts spell.
fn proposes(rt: &impl Abort, alloc: Global, domain: &str, problem: &str, want: &[&[Row]]) {
    let task = read_task(alloc, domain.as_bytes(), problem.as_bytes()).expect(rt, "a task");
    let candidates = propose(alloc, &task).expect(rt, "memory");
    assert_eq!(rt; candidates.len(), want.len());
    for (candidate, parts) in candidates.iter().zip(want) {
        has_parts(rt, candidate, parts);
    }
}

#[test]
fn a_gripper_has_eighteen_candidates(rt: HostRuntime) {
    let alloc = rt.alloc();
    let mut want = Vec::from_slice(alloc, BOUND).expect(&rt, "memory");
    want.extend_from_slice(UNBOUND).expect(&rt, "memory");
    proposes(&rt, alloc, GRIPPER, TWO_BALLS, &want);
}
