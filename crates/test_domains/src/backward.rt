ghost use Rattle.std.specs.Prelude.{◌≡◌, ℕ, ◌<◌, ◌^◌, slice_index, IsTrue};

use crate::domains::{X, Y, abstraction, rows, worked};
use abstraction::Abstraction;
use abstraction_domain::{ClassRow, DomainAbstraction};
use abstraction_groups::{
    BackwardAbstraction, BackwardTransitions, Groups, Listed, OperatorIndex, Transition,
};
use cert_value::Values;
use fdr::FdrTask;
use pdb::{distances, saturate};
use std::alloc::Global;
use std::process::Abort;

/// The shares of the three operators.
const SHARES: &[u32] = &[2, 3, 1];

/// The number that denotes an infinite distance.
const NONE: u64 = 18_446_744_073_709_551_615;

/// Returns whether each share is below 2^31.
#[tactic(auto, using(pdb::proofs::Lowering::small_everywhere))]
fn are_small(shares: &[u32]) -> bool
    ensures { IsTrue result → (o : ℕ) → slice_index shares.now o < 2 ^ 31 }
{
    for operator in 0..shares.len() {
        if shares[operator] >= 2_147_483_648 {
            return false;
        }
    }
    true
}

/// Returns whether the list has these transitions (class, source) and no others, in any order.
fn are_transitions(list: &[Transition], expected: &[(u32, u32)]) -> bool {
    list.len() == expected.len()
        && expected
            .iter()
            .all(|(class, source)| has_transition(list, *class, *source))
}

/// Returns whether the list has the transition.
fn has_transition(list: &[Transition], class: u32, source: u32) -> bool {
    list.iter().any(|transition| transition.class == class && transition.source == source)
}

/// Checks the transitions into each abstract state.
fn enters(
    rt: &impl Abort,
    alloc: Global,
    backward: &Listed<'_, DomainAbstraction<'_>>,
    expected: &[&[(u32, u32)]],
) {
    assert_eq!(rt; backward.size(), expected.len());
    let mut digits = Vec::new(alloc);
    let mut list = Vec::new(alloc);
    for state in 0..expected.len() {
        backward
            .entering(state, &mut digits, &mut list)
            .expect(rt, "memory");
        assert!(rt; are_transitions(&list, expected[state]), "transitions");
    }
}

/// Checks the values of a table.
fn are_distances(rt: &impl Abort, values: &Values, expected: &[u64]) {
    assert_eq!(rt; values.len(), expected.len());
    for state in 0..expected.len() {
        let value = values.get(state).get().unwrap_or(NONE);
        assert_eq!(rt; value, expected[state]);
    }
}

/// Checks the distances and the saturated shares under the shares of the three operators.
#[tactic(auto, using(pdb::proofs::Falls::distances_are_consistent))]
fn has_distances<A: BackwardAbstraction>(
    rt: &impl Abort,
    alloc: Global,
    task: &FdrTask,
    backward: &A,
    expected: &[u64],
    saturated: &[u32],
)
    requires { A.task backward.now ≡ task.now }
{
    assert!(rt; SHARES.len() == task.operator_count() && are_small(SHARES));
    let values = distances(alloc, backward, SHARES).expect(rt, "memory");
    let needed = saturate(alloc, backward, SHARES, &values).expect(rt, "memory");
    are_distances(rt, &values, expected);
    assert_eq!(rt; needed.as_slice(), saturated);
}

/// Checks the transitions, distances and saturated shares of the domain abstraction by these rows.
fn follows(
    rt: &impl Abort,
    alloc: Global,
    task: &FdrTask,
    rows: &[ClassRow],
    entering: &[&[(u32, u32)]],
    expected: &[u64],
    saturated: &[u32],
) {
    match abstraction(rt, alloc, task, rows) {
        Ok(domain) => {
            let index = OperatorIndex::new(alloc, task).expect(rt, "memory");
            let groups = Groups::new(alloc, &domain, &index).expect(rt, "memory");
            let backward = Listed::new(alloc, groups).expect(rt, "memory");
            enters(rt, alloc, &backward, entering);
            has_distances(rt, alloc, task, &backward, expected, saturated);
        }
        Err(_) => panic!(rt; "a domain abstraction"),
    }
}

/// Both variables: the first operator maps abstract state 0 to 1 and 3 to 4, the second 4 to 5, the third 2 and 5 to 2.
/// The goal is 5.
#[test]
fn two_variables(rt: HostRuntime) {
    let alloc = rt.alloc();
    let task = worked(&rt, alloc);
    let both = rows(&rt, alloc, &[X, Y]);
    let entering: [&[(u32, u32)]; 6] = [
        &[],
        &[(0, 0)],
        &[(2, 2), (2, 5)],
        &[],
        &[(0, 3)],
        &[(1, 4)],
    ];
    let expected = [NONE, NONE, NONE, 5, 3, 0];
    follows(&rt, alloc, &task, &both, &entering, &expected, &[2, 3, 0]);
}

/// y alone, which the first operator does not affect, and to which the second makes no change: the third is the only
/// class.
#[test]
fn one_variable(rt: HostRuntime) {
    let alloc = rt.alloc();
    let task = worked(&rt, alloc);
    let y = rows(&rt, alloc, &[Y]);
    let entering: [&[(u32, u32)]; 2] = [&[(0, 0), (0, 1)], &[]];
    follows(&rt, alloc, &task, &y, &entering, &[NONE, 0], &[0, 0, 0]);
}
