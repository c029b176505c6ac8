//! Tables over listed transitions, compared with expected values, and with those over a projection's own transitions.

ghost use Rattle.std.specs.Prelude.{◌≡◌, ℕ, ◌<◌, ◌^◌, slice_index, IsTrue};

use abstraction::{Abstraction, Projection};
use abstraction_groups::{
    BackwardAbstraction, BackwardTransitions, Groups, OperatorIndex, Transition,
};
use abstraction_listed::Listed;
use cert_value::Values;
use fdr::FdrTask;
use pdb::{distances, saturate};
use std::alloc::Global;
use std::process::Abort;
use testing_tasks::is_increasing;

/// The number that denotes an infinite distance.
pub(crate) const NONE: u64 = 18_446_744_073_709_551_615;

/// Returns whether each share is below 2^31.
#[tactic(auto, using(pdb::proofs::Lowering::small_everywhere))]
fn are_small(shares: &[u32]) -> bool
    ensures { IsTrue result → (o : ℕ) → slice_index shares.now o < 2 ^ 31 }
{
    for operator in 0..shares.len() {
        if shares[operator] >= 2_147_483_648 {
            return false;
        }
    }
    true
}

/// Checks the values of a table.
fn are_distances(rt: &impl Abort, values: &Values, expected: &[u64]) {
    assert_eq!(rt; values.len(), expected.len());
    for state in 0..expected.len() {
        let value = values.get(state).get().unwrap_or(NONE);
        assert_eq!(rt; value, expected[state]);
    }
}

/// Checks the distances and the saturated shares of an abstraction whose transitions can be followed backwards.
#[tactic(auto, using(pdb::proofs::Falls::distances_are_consistent))]
pub(crate) fn has_table<A: BackwardAbstraction>(
    rt: &impl Abort,
    alloc: Global,
    task: &FdrTask,
    abstraction: &A,
    shares: &[u32],
    expected: &[u64],
    saturated: &[u32],
)
    requires { A.task abstraction.now ≡ task.now }
{
    assert!(rt; shares.len() == task.operator_count() && are_small(shares));
    let values = distances(alloc, abstraction, shares).expect(rt, "memory");
    let needed = saturate(alloc, abstraction, shares, &values).expect(rt, "memory");
    are_distances(rt, &values, expected);
    assert_eq!(rt; needed.as_slice(), saturated);
}

/// Returns the listed transitions of an abstraction of the task.
pub(crate) fn transitions_of<'a, A: Abstraction>(
    rt: &impl Abort,
    alloc: Global,
    task: &FdrTask,
    abstraction: &'a A,
) -> Listed<'a, A>
    requires { A.task abstraction.now ≡ task.now }
    ensures { result ≡ abstraction.now }
{
    task.recall();
    Listed::new(alloc, abstraction, task.operator_count()).expect(rt, "memory")
}

/// Returns whether the list has the transition.
fn has_transition(list: &[Transition], class: u32, source: u32) -> bool {
    list.iter().any(|transition| transition.class == class && transition.source == source)
}

/// Returns whether the list has these transitions (class, source) and no others, in any order.
fn are_transitions(list: &[Transition], expected: &[(u32, u32)]) -> bool {
    list.len() == expected.len()
        && expected
            .iter()
            .all(|(class, source)| has_transition(list, *class, *source))
}

/// Checks the transitions into each abstract state, as they are stored and as they are copied.
pub(crate) fn enters<A: Abstraction>(
    rt: &impl Abort,
    alloc: Global,
    listed: &Listed<'_, A>,
    expected: &[&[(u32, u32)]],
) {
    assert_eq!(rt; listed.size(), expected.len());
    let mut digits = Vec::new(alloc);
    let mut list = Vec::new(alloc);
    for state in 0..expected.len() {
        listed
            .entering(state, &mut digits, &mut list)
            .expect(rt, "memory");
        assert!(rt;
            are_transitions(&list, expected[state]),
            "copied transitions"
        );
        match listed.stored(state) {
            Some(stored) => assert!(rt;
                are_transitions(stored, expected[state]),
                "stored transitions"
            ),
            None => panic!(rt; "stored transitions"),
        }
    }
}

/// Checks the operators of the classes, one for each class.
pub(crate) fn has_classes<A: Abstraction>(
    rt: &impl Abort,
    listed: &Listed<'_, A>,
    expected: &[u32],
) {
    assert_eq!(rt; listed.class_count(), expected.len());
    for class in 0..expected.len() {
        assert_eq!(rt; listed.operators_of(class), [expected[class]].as_slice());
    }
}

/// Checks the tables of a projection over its own transitions by groups of operators and over the listed ones.
pub(crate) fn projections_agree(
    rt: &impl Abort,
    alloc: Global,
    task: &FdrTask,
    pattern: &[usize],
    shares: &[u32],
    expected: &[u64],
    saturated: &[u32],
) {
    assert!(rt; is_increasing(pattern));
    match Projection::new(alloc, task, pattern) {
        Ok(projection) => {
            let index = OperatorIndex::new(alloc, task).expect(rt, "memory");
            let groups = Groups::new(alloc, &projection, &index).expect(rt, "memory");
            let own = abstraction_groups::Listed::new(alloc, groups).expect(rt, "memory");
            has_table(rt, alloc, task, &own, shares, expected, saturated);
            let listed = transitions_of(rt, alloc, task, &projection);
            has_table(rt, alloc, task, &listed, shares, expected, saturated);
        }
        Err(_) => panic!(rt; "a projection"),
    }
}
