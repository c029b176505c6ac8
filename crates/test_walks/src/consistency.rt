//! Saturated shares of tables that are consistent, whether their values are distances or not.

ghost use Rattle.std.specs.Prelude.{◌≡◌, ℕ, ◌<◌, length, slice_index, IfSome, IsTrue};
ghost use Rattle.cost.specs.Distances.{Finite, ◌≤ᵈ◌, ◌+ᵈ◌};
ghost use Rattle.pdb_walks.specs.Walks.{value_in};
ghost use Rattle.pdb.specs.Saturations.{AreConsistent};
ghost use Rattle.test_walks.specs.Graphs.{abstraction_by};

use crate::graph::Graph;
use abstraction::Abstraction;
use cert_value::Values;
use cost::Dist;
use pdb::saturate;
use std::alloc::Global;
use std::process::Abort;
use std::test::*;

/// Returns whether the second value is below the first by at most the share.
fn is_within(from: Dist, share: u32, to: Dist) -> bool
    ensures { IsTrue result → from ≤ᵈ Finite share +ᵈ to }
{
    match (from.get(), to.get()) {
        (_, None) => true,
        (None, Some(_)) => false,
        (Some(from), Some(to)) => from.saturating_sub(to) <= u64::from(share),
    }
}

/// Returns whether the operator's transition from this abstract state, if there is one, lowers the value by at most the
/// share.
fn lowers_within(graph: &Graph, values: &Values, state: usize, operator: usize, share: u32) -> bool
    requires values { length values.now ≡ length graph.now.goals }
    requires state { state < length graph.now.goals }
    ensures { IsTrue result → IfSome ((abstraction_by graph.now).transition state operator)
        (λ j. value_in values.now state ≤ᵈ Finite share +ᵈ value_in values.now j) }
{
    match graph.transition(state, operator) {
        Some(target) => is_within(values.get(state), share, values.get(target)),
        None => true,
    }
}

/// Returns whether no transition from this abstract state lowers the value by more than the operator's share.
fn is_consistent_at(graph: &Graph, shares: &[u32], values: &Values, state: usize) -> bool
    requires values { length values.now ≡ length graph.now.goals }
    requires state { state < length graph.now.goals }
    ensures { IsTrue result → (o : ℕ) → o < length shares.now → IfSome ((abstraction_by graph.now).transition state o)
        (λ j. value_in values.now state ≤ᵈ Finite (slice_index shares.now o) +ᵈ value_in values.now j) }
{
    for operator in 0..shares.len() {
        if !lowers_within(graph, values, state, operator, shares[operator]) {
            return false;
        }
    }
    true
}

/// Returns whether no transition lowers the value by more than the operator's share.
fn is_consistent(graph: &Graph, shares: &[u32], values: &Values) -> bool
    requires values { length values.now ≡ length graph.now.goals }
    requires operators { length shares.now ≡ length graph.now.kinds }
    ensures { IsTrue result → AreConsistent (abstraction_by graph.now) (λ o. slice_index shares.now o) values.now }
{
    for state in 0..values.len() {
        if !is_consistent_at(graph, shares, values, state) {
            return false;
        }
    }
    true
}

/// Checks the saturated shares of a table, which must be consistent.
pub(crate) fn is_saturated_by(
    rt: &impl Abort,
    alloc: Global,
    graph: &Graph,
    shares: &[u32],
    numbers: &[u64],
    saturated: &[u32],
) -> Result<(), Fail> {
    let mut values = Values::new(alloc);
    for number in numbers {
        values.push(Dist::fin(*number).unwrap_or(Dist::inf()))?;
    }
    assert!(rt; values.len() == graph.size() && shares.len() == graph.operator_count());
    assert!(rt; is_consistent(graph, shares, &values));
    let needed = saturate(alloc, graph, shares, &values)?;
    assert_eq!(rt; needed.as_slice(), saturated);
    Ok(())
}
