//! Tables of an abstraction, compared with expected distances and saturated shares.

ghost use Rattle.std.specs.Prelude.{◌≡◌, ℕ, ◌<◌, ◌^◌, length, slice_index, IsTrue};

use crate::graph::Graph;
use abstraction::Abstraction;
use cert_value::Values;
use pdb::{Scratch, distances, saturate, take_table};
use std::alloc::Global;
use std::process::Abort;
use std::test::*;

/// The number that denotes an infinite distance.
pub(crate) const NONE: u64 = 18_446_744_073_709_551_615;

/// Returns whether each share is below 2^31.
#[tactic(auto, using(pdb::proofs::Lowering::small_everywhere))]
fn are_small(shares: &[u32]) -> bool
    ensures { IsTrue result → (o : ℕ) → slice_index shares.now o < 2 ^ 31 }
{
    for operator in 0..shares.len() {
        if shares[operator] >= 2_147_483_648 {
            return false;
        }
    }
    true
}

/// Returns the abstraction by these lists, which must fit together.
pub(crate) fn graph_of(
    rt: &impl Abort,
    alloc: Global,
    goals: Vec<bool>,
    count: usize,
    kinds: Vec<u32>,
    targets: Vec<u32>,
) -> Result<Graph, Fail> {
    assert!(rt; !goals.is_empty() && goals.len() < 1000 && count < 1000);
    assert!(rt; kinds.len() < 1000 && targets.len() == count * goals.len());
    Ok(Graph::new(alloc, goals, count, kinds, targets)?)
}

/// Checks the values of a table.
pub(crate) fn are_distances(rt: &impl Abort, values: &Values, expected: &[u64]) {
    assert_eq!(rt; values.len(), expected.len());
    for state in 0..expected.len() {
        let value = values.get(state).get().unwrap_or(NONE);
        assert_eq!(rt; value, expected[state]);
    }
}

/// Checks that each cost has decreased by the share of its operator.
fn are_left(rt: &impl Abort, left: &[u32], shares: &[u32], costs: &[u32]) {
    assert!(rt; left.len() == costs.len() && shares.len() == costs.len());
    for operator in 0..costs.len() {
        let before = u64::from(left[operator]) + u64::from(shares[operator]);
        assert_eq!(rt; before, u64::from(costs[operator]));
    }
}

/// Checks the distances and the saturated shares of an abstraction, as `distances` and `saturate` return them and as
/// `take_table` does.
pub(crate) fn agrees(
    rt: &impl Abort,
    alloc: Global,
    graph: &Graph,
    costs: &[u32],
    expected: &[u64],
    saturated: &[u32],
    scratch: &mut Scratch,
) -> Result<(), Fail> {
    assert!(rt; costs.len() == graph.operator_count());
    assert!(rt; are_small(costs));
    let values = distances(alloc, graph, costs)?;
    let needed = saturate(alloc, graph, costs, &values)?;
    are_distances(rt, &values, expected);
    assert_eq!(rt; needed.as_slice(), saturated);
    let mut left = Vec::from_slice(alloc, costs)?;
    take_table(graph, &mut left, scratch)?;
    let taken = scratch.distances(alloc)?;
    are_distances(rt, &taken, expected);
    are_left(rt, &left, saturated, costs);
    Ok(())
}
