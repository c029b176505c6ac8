//! Messages: states that one owner sends to another.

use openlist::Rank;
use packed::StateForm;

/// The origin of a reached state.
#[derive(Clone, Copy, Debug, PartialEq, Eq)]
pub struct Parent {
    /// The worker that owns the state from which it was reached.
    pub worker: usize,
    /// The index of that state in the worker's table.
    pub index: usize,
    /// The number of the operator that was applied.
    pub operator: usize,
}

/// A reached state, with its rank and its parent.
#[derive(Drop)]
pub struct Message<F: StateForm + Drop> {
    /// The form of the state.
    pub state: F,
    /// The rank at which it was reached.
    pub rank: Rank,
    /// The state and the operator from which it was reached.
    pub parent: Parent,
}
