//! Limits of refinement.

/// The limits of a run.
#[derive(Clone, Copy, Debug)]
pub struct Limits {
    /// The greatest number of abstract states, from 1 to 2^24.
    pub states: usize,
    /// The greatest number of transitions of an abstraction. One whose groups have more than a million operators, and
    /// more than a run's work allows, is refused too.
    pub transitions: u64,
    /// The number of steps after which the run ends. A round takes one for each transition and each abstract state,
    /// and 20 for each operator of each group.
    pub work: u64,
}
