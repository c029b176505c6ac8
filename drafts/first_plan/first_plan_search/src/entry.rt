//! Entries of open lists.

/// A state that waits for its expansion. Entries are ordered by key, then by tie.
#[derive(Clone, Copy, Debug, PartialEq, Eq, PartialOrd, Ord)]
pub struct Entry {
    /// The weighted sum of its cost and its heuristic value.
    pub key: u64,
    /// What decides between equal keys.
    pub tie: u64,
    /// The cost at which it was reached.
    pub cost: u64,
    /// The state's index.
    pub index: usize,
}
