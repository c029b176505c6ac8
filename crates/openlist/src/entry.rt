//! Entries of an open list, and their order.

/// The rank at which a state was reached: the cost of the path to it, and its number of operators. Ranks are ordered by
/// cost, then by the number of operators.
#[derive(Clone, Copy, Debug, PartialEq, Eq, PartialOrd, Ord)]
pub struct Rank {
    /// The cost of the operators on the path, at most 2^62 in a search.
    pub cost: u64,
    /// The number of operators on the path, at most 2^62 in a search.
    pub steps: u64,
}

/// A state to be expanded. Entries are ordered by f, then by rank, then by index.
#[derive(Clone, Copy, Debug, PartialEq, Eq, PartialOrd, Ord)]
pub struct OpenEntry {
    /// The f-value: the cost at which the state was reached plus the state's heuristic value, f = g + h.
    pub f: u64,
    /// The rank at which the state was reached.
    pub rank: Rank,
    /// The state's index in its owner's table.
    pub index: usize,
}
