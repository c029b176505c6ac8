//! What a search for a first plan did.

/// The number of states that each part of a search for a first plan expanded.
#[derive(Clone, Copy, Debug, Default)]
pub struct Effort {
    /// Greedy best-first search.
    pub greedy: usize,
    /// Searches between states of a plan.
    pub windows: usize,
    /// Weighted A*.
    pub star: usize,
    /// Beams.
    pub beams: usize,
}
