//! What is stored for a state besides its values.

/// What is stored for a state that was reached, besides its values.
#[derive(Clone, Copy, Debug)]
pub struct Node {
    /// The index of the state from which it was reached; that of the state itself for the first one.
    pub parent: usize,
    /// The operator by which it was reached, without meaning for the first state.
    pub operator: usize,
    /// The cost at which it was reached.
    pub cost: u64,
    /// Its heuristic value, 0 in a search without the heuristic.
    pub h: u64,
    /// Whether it was expanded at that cost.
    pub expanded: bool,
}
