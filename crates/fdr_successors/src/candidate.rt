//! Operators with the facts that are tested for them.

use fdr::Fact;

/// An operator and its precondition: the facts `first..end` of a flat list of facts.
#[derive(Clone, Copy)]
pub(crate) struct Candidate {
    pub(crate) operator: usize,
    pub(crate) first: usize,
    pub(crate) end: usize,
}

/// The candidates, and the flat list of facts that contains their preconditions.
#[derive(Drop)]
pub(crate) struct Listing {
    pub(crate) candidates: Vec<Candidate>,
    pub(crate) facts: Vec<Fact>,
}

/// The candidates `first..end`, which share the first `tested` facts of their preconditions. After them a visit
/// continues at the node `next`. At most `levels` levels of the tree are below them.
#[derive(Clone, Copy)]
pub(crate) struct Part {
    pub(crate) first: usize,
    pub(crate) end: usize,
    pub(crate) tested: usize,
    pub(crate) next: usize,
    pub(crate) levels: usize,
}
