//! Answers for a task, by searches or from its texts.

use cert_value::Certificate;

/// A cheapest plan, with a certificate of its cost if one was requested; `P` is the form of the plan, with its cost.
#[derive(Drop)]
pub struct Solution<P: Drop> {
    /// The plan.
    pub found: P,
    /// A certificate that every plan costs at least as much, if one was requested.
    pub certificate: Option<Certificate>,
}

/// The result of a search that was stopped.
#[derive(Drop)]
pub struct SoFar<P: Drop> {
    /// No plan costs less.
    pub bound: u64,
    /// The best plan so far, if there is one.
    pub best: Option<P>,
    /// A certificate that every plan costs at least `bound`, if one was requested.
    pub certificate: Option<Certificate>,
}

/// The answer for a task.
#[derive(Drop)]
pub enum Answer<P: Drop> {
    /// A cheapest plan.
    Solved(Solution<P>),
    /// There is no plan; a certificate of that, if one was requested.
    Unsolvable(Option<Certificate>),
    /// The search was stopped before it found either.
    Limit(SoFar<P>),
}
