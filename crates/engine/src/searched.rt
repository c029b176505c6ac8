//! The end of a multi-threaded search.

use extract::Joined;
use packed::StateForm;
use packed_spread::Spread;

/// The reason why a search was stopped before its owners were settled.
#[derive(Clone, Copy, Debug, PartialEq, Eq)]
pub enum Cause {
    /// One of the owners has reached its limit of expansions.
    Limit,
    /// The gate ended the search as at a limit.
    Gate,
    /// The gate ended the stage.
    Stage,
}

/// The end of a multi-threaded search.
#[derive(Drop)]
pub enum Searched<'a, S: Spread + Drop, F: StateForm + Drop> {
    /// The owners are settled: no pending f-value is below the least cost at which a goal state was taken.
    Settled(Joined<'a, S, F>),
    /// The owners are not settled: the search was stopped before, for this reason.
    Stopped(Joined<'a, S, F>, Cause),
}
