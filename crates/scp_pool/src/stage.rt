//! Stages: a search is started again with more and larger tables, as long as it is still going on.

/// The limits of the pool of a stage.
#[derive(Clone, Copy, Debug)]
pub struct StageLimits {
    /// The number of the stage, which is part of the seeds of its random choices.
    pub number: u64,
    /// The greatest number of abstract states of an abstraction by refinement, as far as it is from 1 to 2^24.
    pub refined_states: usize,
    /// The greatest number of runs of refinement of each kind.
    pub runs: u64,
    /// The number of transitions of new patterns by refinement after which no more are made.
    pub pattern_transitions: u64,
    /// The number of transitions of new domain abstractions after which no more are made.
    pub domain_transitions: u64,
    /// The number of transitions of new grown patterns.
    pub grown_transitions: u64,
    /// The number of steps of each kind of refinement, and of the growth of patterns.
    pub work: u64,
    /// The greatest number of abstract states of a grown pattern, as far as it is at most 2^24. None grows if it is less
    /// than 16.
    pub grown_states: usize,
}

/// The limits of the first stage, which is to take less time than a search that ends soon.
const FIRST: StageLimits = StageLimits {
    number: 1,
    refined_states: 300,
    runs: 16,
    pattern_transitions: 20_000,
    domain_transitions: 30_000,
    grown_transitions: 0,
    work: 1_000_000,
    grown_states: 0,
};

/// The limits of the second stage.
const SECOND: StageLimits = StageLimits {
    number: 2,
    refined_states: 2_000,
    runs: 32,
    pattern_transitions: 140_000,
    domain_transitions: 140_000,
    grown_transitions: 120_000,
    work: 10_000_000,
    grown_states: 20_000,
};

/// The limits of the third stage.
const THIRD: StageLimits = StageLimits {
    number: 3,
    refined_states: 10_000,
    runs: 32,
    pattern_transitions: 1_400_000,
    domain_transitions: 1_400_000,
    grown_transitions: 1_200_000,
    work: 80_000_000,
    grown_states: 100_000,
};

/// The limits of the last stage.
const LAST: StageLimits = StageLimits {
    number: 4,
    refined_states: 50_000,
    runs: 32,
    pattern_transitions: 7_000_000,
    domain_transitions: 7_000_000,
    grown_transitions: 6_000_000,
    work: 600_000_000,
    grown_states: 1_000_000,
};

/// The stages in order. The tables of a stage may take about as long as the search of the stage before.
pub const STAGES: [StageLimits; 4] = [FIRST, SECOND, THIRD, LAST];
