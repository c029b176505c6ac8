//! Progress reports of simulations.

use cost::Dist;
use netcore::WorldStep;
use owner::Owner;
use packed::StateForm;
use packed_spread::Spread;

/// The number of steps between two reports to an observer.
pub const STEPS_BETWEEN_REPORTS: u64 = 100_000;

/// The progress of all owners of a search together.
#[derive(Clone, Copy, Debug, PartialEq, Eq)]
pub struct Reached {
    /// The number of expansions, capped at 2^64 - 1.
    pub expanded: u64,
    /// The number of stored states, capped at 2^64 - 1.
    pub kept: u64,
    /// The least f-value of the states that are yet to be expanded, infinite if there is none.
    pub least_open: Dist,
    /// The least cost at which a goal state was taken, infinite if none was.
    pub best: Dist,
}

/// Receives progress reports of a simulation. No result of a simulation depends on it.
pub trait Observer {
    /// Called once in `STEPS_BETWEEN_REPORTS` steps, with the progress of the owners after `steps` steps.
    fn observe(&self, steps: u64, reached: Reached);
}

/// The observer that does nothing.
#[derive(Clone, Copy, Debug, Drop)]
pub struct Unobserved;

impl Observer for Unobserved {
    fn observe(&self, _steps: u64, _reached: Reached) {}
}

/// Returns the progress of these owners, after `expanded` expansions.
fn sum_of<'a, S: Spread + Drop, F: StateForm + Drop>(
    owners: &[Owner<'a, S, F>],
    expanded: u64,
) -> Reached {
    let (mut kept, mut least_open, mut best) = (0u64, Dist::inf(), Dist::inf());
    for owner in owners {
        kept = kept.saturating_add(owner.len() as u64);
        least_open = least_open.min(owner.least_open());
        best = best.min(owner.best_goal());
    }
    Reached {
        expanded,
        kept,
        least_open,
        best,
    }
}

/// The numbers of steps and of expansions of a simulation.
#[derive(Drop)]
pub(crate) struct Tally {
    steps: u64,
    expanded: u64,
}

impl Tally {
    /// Creates the counters, at 0.
    pub(crate) fn new() -> Tally {
        Tally {
            steps: 0,
            expanded: 0,
        }
    }

    /// Counts a step after which the owners are these, and reports to the observer if a report is due.
    pub(crate) fn count<'a, S: Spread + Drop, F: StateForm + Drop, O: Observer>(
        &mut self,
        step: WorldStep,
        owners: &[Owner<'a, S, F>],
        observer: &O,
    ) {
        self.steps = self.steps.saturating_add(1);
        if let WorldStep::Expand(_) = step {
            self.expanded = self.expanded.saturating_add(1);
        }
        if self.steps % STEPS_BETWEEN_REPORTS == 0 {
            observer.observe(self.steps, sum_of(owners, self.expanded));
        }
    }
}
