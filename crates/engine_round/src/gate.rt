//! Gates, which may end a multi-threaded search between turns.

use crate::progress::Progress;
use std::time::Duration;

/// How a gate ends a search.
#[derive(Clone, Copy, Debug, PartialEq, Eq)]
pub enum Stop {
    /// The search fails, and what it has reached is lost.
    Fail,
    /// The search ends as at a limit, with what it has reached.
    Limit,
    /// The search ends as at a limit, with what it has reached, and its caller continues with another search.
    Stage,
}

/// Asked before each turn of each worker; may end the search there.
pub trait Gate {
    ghost use Rattle.std.specs.Prelude.{◌≡◌, ℕ, true, IfErr};
    ghost use Rattle.engine_round.specs.declared.gate.Stop.{Stop};
    ghost use Rattle.engine_round.specs.declared.gate.Stop.TheVariants.{Limit};

    /// Whether the gate may end a search in this way, before turn `turn` of worker `worker`.
    ghost may_stop: { Self → ℕ → ℕ → Stop → Type 0 };

    /// Called before a turn of a worker, in the worker's thread, with the worker's progress. The turns of each worker
    /// are counted from 1 in each round; the number is capped at `u64::MAX`.
    fn turn(&self, worker: usize, turn: u64, progress: Progress) -> Result<(), Stop>
        ensures { IfErr result (may_stop self.now worker turn) };

    /// Returns whether the gate certainly never ends a search as at a limit, so that nothing need be stored for that
    /// case.
    fn never_limits(&self) -> bool
        ensures { result ≡ true → (worker turn : ℕ) → may_stop self.now worker turn Limit → ⊥ }
    {
        false
    }

    /// Returns whether a search in stages may begin another stage now, after one that took this long. The contract does
    /// not specify the answer: no result depends on it but when a stage ends.
    fn allows_stage(&self, _took: Duration) -> bool {
        true
    }

    /// Called before a search of what a reduction leaves of a task: the numbers of variables and of operators that are left
    /// out.
    fn task_reduced(&self, _variables: usize, _operators: usize) {}

    /// Called when a search in stages has made the tables of a stage, counted from 1: their number, and that of their
    /// abstract states.
    fn stage_begins(&self, _stage: usize, _tables: usize, _abstract_states: usize) {}
}

/// A gate that never makes a search fail: if it ends one, what was reached is not lost.
pub trait EndingGate: Gate {
    ghost use Rattle.std.specs.Prelude.{ℕ};
    ghost use Rattle.engine_round.specs.declared.gate.Stop.TheVariants.{Fail};

    /// The gate never ends a search as failed.
    ghost never_fails: { (gate : Self) (worker turn : ℕ) → Self.Gate.may_stop gate worker turn Fail → ⊥ };
}

/// The gate that never ends a search.
#[derive(Clone, Copy, Debug, Drop)]
pub struct Open;

impl Gate for Open {
    ghost may_stop = { λ _ _ _ _. ⊥ };

    fn turn(&self, _worker: usize, _turn: u64, _progress: Progress) -> Result<(), Stop> {
        Ok(())
    }

    fn never_limits(&self) -> bool {
        true
    }
}

impl EndingGate for Open {
    ghost never_fails = { λ gate worker turn stops. stops };
}
