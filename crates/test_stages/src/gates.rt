//! Gates that count stages, refuse them or end them.

use optplan_solver::{EndingGate, Gate, Progress, Stop};
use std::sync::atomic::{AtomicU64, Ordering};
use std::time::Duration;

/// Counts how often it is asked for a further stage, which it allows or refuses.
#[derive(Drop)]
pub(crate) struct Counting {
    allows: bool,
    asked: AtomicU64,
}

impl Counting {
    /// Creates the gate, which was not asked yet.
    pub(crate) fn new(allows: bool) -> Counting {
        Counting {
            allows,
            asked: AtomicU64::new(0),
        }
    }

    /// Returns how often it was asked for a further stage.
    pub(crate) fn asked(&self) -> u64 {
        self.asked.load(Ordering::SeqCst)
    }
}

impl Gate for Counting {
    ghost may_stop = { λ _ _ _ _. ⊥ };

    fn turn(&self, _worker: usize, _turn: u64, _progress: Progress) -> Result<(), Stop> {
        Ok(())
    }

    fn allows_stage(&self, _took: Duration) -> bool {
        self.asked.fetch_add(1, Ordering::SeqCst);
        self.allows
    }
}

impl EndingGate for Counting {
    ghost never_fails = { λ gate worker turn stops. stops };
}

/// Ends the search as at a limit when worker 0 begins this turn of a round, after this number of stages.
#[derive(Drop)]
pub(crate) struct StopsLater {
    after: u64,
    turn: u64,
    ended: AtomicU64,
}

impl StopsLater {
    /// Creates the gate: the search ends before this turn of worker 0, after `after` stages.
    pub(crate) fn new(after: u64, turn: u64) -> StopsLater {
        StopsLater {
            after,
            turn,
            ended: AtomicU64::new(0),
        }
    }
}

impl Gate for StopsLater {
    ghost use Rattle.std.specs.Prelude.{◌≡◌};
    ghost use Rattle.engine_round.specs.declared.gate.Stop.TheVariants.{Limit};

    ghost may_stop = { λ _ _ _ stop. stop ≡ Limit };

    fn turn(&self, worker: usize, turn: u64, _progress: Progress) -> Result<(), Stop> {
        if worker == 0 && turn >= self.turn && self.ended.load(Ordering::SeqCst) >= self.after {
            Err(Stop::Limit)
        } else {
            Ok(())
        }
    }

    fn allows_stage(&self, _took: Duration) -> bool {
        self.ended.fetch_add(1, Ordering::SeqCst);
        true
    }
}

impl EndingGate for StopsLater {
    ghost use Rattle.std.proofs.Common.{rules};

    ghost never_fails = { λ gate worker turn stops. Prim.search rules };
}

/// Ends each stage before turn 3 of worker 0.
#[derive(Drop)]
pub(crate) struct EndsStages {}

impl Gate for EndsStages {
    ghost use Rattle.std.specs.Prelude.{◌≡◌};
    ghost use Rattle.engine_round.specs.declared.gate.Stop.TheVariants.{Stage};

    ghost may_stop = { λ _ _ _ stop. stop ≡ Stage };

    fn turn(&self, worker: usize, turn: u64, _progress: Progress) -> Result<(), Stop> {
        if worker == 0 && turn >= 3 {
            Err(Stop::Stage)
        } else {
            Ok(())
        }
    }
}

impl EndingGate for EndsStages {
    ghost use Rattle.std.proofs.Common.{rules};

    ghost never_fails = { λ gate worker turn stops. Prim.search rules };
}
