//! Gates that delay workers, and one that counts their turns.

use optplan_solver::{EndingGate, Gate, Progress, Stop};
use std::sync::atomic::{AtomicU64, Ordering};

/// The number of further turns of the others that worker 0 waits for.
const TURNS: u64 = 1_000;

/// The number of polls after which a waiting worker continues anyway.
const LOOKS: u32 = 1_000_000;

/// Worker 0 begins a turn only after 1,000 more turns of the others, or 1,000,000 polls.
#[derive(Drop)]
pub(crate) struct FirstIsLate {
    /// The number of turns that the others have begun.
    others: AtomicU64,
}

impl FirstIsLate {
    /// Creates the gate; no turn has begun.
    pub(crate) fn new() -> FirstIsLate {
        FirstIsLate {
            others: AtomicU64::new(0),
        }
    }
}

impl Gate for FirstIsLate {
    ghost may_stop = { λ _ _ _ _. ⊥ };

    fn turn(&self, worker: usize, _turn: u64, _progress: Progress) -> Result<(), Stop> {
        if worker != 0 {
            self.others.fetch_add(1, Ordering::SeqCst);
            return Ok(());
        }
        let before = self.others.load(Ordering::SeqCst);
        for _ in 0..LOOKS {
            if self.others.load(Ordering::SeqCst).wrapping_sub(before) >= TURNS {
                break;
            }
        }
        Ok(())
    }
}

impl EndingGate for FirstIsLate {
    ghost never_fails = { λ gate worker turn stops. stops };
}

/// The last worker begins its turn of each number before the others begin theirs, unless they have polled 1,000,000
/// times.
#[derive(Drop)]
pub(crate) struct LastIsFirst {
    /// The number of the last worker.
    last: usize,
    /// The number of the turn that it has begun.
    begun: AtomicU64,
}

impl LastIsFirst {
    /// Creates the gate of `workers` workers; no turn has begun.
    pub(crate) fn of(workers: usize) -> LastIsFirst {
        LastIsFirst {
            last: workers.saturating_sub(1),
            begun: AtomicU64::new(0),
        }
    }
}

impl Gate for LastIsFirst {
    ghost may_stop = { λ _ _ _ _. ⊥ };

    fn turn(&self, worker: usize, turn: u64, _progress: Progress) -> Result<(), Stop> {
        if worker == self.last {
            self.begun.store(turn, Ordering::SeqCst);
            return Ok(());
        }
        for _ in 0..LOOKS {
            if self.begun.load(Ordering::SeqCst) >= turn {
                break;
            }
        }
        Ok(())
    }
}

impl EndingGate for LastIsFirst {
    ghost never_fails = { λ gate worker turn stops. stops };
}

/// Counts the first turns of workers, and delays none.
#[derive(Drop)]
pub(crate) struct FirstTurns {
    count: AtomicU64,
}

impl FirstTurns {
    /// Creates the gate; no turn has begun.
    pub(crate) fn new() -> FirstTurns {
        FirstTurns {
            count: AtomicU64::new(0),
        }
    }

    /// Returns the number of turns that have begun and were a worker's first in a round.
    pub(crate) fn count(&self) -> u64 {
        self.count.load(Ordering::SeqCst)
    }
}

impl Gate for FirstTurns {
    ghost may_stop = { λ _ _ _ _. ⊥ };

    fn turn(&self, _worker: usize, turn: u64, _progress: Progress) -> Result<(), Stop> {
        if turn == 1 {
            self.count.fetch_add(1, Ordering::SeqCst);
        }
        Ok(())
    }
}

impl EndingGate for FirstTurns {
    ghost never_fails = { λ gate worker turn stops. stops };
}
