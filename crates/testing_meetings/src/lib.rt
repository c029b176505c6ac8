//! Two workers that wait for each other, for tests: if they meet, two threads ran concurrently.
#![tactic(auto)]

use engine_round::{EndingGate, Gate, Progress, Stop};
use std::sync::atomic::{AtomicBool, Ordering};

/// The number of times that one of the two polls for the other before it stops waiting.
const MOST_LOOKS: u64 = 100_000_000;

/// Two workers that wait for each other: if one thread ran their turns one by one, they would wait in vain.
#[derive(Drop)]
pub struct Meeting {
    first: AtomicBool,
    second: AtomicBool,
    /// Whether one of them stopped waiting.
    in_vain: AtomicBool,
}

impl Meeting {
    /// Creates a meeting at which neither has arrived.
    pub fn new() -> Meeting {
        Meeting {
            first: AtomicBool::new(false),
            second: AtomicBool::new(false),
            in_vain: AtomicBool::new(false),
        }
    }

    /// Records that the first of them, or the second, has arrived, and waits for the other. Returns whether the other
    /// arrived.
    pub fn meet(&self, is_first: bool) -> bool {
        let (mine, other) = if is_first {
            (&self.first, &self.second)
        } else {
            (&self.second, &self.first)
        };
        mine.store(true, Ordering::SeqCst);
        for _ in 0..MOST_LOOKS {
            if other.load(Ordering::SeqCst) {
                return true;
            }
        }
        self.in_vain.store(true, Ordering::SeqCst);
        false
    }

    /// Returns whether both have arrived, and neither stopped waiting.
    pub fn is_met(&self) -> bool {
        self.first.load(Ordering::SeqCst)
            && self.second.load(Ordering::SeqCst)
            && !self.in_vain.load(Ordering::SeqCst)
    }
}

impl Gate for Meeting {
    ghost use Rattle.std.specs.Prelude.{◌≡◌};
    ghost use Rattle.engine_round.specs.declared.gate.Stop.TheVariants.{Limit};

    ghost may_stop = { λ _ _ _ stop. stop ≡ Limit };

    /// Makes workers 0 and 1 wait for each other in their first turns.
    fn turn(&self, worker: usize, turn: u64, _progress: Progress) -> Result<(), Stop> {
        if turn > 1 || self.meet(worker == 0) {
            Ok(())
        } else {
            Err(Stop::Limit)
        }
    }
}

impl EndingGate for Meeting {
    ghost use Rattle.std.proofs.Common.{rules};

    ghost never_fails = { λ gate worker turn stops. Prim.search rules };
}
