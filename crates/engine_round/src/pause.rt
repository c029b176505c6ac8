//! The pause of a worker that has nothing to do.

use std::sync::Wait;
use std::thread;
use std::time::{Clock, Duration};

/// The number of consecutive turns without work in which a worker yields before it begins to sleep.
const YIELDS: u32 = 64;

/// The shortest sleep, in microseconds.
const SHORTEST: u64 = 10;

/// How many times the sleep is doubled: the longest sleep is about a millisecond.
const DOUBLINGS: u32 = 7;

/// The number of consecutive turns in which a worker had nothing to do; it saturates when its sleep no longer grows.
#[derive(Drop)]
pub(crate) struct Pause {
    idle_turns: u32,
}

impl Pause {
    /// Creates the counter, at 0.
    pub(crate) fn new() -> Pause {
        Pause { idle_turns: 0 }
    }

    /// Called after a turn: a worker that is at rest yields to other threads, and sleeps after many such turns in a
    /// row.
    pub(crate) fn after<R: Clock>(&mut self, rt: &R, resting: bool) {
        if !resting {
            self.idle_turns = 0;
        } else if self.idle_turns < YIELDS {
            self.idle_turns += 1;
            thread::yield_now();
        } else {
            let doublings = (self.idle_turns - YIELDS).min(DOUBLINGS);
            self.idle_turns = YIELDS + DOUBLINGS.min(doublings + 1);
            thread::sleep(rt, Duration::from_micros(SHORTEST << doublings));
        }
    }
}
