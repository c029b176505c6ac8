//! When a worker polls its incoming rings, and what it knows to be in them.

ghost use Rattle.std.specs.Prelude.{◌≡◌, ◌<◌};
ghost use Rattle.worker.specs.Workers.{known_in};

use crate::worker::Worker;
use packed::StateForm;
use packed_spread::Spread;

/// A worker polls the incoming rings at least once in this many turns. What others write is read from another
/// processor's cache, a line at a time, so several messages of one sender cost as much as one.
const TURNS_A_POLL: usize = 8;

impl<'a, S: Spread + Drop, F: StateForm + Drop> Worker<'a, S, F> {
    /// Returns the number of turns from one poll of the incoming rings to the next. It depends on the capacity because
    /// rings must not fill up between polls; a node rarely has more than one successor for each worker.
    fn turns_a_poll(&self) -> u32
        ensures { 0 < result }
    {
        match self.ins.get(0) {
            Some(link) => (link.capacity() / 8).min(TURNS_A_POLL).max(1) as u32,
            None => 1,
        }
    }

    /// Counts a turn, and returns whether it polls for messages sent since the last poll: always if the worker is at
    /// rest or its outboxes are congested, otherwise in one of several turns.
    pub(crate) fn begin_polling(&mut self) -> bool
        ensures { self.new ≡ self.old }
    {
        let polls = self.resting || self.turns == 0 || self.is_congested();
        let interval = self.turns_a_poll();
        let counted = if polls { 0 } else { self.turns };
        self.turns = counted.wrapping_add(1) % interval;
        polls
    }

    /// Returns the number of messages that are known to be left to take from all workers. Does not poll the rings.
    pub fn known_messages(&self) -> u128
        ensures { result ≡ known_in self.now.ins }
    {
        let mut messages = 0u128;
        for link in &self.ins {
            messages += link.known_len() as u128;
        }
        messages
    }
}
