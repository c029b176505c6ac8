//! How a worker counts units of work: while it is not at rest it is one of the units that are left, and each message is
//! one from when it is put into an outbox until it is taken.

ghost use Rattle.std.specs.Prelude.{◌≡◌, ◌<◌, pos, ◌+ℤ◌, ◌-ℤ◌, false, not, ◌||◌};
ghost use Rattle.board.specs.Rule.{with_share};
ghost use Rattle.board.specs.Seats.{IsSeatOf, view};
ghost use Rattle.worker.specs.Counts.{HasBalanced, HasRested};
ghost use Rattle.worker.specs.Turns.{wakes, comes_to_rest, one_if, HasCounted};

use crate::worker::Worker;
use board::{Board, Seat};
use packed::StateForm;
use packed_spread::Spread;

/// Returns 1 if the flag is set, and 0 if not.
fn one_if(flag: bool) -> u64
    ensures { result ≡ one_if flag }
{
    if flag { 1 } else { 0 }
}

/// Adds `more` units and subtracts `fewer`, in one atomic step, or in none if they are equal: all workers change the
/// word of the units, and each change waits for its cache line.
fn change_units(board: &Board, seat: &mut Seat, more: u64, fewer: u64)
    requires { IsSeatOf board.now seat.old }
    ensures seat { IsSeatOf board.now seat.new }
    ensures view { view seat.new ≡ with_share (view seat.old) (((view seat.old).share +ℤ pos more) -ℤ pos fewer) }
{
    if more > fewer {
        board.add(seat, more - fewer);
    } else if fewer > more {
        board.sub(seat, fewer - more);
    }
}

impl<'a, S: Spread + Drop, F: StateForm + Drop> Worker<'a, S, F> {
    /// Starts a round: the worker counts among the units, and no message is left to be added or subtracted.
    pub fn begin_round(&mut self)
        ensures { self.new ≡ record self.old { resting = false; uncounted = 0; taken = 0 } }
    {
        self.resting = false;
        self.uncounted = 0;
        self.taken = 0;
    }

    /// Returns whether the worker is at rest and has taken a message, so that it counts among the units again.
    fn wakes(&self) -> bool
        ensures { result ≡ wakes self.now }
    {
        self.resting && self.taken != 0
    }

    /// Returns whether the worker counts among the units, or does so again.
    fn counts(&self) -> bool
        ensures { result ≡ (not self.now.resting || wakes self.now) }
    {
        !self.resting || self.wakes()
    }

    /// Returns whether the worker counts among the units, has nothing to expand below its bound and no message in its
    /// outboxes.
    fn comes_to_rest(&self) -> bool
        ensures { result ≡ comes_to_rest S.owner self.now }
    {
        self.counts() && self.owner.is_idle(self.bound)
    }

    /// Brings the units up to date before anything is sent: adds the messages in outboxes that are not yet added, and 1
    /// if the worker wakes, and subtracts the messages that it has taken.
    pub(crate) fn balance(&mut self, board: &Board, seat: &mut Seat)
        requires { IsSeatOf board.now seat.old }
        ensures seat { IsSeatOf board.now seat.new }
        ensures balanced { HasBalanced self.old self.new (view seat.old) (view seat.new) }
    {
        change_units(board, seat, one_if(self.wakes()), 0);
        change_units(board, seat, self.uncounted, self.taken);
        self.uncounted = 0;
    }

    /// Ends the counting, after the messages that were taken are subtracted: subtracts the worker from the units if it
    /// comes to rest.
    pub(crate) fn rest(&mut self, board: &Board, seat: &mut Seat)
        requires { IsSeatOf board.now seat.old }
        ensures seat { IsSeatOf board.now seat.new }
        ensures rested { HasRested S.owner self.old self.new (view seat.old) (view seat.new) }
    {
        let wakes = self.wakes();
        let rests = self.comes_to_rest();
        change_units(board, seat, 0, one_if(rests));
        self.taken = 0;
        self.resting = (self.resting && !wakes) || rests;
    }

    /// Subtracts the messages that were taken from the units, and counts this worker among them exactly if it is not at
    /// rest. It adds before it subtracts, so that the units are 0 only when no work is left.
    pub fn count_taken(&mut self, board: &Board, seat: &mut Seat)
        requires { IsSeatOf board.now seat.old }
        ensures seat { IsSeatOf board.now seat.new }
        ensures counted { HasCounted S.owner self.old self.new (view seat.old) (view seat.new) }
    {
        change_units(board, seat, one_if(self.wakes()), self.taken);
        self.rest(board, seat);
    }
}
