//! One turn of a worker.

ghost use Rattle.std.specs.Prelude.{◌≡◌, ◌≢◌, [], length, IfOk, IfErr};
ghost use Rattle.board.specs.Seats.{IsSeatOf, view};
ghost use Rattle.worker.specs.Turns.{chained, SendsTo, HasReceivedEach, HasHeldBack, IsTurn, IsTurnRefusal};

use crate::ends::knows_none;
use crate::outcome::{Received, Turn};
use crate::worker::Worker;
use board::{Board, Seat};
use owner::OwnerFault;
use packed::StateForm;
use packed_spread::Spread;
use std::alloc::AllocError;

/// Returns whether a worker takes another turn: it does not if no units of work are left, or the round was ended. A
/// worker that is not at rest is one of the units itself, so it does not read their number, a word that other workers
/// change all the time.
fn next_turn(board: &Board, seat: &mut Seat, is_resting: bool) -> Turn
    requires { IsSeatOf board.now seat.old }
    ensures turn { result ≢ Turn.Misfit }
    ensures seat { IsSeatOf board.now seat.new }
    ensures view { view seat.new ≡ view seat.old }
{
    if board.halted(seat) || (is_resting && board.count(seat) == 0) {
        Turn::Last
    } else {
        Turn::Next
    }
}

impl<'a, S: Spread + Drop, F: StateForm + Drop> Worker<'a, S, F> {
    /// Takes at most one message from each link; in turns that do not poll, only from the links that are known to hold
    /// one. Returns false if a message was set aside, after which none is taken. If allocation fails, the worker holds
    /// the message that could not be taken, and has taken none after it.
    fn receive_each(&mut self) -> Result<bool, AllocError>
        requires none_aside { self.old.misfits ≡ [] }
        requires none_taken { self.old.taken ≡ 0 }
        ensures received { IfOk result (HasReceivedEach S.owner F.values self.old self.new) }
        ensures refused { IfErr result (λ _. HasHeldBack S.owner F.values self.old self.new) }
    {
        let looks = self.begin_polling();
        for from in 0..self.workers() {
            if !looks && knows_none(&self.ins, from) {
                continue;
            }
            if let Received::SetAside = self.receive(from)? {
                return Ok(false);
            }
        }
        Ok(true)
    }

    /// Sends at most one message over each link.
    fn send_each(&mut self)
        requires { self.old.uncounted ≡ 0 }
        ensures { chained (SendsTo F.values) (length self.old.outs) self.old self.new }
    {
        for to in 0..self.workers() {
            let _sent = self.send(to);
        }
    }

    /// Takes one turn, in this order: takes at most one message from each link (in turns that do not poll, only if one
    /// is known to be left); reads the bound; expands at most one node; adds the messages that this put into outboxes
    /// to the units and subtracts those that it has taken; offers its best goal; sends at most one message over each
    /// link; and stops counting among the units if it comes to rest. A message that is not for its owner ends the turn.
    /// The contract fixes the worker and what its seat knows afterwards, not the order of these steps.
    ///
    /// A fault leaves the worker as it was after it read the bound; if allocation failed for a message, the worker
    /// holds it and it still counts as pending. A caller that continues after a fault calls `count_taken` first.
    pub fn turn(&mut self, board: &Board, seat: &mut Seat) -> Result<Turn, OwnerFault>
        requires seat { IsSeatOf board.now seat.old }
        requires none_aside { self.old.misfits ≡ [] }
        requires none_uncounted { self.old.uncounted ≡ 0 }
        requires none_taken { self.old.taken ≡ 0 }
        ensures seat { IsSeatOf board.now seat.new }
        ensures turned { IfOk result (IsTurn S.owner F.values self.old self.new (view seat.old) (view seat.new)) }
        ensures refused { IfErr result (IsTurnRefusal S.owner F.values self.old self.new (view seat.old) (view seat.new)) }
        ensures none_uncounted { self.new.uncounted ≡ 0 }
    {
        if !self.receive_each()? {
            return Ok(Turn::Misfit);
        }
        self.look(board, seat);
        let _posted = self.expand_unless_congested()?;
        self.balance(board, seat);
        self.offer(board, seat);
        self.send_each();
        self.rest(board, seat);
        Ok(next_turn(board, seat, self.resting))
    }
}
