//! What a worker does between turns: it sends and receives messages, and expands nothing.

ghost use Rattle.std.specs.Prelude.{◌≡◌, ◌+◌, ◌<◌, ◌^◌, [], length, IfOk, IfErr};
ghost use Rattle.board.specs.Seats.{IsSeatOf, view};
ghost use Rattle.worker.specs.Turns.{chained, SendsTo, HasHeldBack};
ghost use Rattle.engine_round.specs.Turns.{CountsOrNot, HasReceivedAll, HasPassedOn, HasRelayed, HasRelayedBack};

use board::{Board, Seat};
use packed::StateForm;
use packed_spread::Spread;
use std::alloc::AllocError;
use std::thread;
use worker::{Received, Worker};

/// The greatest number of passes over the links after a turn.
const PASSES: u32 = 1024;

/// A worker that is not at rest relays messages once in this many turns, so that several messages are sent and read
/// together: what other workers write is read from their caches a line at a time.
const TURNS_A_RELAY: u64 = 16;

/// A worker that knows of at least this many messages in its rings relays messages after the turn: a turn takes at most
/// one from each link, and messages that wait are expanded late.
const MANY: u128 = 32;

/// How many times between two turns a worker yields because rings are full. A receiver that does not run at all, or
/// whose table is growing, delays a sender no longer than that: its messages stay in their outbox.
const WAITS: u32 = 2;

/// The number of messages taken from which on a worker subtracts them from the units before it takes more.
const MUCH: u64 = 64;

/// Sends at most one message over each link. Returns whether one was sent.
fn send_each<'a, S: Spread + Drop, F: StateForm + Drop>(worker: &mut Worker<'a, S, F>) -> bool
    requires { worker.old.uncounted ≡ 0 }
    ensures { chained (SendsTo F.values) (length worker.old.outs) worker.old worker.new }
{
    let mut any = false;
    for to in 0..worker.workers() {
        let sent = worker.send(to);
        any = any || sent;
    }
    any
}

/// Takes at most one message from each link, until one is set aside. Returns whether one was taken, or set aside. If
/// allocation fails, the worker holds the message that could not be taken, and has taken none after it.
fn receive_each<'a, S: Spread + Drop, F: StateForm + Drop>(
    worker: &mut Worker<'a, S, F>,
) -> Result<Received, AllocError>
    requires none_aside { worker.old.misfits ≡ [] }
    requires countable { worker.old.taken + length worker.old.ins < 2 ^ 64 }
    ensures received { IfOk result (HasReceivedAll S.owner F.values worker.old worker.new) }
    ensures held { IfErr result (λ _. HasHeldBack S.owner F.values worker.old worker.new) }
{
    let mut any = false;
    for from in 0..worker.workers() {
        let received = worker.receive(from)?;
        if let Received::SetAside = received {
            return Ok(Received::SetAside);
        }
        any = any || received == Received::Taken;
    }
    if any {
        Ok(Received::Taken)
    } else {
        Ok(Received::Nothing)
    }
}

/// Subtracts the messages taken from the units if they are at least `MUCH`. All workers change the units, so a step on
/// them costs as much as handling a message.
fn count_much<'a, S: Spread + Drop, F: StateForm + Drop>(
    board: &Board,
    seat: &mut Seat,
    worker: &mut Worker<'a, S, F>,
)
    requires { IsSeatOf board.now seat.old }
    ensures seat { IsSeatOf board.now seat.new }
    ensures counted { CountsOrNot S.owner worker.old worker.new (view seat.old) (view seat.new) }
    ensures countable { worker.new.taken + length worker.new.ins < 2 ^ 64 }
{
    let more = worker.workers() as u64; // as many as it takes before it comes here again, at most
    if worker.taken() >= MUCH || worker.taken() > u64::MAX - more {
        worker.count_taken(board, seat);
    }
}

/// Returns the greatest number of passes over the links after turn `turn`, in which the outboxes were congested or not:
/// 0 after most turns of a worker that is not at rest and knows of few messages.
fn passes_after<'a, S: Spread + Drop, F: StateForm + Drop>(
    worker: &Worker<'a, S, F>,
    turn: u64,
    was_congested: bool,
) -> u32 {
    let is_due = was_congested
        || worker.is_resting()
        || turn % TURNS_A_RELAY == 0
        || worker.known_messages() >= MANY;
    if is_due { PASSES } else { 0 }
}

/// Sends the messages in the outboxes and takes those in the rings, until there are none. If a ring is full it yields,
/// so that the receiver takes the messages before more nodes are expanded; it returns when it would yield more than
/// `WAITS` times, and after `passes` passes over the links. Returns false if a message was set aside, after which
/// nothing else is done. If allocation fails, the worker holds the message that could not be taken, and nothing else is
/// done.
fn pass_on<'a, S: Spread + Drop, F: StateForm + Drop>(
    board: &Board,
    seat: &mut Seat,
    worker: &mut Worker<'a, S, F>,
    passes: u32,
) -> Result<bool, AllocError>
    requires seat { IsSeatOf board.now seat.old }
    requires none_aside { worker.old.misfits ≡ [] }
    requires none_uncounted { worker.old.uncounted ≡ 0 }
    ensures seat { IsSeatOf board.now seat.new }
    ensures passed { IfOk result (HasPassedOn S.owner F.values board.now seat.old worker.old seat.new worker.new) }
    ensures held { IfErr result (λ _. HasRelayedBack S.owner F.values board.now seat.old worker.old seat.new worker.new) }
    ensures none_uncounted { worker.new.uncounted ≡ 0 }
{
    let mut waits = 0;
    for _ in 0..passes {
        count_much(board, seat, worker);
        let sent = send_each(worker);
        let received = receive_each(worker)?;
        if let Received::SetAside = received {
            return Ok(false);
        }
        if sent || received == Received::Taken {
            continue;
        }
        if worker.owner().outboxes_in_use() == 0 || waits >= WAITS {
            return Ok(true);
        }
        waits += 1;
        thread::yield_now();
    }
    Ok(true)
}

/// Relays messages after turn `turn`, in which the outboxes were congested or not, as `pass_on` does, if that is due,
/// and counts what was taken. Returns false if a message was set aside, after which nothing else is done. If allocation
/// fails, the worker holds the message that could not be taken, and nothing else is done.
pub(crate) fn relay<'a, S: Spread + Drop, F: StateForm + Drop>(
    board: &Board,
    seat: &mut Seat,
    worker: &mut Worker<'a, S, F>,
    turn: u64,
    was_congested: bool,
) -> Result<bool, AllocError>
    requires seat { IsSeatOf board.now seat.old }
    requires none_aside { worker.old.misfits ≡ [] }
    requires none_uncounted { worker.old.uncounted ≡ 0 }
    ensures seat { IsSeatOf board.now seat.new }
    ensures relayed { IfOk result (HasRelayed S.owner F.values board.now seat.old worker.old seat.new worker.new) }
    ensures held { IfErr result (λ _. HasRelayedBack S.owner F.values board.now seat.old worker.old seat.new worker.new) }
    ensures none_uncounted { worker.new.uncounted ≡ 0 }
{
    let passes = passes_after(worker, turn, was_congested);
    if !pass_on(board, seat, worker, passes)? {
        return Ok(false);
    }
    worker.count_taken(board, seat);
    Ok(true)
}
