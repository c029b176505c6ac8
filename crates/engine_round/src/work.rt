//! The turns of one worker in a round.

ghost use Rattle.std.specs.Prelude.{◌≡◌, [], Some, IfOk, IfErr};
ghost use Rattle.board.specs.Seats.{IsSeatOf, view};
ghost use Rattle.worker.specs.Turns.{IsTurn};
ghost use Rattle.engine_round.specs.Turns.{IsTurnFault, HasStepped, HasWorked};

use crate::fault::TurnFault;
use crate::gate::Gate;
use crate::pause::Pause;
use crate::progress::progress_of;
use crate::relay::relay;
use board::{Board, Seat};
use owner::OwnerFault;
use packed::StateForm;
use packed_spread::Spread;
use std::alloc::AllocError;
use std::marker::Model;
use std::sync::Wait;
use std::time::Clock;
use worker::{Turn, Worker};

/// A worker after its turns in a round.
#[derive(Drop)]
pub(crate) struct Worked<'a, S: Spread + Drop, F: StateForm + Drop> {
    pub(crate) worker: Worker<'a, S, F>,
    pub(crate) seat: Seat,
    /// The fault that ended its turns, if one did.
    pub(crate) fault: Option<TurnFault>,
}

impl<'a, S: Spread + Drop, F: StateForm + Drop> Model for Worked<'a, S, F> {
    ghost use Rattle.engine_round.specs.Turns.{WorkedOf};

    ghost Value = { WorkedOf S F };

    ghost view = { λ w. record { worker = w.worker; seat = w.seat; fault = w.fault } };
}

/// Asks the gate, and takes a turn unless it ends the search: then the worker reads the bound and does nothing else.
/// `number` is the worker's number, and `turn` the turn's in the round.
fn take_turn<'a, S: Spread + Drop, F: StateForm + Drop, G: Gate>(
    board: &Board,
    seat: &mut Seat,
    number: usize,
    worker: &mut Worker<'a, S, F>,
    gate: &G,
    turn: u64,
) -> Result<Turn, TurnFault>
    requires seat { IsSeatOf board.now seat.old }
    requires number { number ≡ worker.old.owner.worker }
    requires none_aside { worker.old.misfits ≡ [] }
    requires none_uncounted { worker.old.uncounted ≡ 0 }
    requires none_taken { worker.old.taken ≡ 0 }
    ensures seat { IsSeatOf board.now seat.new }
    ensures turned { IfOk result (IsTurn S.owner F.values worker.old worker.new (view seat.old) (view seat.new)) }
    ensures fault { IfErr result (IsTurnFault S.owner F.values (G.may_stop gate.now) worker.old worker.new (view seat.old) (view seat.new)) }
    ensures none_uncounted { worker.new.uncounted ≡ 0 }
{
    let progress = progress_of(worker);
    if let Err(stop) = gate.turn(number, turn, progress) {
        worker.look(board, seat); // the bound that it read last may be that of an earlier round
        return Err(TurnFault::Gate(turn, stop));
    }
    worker.turn(board, seat).map_err(TurnFault::Owner)
}

/// Takes a turn. If another is to follow, relays messages as is due after turn `turn`; if none is to follow, ends the
/// round for all workers, unless the round was ended or no units of work are left. Returns whether another turn is to
/// follow. `number` is the worker's number, and `turn` the turn's in the round. Fails with the fault that ends the
/// worker's turns.
fn take_step<'a, S: Spread + Drop, F: StateForm + Drop, G: Gate>(
    board: &Board,
    seat: &mut Seat,
    number: usize,
    worker: &mut Worker<'a, S, F>,
    gate: &G,
    turn: u64,
) -> Result<bool, TurnFault>
    requires seat { IsSeatOf board.now seat.old }
    requires number { number ≡ worker.old.owner.worker }
    requires none_aside { worker.old.misfits ≡ [] }
    requires none_uncounted { worker.old.uncounted ≡ 0 }
    requires none_taken { worker.old.taken ≡ 0 }
    ensures stepped { IfOk result (HasStepped S.owner F.values (G.may_stop gate.now) board.now seat.old worker.old seat.new worker.new) }
    ensures fault { IfErr result (λ fault. HasWorked S.owner F.values (G.may_stop gate.now) board.now seat.old worker.old
        (record { worker = worker.new; seat = seat.new; fault = Some fault })) }
{
    let was_congested = worker.is_congested();
    match take_turn(board, seat, number, worker, gate, turn) {
        Ok(Turn::Next) => match relay(board, seat, worker, turn, was_congested) {
            Ok(true) => Ok(true),
            Ok(false) => {
                board.halt(seat);
                Ok(false)
            }
            Err(AllocError) => {
                board.halt(seat);
                Err(TurnFault::Owner(OwnerFault::OutOfMemory))
            }
        },
        Ok(Turn::Last) => Ok(false),
        Ok(Turn::Misfit) => {
            board.halt(seat);
            Ok(false)
        }
        Err(fault) => {
            board.halt(seat);
            Err(fault)
        }
    }
}

/// Takes turns until no units of work are left or the round is ended, and relays messages between them. A message that
/// is not for the worker, a fault, and the gate, which is asked before each turn of this worker, end the round for all
/// workers. `number` is the worker's number.
pub(crate) fn work<'a, R: Wait + Clock, S: Spread + Drop, F: StateForm + Drop, G: Gate>(
    rt: &R,
    board: &Board,
    mut seat: Seat,
    number: usize,
    mut worker: Worker<'a, S, F>,
    gate: &G,
) -> Worked<'a, S, F>
    requires seat { IsSeatOf board.now seat }
    requires number { number ≡ worker.owner.worker }
    requires none_aside { worker.misfits ≡ [] }
    ensures { HasWorked S.owner F.values (G.may_stop gate.now) board.now seat worker.entry result }
{
    let mut pause = Pause::new();
    let mut turn = 0u64;
    worker.begin_round();
    for _ in rt.forever() {
        turn = turn.saturating_add(1);
        let fault = match take_step(board, &mut seat, number, &mut worker, gate, turn) {
            Ok(true) => {
                pause.after(rt, worker.is_resting());
                continue;
            }
            Ok(false) => None,
            Err(fault) => Some(fault),
        };
        return Worked {
            worker,
            seat,
            fault,
        };
    }
    unreachable!()
}
