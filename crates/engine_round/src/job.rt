//! The turns of one worker in a thread of its own.

ghost use Rattle.std.specs.Prelude.{◌≡◌};
ghost use Rattle.std.specs.Thread.{IsSync};
ghost use Rattle.board.specs.Seats.{IsSeatOf, view};

use crate::gate::Gate;
use crate::turns::Turns;
use crate::work::{Worked, work};
use board::{Board, Seat};
use packed::StateForm;
use packed_spread::Spread;
use std::marker::Model;
use std::snapshot::Snapshot;
use std::sync::Wait;
use std::thread::{Promise, PromisedHandle, Scope, Threads};
use std::time::Clock;
use worker::Worker;

/// A worker with a seat for a round.
#[derive(Drop)]
pub(crate) struct Job<'a, S: Spread + Drop, F: StateForm + Drop> {
    pub(crate) seat: Seat,
    /// The worker's number.
    pub(crate) number: usize,
    pub(crate) worker: Worker<'a, S, F>,
}

impl<'a, S: Spread + Drop, F: StateForm + Drop> Model for Job<'a, S, F> {
    ghost use Rattle.std.specs.Prelude.{◌≡◌};
    ghost use Rattle.engine_round.specs.Jobs.{JobOf};

    ghost Value = { JobOf S F };

    ghost view = { λ j. record { seat = j.seat; worker = j.worker } };

    ghost invariant = { λ j. j.number ≡ j.worker.owner.worker };
}

impl<'a, S: Spread + Drop + Send + Sync, F: StateForm + Drop + Send> Turns<Worked<'a, S, F>>
    for Job<'a, S, F> {
    ghost use Rattle.engine_round.specs.Jobs.{IsReady, HasDone};

    ghost is_ready = { IsReady };

    ghost has_done = { HasDone S.owner F.values };

    fn run<R: Wait + Clock, G: Gate>(self, rt: &R, board: &Board, gate: &G) -> Worked<'a, S, F> {
        let Job {
            seat,
            number,
            worker,
        } = self;
        work(rt, board, seat, number, worker, gate)
    }
}

/// The promise of a thread: the turns of this job are taken at this board, with this gate. Only for the proof.
#[derive(Drop)]
pub(crate) struct WorkOf<J: Drop, G: Gate> {
    board: Snapshot<Board>,
    job: Snapshot<J>,
    gate: Snapshot<G>,
}

impl<W, J: Turns<W>, G: Gate> Promise<W> for WorkOf<J, G> {
    ghost kept_by = { λ p r. J.has_done (G.may_stop p.gate.value) p.board.value p.job.value r };
}

/// A job that runs in a thread, or that was done at once because no thread could be made.
pub(crate) struct Begun<W, J: Turns<W>, G: Gate> {
    of: WorkOf<J, G>,
    run: Result<PromisedHandle<W, WorkOf<J, G>>, W>,
}

impl<W, J: Turns<W>, G: Gate> Model for Begun<W, J, G> {
    ghost use Rattle.std.specs.Prelude.{◌≡◌, IfOk, IfErr};
    ghost use Rattle.engine_round.specs.Jobs.{BegunOf};

    ghost Value = { BegunOf J G };

    ghost view = { λ x. record { board = x.of.board.value; job = x.of.job.value; gate = x.of.gate.value } };

    ghost invariant = { λ x.
        IfOk x.run (λ h. (h.promise.board.value ≡ x.of.board.value) × (h.promise.job.value ≡ x.of.job.value)
        × (h.promise.gate.value ≡ x.of.gate.value)) ×
        IfErr x.run (λ r. J.has_done (G.may_stop x.of.gate.value) x.of.board.value x.of.job.value r) };
}

/// Returns the promise for the job.
fn work_of<J: Drop, G: Gate>(board: &Board, job: &J, gate: &G) -> WorkOf<J, G>
    ensures { (result.board.value ≡ board.now) × (result.job.value ≡ job.now) × (result.gate.value ≡ gate.now) }
{
    WorkOf {
        board: Snapshot::of(board),
        job: Snapshot::of(job),
        gate: Snapshot::of(gate),
    }
}

/// Begins a job in a thread of the scope. If no thread can be made, ends the round through the caller's own seat, and
/// the worker takes one turn in the caller's thread.
pub(crate) fn begin<
    's,
    E: 's,
    R: Threads + Wait + Clock + Sync,
    W: Drop + Send + 's,
    J: Turns<W> + 's,
    G: Gate + Sync + 's,
>(
    rt: &'s R,
    scope: &'s Scope<'s, E>,
    board: &'s Board,
    own: &mut Seat,
    job: J,
    gate: &'s G,
) -> Begun<W, J, G>
    requires own { IsSeatOf board.now own.old }
    requires job { J.is_ready board.now job }
    ensures own { IsSeatOf board.now own.new × (view own.new ≡ view own.old) }
    ensures job { result ≡ record { board = board.now; job = job; gate = gate.now } }
{
    let of = work_of(board, &job, gate);
    let promise = work_of(board, &job, gate);
    let begun = scope.spawn_with(
        promise,
        move || -> W
            requires { IsSync R.row × J.is_ready board.now job }
            ensures { J.has_done (G.may_stop gate.entry.now) board.entry.now job result }
        { job.run(rt, board, gate) },
    );
    let run = match begun {
        Ok(handle) => Ok(handle),
        Err(refused) => {
            board.halt(own);
            Err((refused.value)())
        }
    };
    Begun { of, run }
}

impl<W, J: Turns<W>, G: Gate> Begun<W, J, G> {
    /// Waits until the turns were taken, and returns what is left after them.
    pub(crate) fn finish<R: Threads>(self, rt: &R) -> W
        ensures { J.has_done (G.may_stop self.gate) self.board self.job result }
    {
        let Begun { of: _, run } = self;
        match run {
            Ok(handle) => handle.join(rt),
            Err(worked) => worked,
        }
    }
}
