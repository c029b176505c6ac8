//! The start of a round: a board, a seat at it for the caller, and a job for each worker.

ghost use Rattle.std.specs.Prelude.{◌≡◌, ◌<◌, [], map, All, IfOk, length, vec_len};
ghost use Rattle.board.specs.Rule.{first_view};
ghost use Rattle.board.specs.Seats.{IsSeatOf, view};
ghost use Rattle.engine_round.specs.Jobs.{IsOpened, AreNumbered, AreSetUp};

use crate::job::Job;
use crate::seats::split_seats;
use board::{Board, Seat};
use cost::Dist;
use packed::StateForm;
use packed_spread::Spread;
use std::alloc::{AllocError, Global};
use worker::Worker;

/// Returns the units of work at the start of a round, modulo 2^64: one for each worker, and one for each message in an
/// outbox.
fn units_of<S: Spread + Drop, F: StateForm + Drop>(workers: &[Worker<'_, S, F>]) -> u64 {
    let mut units = 0u64;
    for worker in workers {
        let messages = worker.owner().messages() % (1 << 64);
        units = units.wrapping_add(1).wrapping_add(messages as u64);
    }
    units
}

/// Opens a board for a round: offers and reads the least cost that was offered in earlier rounds, so that each seat
/// split from this one has seen it; and adds the units.
fn open(board: &Board, seat: &mut Seat, best: Dist, units: u64)
    requires { IsSeatOf board.now seat.old × (view seat.old ≡ first_view) }
    ensures seat { IsSeatOf board.now seat.new }
    ensures view { IsOpened best (view seat.new) }
{
    board.offer(seat, best);
    board.look(seat);
    board.add(seat, units);
}

/// Returns a job for each worker, with the seat of the same index, which is the worker's number.
fn jobs_of<'a, S: Spread + Drop, F: StateForm + Drop>(
    alloc: Global,
    seats: Vec<Seat>,
    workers: Vec<Worker<'a, S, F>>,
) -> Result<Vec<Job<'a, S, F>>, AllocError>
    requires seats { vec_len seats ≡ vec_len workers }
    requires numbered { AreNumbered 0 workers.items }
    ensures seats { IfOk result (λ jobs. map (λ j. j.seat) jobs.items ≡ seats.items) }
    ensures workers { IfOk result (λ jobs. map (λ j. j.worker) jobs.items ≡ workers.entry.items) }
{
    let mut jobs = Vec::with_capacity(alloc, workers.len())?;
    for (seat, worker) in seats.into_iter().zip(workers) {
        let number = jobs.len();
        jobs.push(Job {
            seat,
            number,
            worker,
        })?;
    }
    Ok(jobs)
}

/// Opens the board, and splits its seat into one for the caller and one for each worker.
pub(crate) fn set_up<'a, S: Spread + Drop, F: StateForm + Drop>(
    alloc: Global,
    board: &Board,
    mut seat: Seat,
    best: Dist,
    workers: Vec<Worker<'a, S, F>>,
) -> Result<(Seat, Vec<Job<'a, S, F>>), AllocError>
    requires some { 0 < length workers.items }
    requires none_aside { All (λ w. w.misfits ≡ []) workers.items }
    requires numbered { AreNumbered 0 workers.items }
    requires seat { IsSeatOf board.now seat × (view seat ≡ first_view) }
    ensures { IfOk result (λ r. AreSetUp board.now best workers.entry.items r.0 r.1.items) }
{
    open(board, &mut seat, best, units_of(&workers));
    let other = board.split_seat(&mut seat);
    let seats = split_seats(alloc, board, other, workers.len())?;
    let jobs = jobs_of(alloc, seats, workers)?;
    Ok((seat, jobs))
}
