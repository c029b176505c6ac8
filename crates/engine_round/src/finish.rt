//! The end of a round: the seats are joined, and the board is closed.

ghost use Rattle.std.specs.Prelude.{◌≡◌, ◌≢◌, map, All, IfOk};
ghost use Rattle.cost.specs.Distances.{◌≤ᵈ◌};
ghost use Rattle.board.specs.Rule.{all_parts};
ghost use Rattle.board.specs.Seats.{IsSeatOf, view};
ghost use Rattle.engine_round.specs.Jobs.{HasMemory, joined_all};
ghost use Rattle.engine_round.specs.Rounds.{first_fault, earlier};

use crate::fault::TurnFault;
use crate::rounds::RoundEnd;
use crate::work::Worked;
use board::{Board, Seat};
use owner::OwnerFault;
use packed::StateForm;
use packed_spread::Spread;
use std::alloc::{AllocError, Global};
use worker::Worker;

/// Returns the fault, unless it is a failed allocation, which becomes `AllocError`.
fn unless_memory(fault: Option<TurnFault>) -> Result<Option<TurnFault>, AllocError>
    ensures { IfOk result (λ f. (f ≡ fault) × (fault ≢ Some (TurnFault.Owner OwnerFault.OutOfMemory))) }
{
    match fault {
        Some(TurnFault::Owner(OwnerFault::OutOfMemory)) => Err(AllocError),
        other => Ok(other),
    }
}

/// Returns the first fault so far, given that of the next worker.
fn earlier(
    first: Option<(usize, TurnFault)>,
    number: usize,
    fault: Option<TurnFault>,
) -> Option<(usize, TurnFault)>
    ensures { result ≡ earlier first number fault }
{
    match (first, fault) {
        (None, Some(fault)) => Some((number, fault)),
        _ => first,
    }
}

/// Joins the seats of all workers into the caller's, and returns it with the workers and the first fault. Fails if
/// allocation failed in a worker, or fails here.
fn gather<'a, S: Spread + Drop, F: StateForm + Drop>(
    alloc: Global,
    board: &Board,
    mut own: Seat,
    worked: Vec<Worked<'a, S, F>>,
) -> Result<(Seat, Vec<Worker<'a, S, F>>, Option<(usize, TurnFault)>), AllocError>
    requires own { IsSeatOf board.now own }
    requires seats { All (λ r. IsSeatOf board.now r.seat) worked.items }
    ensures own { IfOk result (λ r. IsSeatOf board.now r.0 × (view r.0 ≡ joined_all (view own) worked.entry.items)) }
    ensures workers { IfOk result (λ r. r.1.items ≡ map (λ w. w.worker) worked.entry.items) }
    ensures fault { IfOk result (λ r. r.2 ≡ first_fault 0 (map (λ w. w.fault) worked.entry.items)) }
    ensures memory { IfOk result (λ _. All HasMemory worked.entry.items) }
{
    let mut workers = Vec::with_capacity(alloc, worked.len())?;
    let mut first = None;
    for done in worked {
        let Worked {
            worker,
            seat,
            fault,
        } = done;
        board.join_seat(&mut own, seat);
        first = earlier(first, workers.len(), unless_memory(fault)?);
        workers.push(worker)?;
    }
    Ok((own, workers, first))
}

/// Ends a round, once all workers have taken their turns. Fails if allocation failed in a worker, or fails here.
pub(crate) fn finish<'a, S: Spread + Drop, F: StateForm + Drop>(
    alloc: Global,
    board: Board,
    own: Seat,
    worked: Vec<Worked<'a, S, F>>,
) -> Result<RoundEnd<'a, S, F>, AllocError>
    requires own { IsSeatOf board own }
    requires seats { All (λ r. IsSeatOf board r.seat) worked.items }
    requires parts { All HasMemory worked.items → (joined_all (view own) worked.items).parts ≡ all_parts }
    ensures best { IfOk result (λ r. r.best ≡ (joined_all (view own) worked.entry.items).offered) }
    ensures seen { IfOk result (λ r. r.best ≤ᵈ (joined_all (view own) worked.entry.items).seen) }
    ensures workers { IfOk result (λ r. r.workers ≡ map (λ w. w.worker) worked.entry.items) }
    ensures fault { IfOk result (λ r. r.fault ≡ first_fault 0 (map (λ w. w.fault) worked.entry.items)) }
    ensures memory { IfOk result (λ _. All HasMemory worked.entry.items) }
{
    let (own, workers, fault) = gather(alloc, &board, own, worked)?;
    let (best, _units) = board.close(own);
    Ok(RoundEnd {
        workers,
        best,
        fault,
    })
}
