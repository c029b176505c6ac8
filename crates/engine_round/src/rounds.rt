//! A round of workers in threads.

ghost use Rattle.std.specs.Prelude.{◌≡◌, ◌<◌, [], map, length, All, IfOk};
ghost use Rattle.cost.specs.Distances.{◌≤ᵈ◌, least};
ghost use Rattle.engine_round.specs.Jobs.{AreNumbered};
ghost use Rattle.engine_round.specs.Rounds.{IsRound};

use crate::crew::work_each;
use crate::fault::TurnFault;
use crate::finish::finish;
use crate::gate::Gate;
use crate::start::set_up;
use board::Board;
use cost::Dist;
use packed::StateForm;
use packed_spread::Spread;
use std::alloc::{AllocError, Global};
use std::marker::Model;
use std::sync::Wait;
use std::thread::Threads;
use std::time::Clock;
use worker::Worker;

/// The end of a round.
#[derive(Drop)]
pub struct RoundEnd<'a, S: Spread + Drop, F: StateForm + Drop> {
    /// The workers, in the order in which they were passed.
    pub workers: Vec<Worker<'a, S, F>>,
    /// The least cost that any of them has ever offered.
    pub best: Dist,
    /// The first fault that ended the turns of a worker, with the worker's index, if there was one. It is never a
    /// failed allocation.
    pub fault: Option<(usize, TurnFault)>,
}

impl<'a, S: Spread + Drop, F: StateForm + Drop> Model for RoundEnd<'a, S, F> {
    ghost use Rattle.engine_round.specs.Rounds.{RoundEndOf};

    ghost Value = { RoundEndOf S F };

    ghost view = { λ r. record { workers = r.workers.items; best = r.best; fault = r.fault } };
}

/// Runs a round: each worker takes turns in a thread of its own, the first one in the caller's, until no units of work
/// are left or one of them ends the round, by a fault or by a message that is not for it. The gate is asked before each
/// turn, and may end the round too. The workers must be in the order of their numbers, and `best` is the least cost
/// that any of them has offered so far. If a thread cannot be made, its worker takes one turn in the caller's thread
/// and the round ends.
///
/// The contract states neither that the gate is asked before each turn nor when the turns end.
///
/// Fails if allocation fails, also in a worker; then the workers are lost. Any other fault of a worker is in the
/// result.
pub fn round<
    'a,
    R: Threads + Wait + Clock + Sync,
    S: Spread + Drop + Send + Sync,
    F: StateForm + Drop + Send,
    G: Gate + Sync,
>(
    rt: &R,
    alloc: Global,
    best: Dist,
    workers: Vec<Worker<'a, S, F>>,
    gate: &G,
) -> Result<RoundEnd<'a, S, F>, AllocError>
    requires some { 0 < length workers.items }
    requires none_aside { All (λ w. w.misfits ≡ []) workers.items }
    requires numbered { AreNumbered 0 workers.items }
    requires least { best ≡ least (map (λ w. w.offered) workers.items) }
    requires bounded { All (λ w. best ≤ᵈ w.seen) workers.items }
    ensures { IfOk result (IsRound S.owner F.values (G.may_stop gate.now) workers.entry.items) }
{
    let (board, seat) = Board::new(alloc)?;
    let (own, jobs) = set_up(alloc, &board, seat, best, workers)?;
    let (own, worked) = work_each(rt, alloc, &board, own, jobs, gate)?;
    let end = finish(alloc, board, own, worked)?;
    Ok(end)
}
