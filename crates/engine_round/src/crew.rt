//! The workers of a round, in threads.

ghost use Rattle.std.specs.Prelude.{◌≡◌, ◌<◌, ◌≤◌, ◌++◌, ◌∷◌, [], All, IfOk, vec_len, vec_capacity};
ghost use Rattle.std.specs.List.{AllZip};
ghost use Rattle.std.specs.Thread.{IsSync};
ghost use Rattle.board.specs.Seats.{IsSeatOf, view};

use crate::gate::Gate;
use crate::job::begin;
use crate::turns::Turns;
use board::{Board, Seat};
use std::alloc::{AllocError, Global};
use std::sync::Wait;
use std::thread;
use std::thread::{Scope, Threads};
use std::time::Clock;

/// Appends what is left after the turns of a job; there must be room for it.
fn with_next<W: Drop>(mut worked: Vec<W>, next: W) -> Vec<W>
    requires { vec_len worked < vec_capacity worked }
    ensures items { result.items ≡ worked.items ++ next ∷ [] }
    ensures room { vec_capacity worked ≤ vec_capacity result }
{
    let Ok(()) = worked.push(next) else {
        unreachable!() // there is room
    };
    worked
}

/// Runs the turns of all jobs, each in a thread of the scope, except that those of the first job are taken in the
/// caller's thread. So the last job begins first, and the threads are joined in the order of the jobs. `own` is the
/// caller's seat.
fn work_with<
    's,
    E: 's,
    R: Threads + Wait + Clock + Sync,
    W: Drop + Send + 's,
    J: Turns<W> + 's,
    G: Gate + Sync + 's,
>(
    rt: &'s R,
    scope: &'s Scope<'s, E>,
    board: &'s Board,
    own: &mut Seat,
    mut jobs: Vec<J>,
    worked: Vec<W>,
    gate: &'s G,
) -> Vec<W>
    requires own { IsSeatOf board.now own.old }
    requires jobs { All (J.is_ready board.now) jobs.items }
    requires room { (worked.items ≡ []) × (vec_len jobs ≤ vec_capacity worked) }
    ensures own { IsSeatOf board.now own.new × (view own.new ≡ view own.old) }
    ensures worked { AllZip (J.has_done (G.may_stop gate.now) board.now) jobs.items result.items }
    ensures room { vec_capacity worked ≤ vec_capacity result }
{
    let Some(job) = jobs.pop() else {
        return worked;
    };
    if jobs.is_empty() {
        return with_next(worked, job.run(rt, board, gate));
    }
    let begun = begin(rt, scope, board, own, job, gate);
    let worked = work_with(rt, scope, board, own, jobs, worked, gate);
    with_next(worked, begun.finish(rt))
}

/// As `work_with`. If allocation fails, no thread was begun.
fn work_in<
    's,
    E: 's,
    R: Threads + Wait + Clock + Sync,
    W: Drop + Send + 's,
    J: Turns<W> + 's,
    G: Gate + Sync + 's,
>(
    rt: &'s R,
    alloc: Global,
    scope: &'s Scope<'s, E>,
    board: &'s Board,
    mut own: Seat,
    jobs: Vec<J>,
    gate: &'s G,
) -> Result<(Seat, Vec<W>), AllocError>
    requires own { IsSeatOf board.now own }
    requires jobs { All (J.is_ready board.now) jobs.items }
    ensures own { IfOk result (λ r. IsSeatOf board.now r.0 × (view r.0 ≡ view own)) }
    ensures worked { IfOk result (λ r. AllZip (J.has_done (G.may_stop gate.now) board.now) jobs.items r.1.items) }
{
    let worked = Vec::with_capacity(alloc, jobs.len())?;
    let worked = work_with(rt, scope, board, &mut own, jobs, worked, gate);
    Ok((own, worked))
}

/// Runs the turns of all jobs of a round, each in a thread of its own. Returns what is left after them and the caller's
/// seat. If allocation fails, no thread was begun.
pub(crate) fn work_each<
    R: Threads + Wait + Clock + Sync,
    W: Drop + Send,
    J: Turns<W>,
    G: Gate + Sync,
>(
    rt: &R,
    alloc: Global,
    board: &Board,
    own: Seat,
    jobs: Vec<J>,
    gate: &G,
) -> Result<(Seat, Vec<W>), AllocError>
    requires own { IsSeatOf board.now own }
    requires jobs { All (J.is_ready board.now) jobs.items }
    ensures own { IfOk result (λ r. IsSeatOf board.now r.0 × (view r.0 ≡ view own)) }
    ensures worked { IfOk result (λ r. AllZip (J.has_done (G.may_stop gate.now) board.now) jobs.items r.1.items) }
{
    thread::scope(
        thread::scope_env(),
        rt,
        move |scope| -> Result<(Seat, Vec<W>), AllocError>
            requires { IsSync R.row × IsSeatOf board.now own × All (J.is_ready board.now) jobs.items }
            ensures own { IfOk result (λ r. IsSeatOf board.entry.now r.0 × (view r.0 ≡ view own)) }
            ensures worked { IfOk result (λ r. AllZip (J.has_done (G.may_stop gate.entry.now) board.entry.now) jobs.items r.1.items) }
        { work_in(rt, alloc, scope, board, own, jobs, gate) },
    )
}
