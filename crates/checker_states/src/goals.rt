//! The clause C7: closed goal states cost at least the bound.

ghost use Rattle.std.specs.Prelude.{◌≡◌, ◌<◌, ◌≤◌, All, length, slice_get, IfOk, IfSome};
ghost use Rattle.cost.specs.Distances.{Finite, is_at_most};
ghost use Rattle.fdr.specs.Tasks.{ranges, IsState};
ghost use Rattle.checker_clauses.specs.Violations.{IsMet, IsFoundIn};
ghost use Rattle.checker_pieces.specs.Pieces.{IsFirstIn};
ghost use Rattle.checker_states.specs.Places.{passes_goal, says_goal};

use cert_value::Certificate;
use checker_clauses::Violation;
use checker_pieces::first_in_pieces;
use cost::Dist;
use fdr::FdrTask;
use std::alloc::{AllocError, Global};
use std::thread::Threads;

/// Returns whether a cost is at least the bound.
pub(crate) fn reaches(bound: Dist, cost: u64) -> bool
    ensures { result ≡ is_at_most bound (Finite cost) }
{
    match bound.get() {
        Some(bound) => bound <= cost,
        None => false,
    }
}

/// Returns whether the closed state costs at least the bound, or true if it is no goal state. `state` is a buffer of
/// the width of the closed states.
fn passes_at(task: &FdrTask, certificate: &Certificate, place: usize, state: &mut [u32]) -> bool
    requires place { place < length certificate.now.closed }
    requires state { IfSome (slice_get certificate.now.closed place) (λ e. IsState (ranges task.now) e.state) }
    requires buffer { All (λ e. length e.state ≡ length state.old) certificate.now.closed }
    ensures passes { result ≡ passes_goal task.now certificate.now place }
    ensures len { length state.new ≡ length state.old }
{
    let closed = certificate.closed();
    closed.copy_state(place, state);
    !task.is_goal(state) || reaches(certificate.bound(), closed.cost(place))
}

/// Returns the first violation of the clause by the closed states with the indices `start` to `end` - 1. `state` is a
/// buffer of the width of the closed states.
fn first_failing(
    task: &FdrTask,
    certificate: &Certificate,
    start: usize,
    end: usize,
    state: &mut [u32],
) -> Option<Violation>
    requires clause { IsMet task.now certificate.now 5 }
    requires end { end ≤ length certificate.now.closed }
    requires buffer { All (λ e. length e.state ≡ length state.old) certificate.now.closed }
    ensures { IsFirstIn (says_goal task.now certificate.now) start end result }
{
    for place in start..end {
        if !passes_at(task, certificate, place, state) {
            return Some(Violation::ClosedGoal(place));
        }
    }
    None
}

/// Does the same as `first_failing`, with a buffer of its own.
fn first_in_piece(
    alloc: Global,
    task: &FdrTask,
    certificate: &Certificate,
    start: usize,
    end: usize,
) -> Result<Option<Violation>, AllocError>
    requires clause { IsMet task.now certificate.now 5 }
    requires end { end ≤ length certificate.now.closed }
    ensures { IfOk result (IsFirstIn (says_goal task.now certificate.now) start end) }
{
    let mut state = certificate.closed().buffer(alloc)?;
    Ok(first_failing(task, certificate, start, end, &mut state))
}

/// Returns the first violation of the clause C7, a goal state that costs less than the bound, by the index of the
/// closed state; `None` if there is none. The certificate must satisfy the clause C5. A long list is searched in
/// parallel.
pub fn first_goal_violation<R: Threads + Sync>(
    rt: &R,
    alloc: Global,
    task: &FdrTask,
    certificate: &Certificate,
) -> Result<Option<Violation>, AllocError>
    requires { IsMet task.now certificate.now 5 }
    ensures { IfOk result (λ found. IsFoundIn task.now certificate.now 7 found) }
{
    first_in_pieces(
        rt,
        alloc,
        certificate.closed().len(),
        &|start: usize, end: usize| -> Result<Option<Violation>, AllocError>
            requires clause { IsMet task.now certificate.now 5 }
            requires end { end ≤ length certificate.now.closed }
            ensures { IfOk result (IsFirstIn (says_goal task.entry.now certificate.entry.now) start end) }
        { first_in_piece(alloc, task, certificate, start, end) },
    )
}
