//! The clause C5: closed states are states of the task, in strictly increasing lexicographic order.

ghost use Rattle.std.specs.Prelude.{◌≡◌, ◌<◌, ◌≤◌, All, length, IfOk};
ghost use Rattle.fdr.specs.Tasks.{ranges};
ghost use Rattle.checker_clauses.specs.Clauses as spec;
ghost use Rattle.checker_clauses.specs.Violations.{IsFoundIn};
ghost use Rattle.checker_pieces.specs.Pieces.{IsFirstIn};
ghost use Rattle.checker_states.specs.Places.{passes_state, says_state};

use cert_value::{Certificate, ClosedList};
use checker_clauses::Violation;
use checker_pieces::first_in_pieces;
use fdr::FdrTask;
use std::alloc::{AllocError, Global};
use std::thread::Threads;

/// Returns whether the state has for each variable a value below its range.
fn is_state(task: &FdrTask, state: &[u32]) -> bool
    ensures { result ≡ spec.is_state (ranges task.now) state.now }
{
    if state.len() != task.variable_count() {
        return false;
    }
    for variable in 0..state.len() {
        if state[variable] as usize >= task.range(variable) {
            return false;
        }
    }
    true
}

/// Returns whether the first state is lexicographically less than the second.
fn comes_before(first: &[u32], second: &[u32]) -> bool
    ensures { result ≡ spec.comes_before first.now second.now }
{
    first < second
}

/// Returns whether the closed state is a state of the task and lexicographically greater than the one before it.
/// `state` and `before` are buffers of the width of the closed states.
fn passes_at(
    task: &FdrTask,
    closed: &ClosedList,
    place: usize,
    state: &mut [u32],
    before: &mut [u32],
) -> bool
    requires place { place < length closed.now }
    requires state { All (λ e. length e.state ≡ length state.old) closed.now }
    requires before { All (λ e. length e.state ≡ length before.old) closed.now }
    ensures passes { result ≡ passes_state task.now closed.now place }
    ensures state { length state.new ≡ length state.old }
    ensures before { length before.new ≡ length before.old }
{
    closed.copy_state(place, state);
    if place == 0 {
        return is_state(task, state);
    }
    closed.copy_state(place - 1, before);
    is_state(task, state) && comes_before(before, state)
}

/// Returns the first violation of the clause by the closed states with the indices `start` to `end` - 1. `state` and
/// `before` are buffers of the width of the closed states.
fn first_failing(
    task: &FdrTask,
    certificate: &Certificate,
    start: usize,
    end: usize,
    state: &mut [u32],
    before: &mut [u32],
) -> Option<Violation>
    requires end { end ≤ length certificate.now.closed }
    requires state { All (λ e. length e.state ≡ length state.old) certificate.now.closed }
    requires before { All (λ e. length e.state ≡ length before.old) certificate.now.closed }
    ensures { IsFirstIn (says_state task.now certificate.now) start end result }
{
    let closed = certificate.closed();
    for place in start..end {
        if !passes_at(task, closed, place, state, before) {
            return Some(Violation::ClosedState(place));
        }
    }
    None
}

/// Does the same as `first_failing`, with buffers of its own.
fn first_in_piece(
    alloc: Global,
    task: &FdrTask,
    certificate: &Certificate,
    start: usize,
    end: usize,
) -> Result<Option<Violation>, AllocError>
    requires { end ≤ length certificate.now.closed }
    ensures { IfOk result (IsFirstIn (says_state task.now certificate.now) start end) }
{
    let mut state = certificate.closed().buffer(alloc)?;
    let mut before = certificate.closed().buffer(alloc)?;
    Ok(first_failing(task, certificate, start, end, &mut state, &mut before))
}

/// Returns the first violation of the clause C5: the index of the first closed state that is not a state of the task,
/// or not lexicographically greater than the one before it; `None` if there is none. A long list is searched in
/// parallel.
pub fn first_closed_violation<R: Threads + Sync>(
    rt: &R,
    alloc: Global,
    task: &FdrTask,
    certificate: &Certificate,
) -> Result<Option<Violation>, AllocError>
    ensures { IfOk result (λ found. IsFoundIn task.now certificate.now 5 found) }
{
    first_in_pieces(
        rt,
        alloc,
        certificate.closed().len(),
        &|start: usize, end: usize| -> Result<Option<Violation>, AllocError>
            requires { end ≤ length certificate.now.closed }
            ensures { IfOk result (IsFirstIn (says_state task.entry.now certificate.entry.now) start end) }
        { first_in_piece(alloc, task, certificate, start, end) },
    )
}
