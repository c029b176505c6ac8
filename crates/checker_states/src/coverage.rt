//! The clauses C6 and C8: the initial state and the successors of closed states are covered.

ghost use Rattle.std.specs.Prelude.{◌≡◌, ℕ, ◌-◌, ◌<◌, ◌≤◌, ◌^◌, min, not, false, All, length, slice_get, slice_index_or, option_map, Some, IfOk, IfSome};
ghost use Rattle.std.specs.List.{find};
ghost use Rattle.cost.specs.Distances.{IsWithin};
ghost use Rattle.fdr.specs.Tasks.{ranges, IsTask, IsState};
ghost use Rattle.checker_clauses.specs.Clauses.{is_covered};
ghost use Rattle.checker_clauses.specs.Violations.{IsMet, IsFoundIn};
ghost use Rattle.checker_pieces.specs.Pieces.{IsFirstIn};
ghost use Rattle.checker_tables.specs.Changes.{changes_of};
ghost use Rattle.checker_states.specs.Places.{passes_successor, IsFirstFailing, says_successor};

use crate::goals::reaches;
use crate::index::ClosedIndex;
use cert_value::{Certificate, ClosedList};
use checker_clauses::Violation;
use checker_pieces::first_in_pieces;
use checker_tables::{Heuristic, changes_of};
use cost::Dist;
use fdr::FdrTask;
use fdr_successors::SuccessorGenerator;
use std::alloc::{AllocError, Global};
use std::marker::Model;
use std::thread::Threads;

/// Proves that each cost is below 2^64, in time linear in the list. Only for the proof.
fn recall_costs(closed: &ClosedList)
    ensures { All (λ e. e.cost < 2 ^ 64) closed.now }
{
    for place in 0..closed.len() {
        closed.cost(place);
    }
}

/// Proves the invariant of a distance. Only for the proof.
fn recall_distance(distance: Dist)
    ensures { IsWithin (2 ^ 63) distance }
{
    distance.get();
}

/// The closed list of a certificate for a task, prepared for the test whether a state is covered: whether it is in the
/// list with at most its cost, or reaches the bound with the heuristic of the tables. In contracts its value is the
/// task and the certificate.
#[derive(Drop)]
pub struct Coverage<'a> {
    task: &'a FdrTask,
    certificate: &'a Certificate,
    index: ClosedIndex<'a>,
    generator: SuccessorGenerator<'a>,
    /// For each operator whether it can change a state.
    changes: Vec<bool>,
    heuristic: Heuristic<'a>,
}

impl<'a> Model for Coverage<'a> {
    ghost use Rattle.checker_states.specs.Coverings.{Covering, IsCovering};

    ghost Value = { Covering };

    ghost view = { λ c. record { task = c.task.now; certificate = c.certificate.now } };

    ghost invariant = { λ c. IsCovering c.task.now c.certificate.now c.index c.generator c.changes.items c.heuristic.task c.heuristic.columns };
}

impl<'a> Coverage<'a> {
    /// Prepares the closed list of the certificate, which must satisfy the clause C4. The index of a long list is built
    /// in parallel. Fails if allocation fails, or if the list has 2^32 states or more, which no certificate text can
    /// have.
    pub fn new<R: Threads + Sync>(
        rt: &R,
        alloc: Global,
        task: &'a FdrTask,
        certificate: &'a Certificate,
    ) -> Result<Coverage<'a>, AllocError>
        requires { IsMet task.now certificate.now 4 }
        ensures { IfOk result (λ c. (c.task ≡ task.now) × (c.certificate ≡ certificate.now)) }
    {
        task.recall();
        recall_costs(certificate.closed());
        recall_distance(certificate.bound());
        Ok(Coverage {
            task,
            certificate,
            index: ClosedIndex::new(rt, alloc, certificate.closed())?,
            generator: SuccessorGenerator::new(alloc, task)?,
            changes: changes_of(alloc, task)?,
            heuristic: Heuristic::new(alloc, task, certificate)?,
        })
    }

    /// Returns whether a state reached at this cost is covered. The cost 2^64 - 1 also represents every greater cost. A
    /// cost that reaches the bound by itself saves the look-up.
    fn is_covered(&self, state: &[u32], cost: u64) -> bool
        requires { IsState (ranges self.now.task) state.now }
        ensures { (total : ℕ) → cost ≡ min total (2 ^ 64 - 1)
            → result ≡ is_covered self.now.task self.now.certificate state.now total }
    {
        let bound = self.certificate.bound();
        if reaches(bound, cost) {
            return true;
        }
        self.index.is_listed(state, cost) || self.heuristic.reaches(state, cost, bound)
    }

    /// Returns the violation of the clause C6 if the initial state is not covered at the cost 0, and `None` if it is.
    pub fn start_violation(&self) -> Option<Violation>
        ensures { IsFoundIn self.now.task self.now.certificate 6 result }
    {
        if self.is_covered(self.task.initial(), 0) {
            None
        } else {
            Some(Violation::Start)
        }
    }

    /// Returns whether the operator with this number exists and can change a state.
    fn can_change(&self, operator: usize) -> bool
        ensures { result ≡ slice_index_or (changes_of self.now.task) operator false }
    {
        self.changes.get(operator).copied().unwrap_or(false)
    }

    /// Returns whether the successor of the closed state under the operator is covered, or true if there is none.
    /// `state` holds the values of that closed state; `successor` is a buffer. Under an operator that cannot change a
    /// state the successor is the closed state itself, which is in the list at no greater cost.
    fn covers(&self, place: usize, state: &[u32], operator: usize, successor: &mut [u32]) -> bool
        requires place { place < length self.now.certificate.closed }
        requires here { option_map (λ e. e.state) (slice_get self.now.certificate.closed place) ≡ Some state.now }
        requires state { IfSome (slice_get self.now.certificate.closed place) (λ e. IsState (ranges self.now.task) e.state) }
        requires buffer { length successor.old ≡ length self.now.task.value_names }
        ensures { result ≡ passes_successor self.now.task self.now.certificate place operator }
    {
        if !self.can_change(operator) {
            return true;
        }
        successor.copy_from_slice(state);
        if !self.task.apply(operator, successor) {
            return true;
        }
        let cost = self.task.cost(operator).get();
        let reached = self.certificate.closed().cost(place);
        self.is_covered(successor, reached.saturating_add(cost))
    }

    /// Returns the first of the operators under which the closed state has a successor that is not covered. `state`
    /// holds the values of that closed state; `successor` is a buffer.
    fn first_uncovered(
        &self,
        place: usize,
        state: &[u32],
        operators: &[usize],
        successor: &mut [u32],
    ) -> Option<usize>
        requires place { place < length self.now.certificate.closed }
        requires here { option_map (λ e. e.state) (slice_get self.now.certificate.closed place) ≡ Some state.now }
        requires state { IfSome (slice_get self.now.certificate.closed place) (λ e. IsState (ranges self.now.task) e.state) }
        requires buffer { length successor.old ≡ length self.now.task.value_names }
        ensures { result ≡ find (λ o. not (passes_successor self.now.task self.now.certificate place o)) operators.now }
    {
        for operator in operators {
            if !self.covers(place, state, *operator, successor) {
                return Some(*operator);
            }
        }
        None
    }

    /// Returns the first operator under which the closed state has a successor that is not covered. `operators`,
    /// `state` and `successor` are buffers.
    fn first_failing(
        &self,
        place: usize,
        operators: &mut Vec<usize>,
        state: &mut [u32],
        successor: &mut [u32],
    ) -> Result<Option<usize>, AllocError>
        requires place { place < length self.now.certificate.closed }
        requires state { IfSome (slice_get self.now.certificate.closed place) (λ e. IsState (ranges self.now.task) e.state) }
        requires unpacked { All (λ e. length e.state ≡ length state.old) self.now.certificate.closed }
        requires buffer { length successor.old ≡ length self.now.task.value_names }
        ensures found { IfOk result (IsFirstFailing (passes_successor self.now.task self.now.certificate place)) }
        ensures len { length state.new ≡ length state.old }
    {
        self.certificate.closed().copy_state(place, state);
        self.generator.applicable(state, operators)?;
        Ok(self.first_uncovered(place, state, operators, successor))
    }

    /// Returns the first successor that is not covered, over the closed states with the indices `start` to `end` - 1.
    /// `operators`, `state` and `successor` are buffers.
    fn first_failing_between(
        &self,
        start: usize,
        end: usize,
        operators: &mut Vec<usize>,
        state: &mut [u32],
        successor: &mut [u32],
    ) -> Result<Option<Violation>, AllocError>
        requires clause { IsMet self.now.task self.now.certificate 5 }
        requires end { end ≤ length self.now.certificate.closed }
        requires unpacked { All (λ e. length e.state ≡ length state.old) self.now.certificate.closed }
        requires buffer { length successor.old ≡ length self.now.task.value_names }
        ensures { IfOk result (IsFirstIn (says_successor self.now.task self.now.certificate) start end) }
    {
        for place in start..end {
            if let Some(operator) = self.first_failing(place, operators, state, successor)? {
                return Ok(Some(Violation::Successor(place, operator)));
            }
        }
        Ok(None)
    }

    /// Does the same as `first_failing_between`, with buffers of its own.
    fn first_in_piece(
        &self,
        alloc: Global,
        start: usize,
        end: usize,
    ) -> Result<Option<Violation>, AllocError>
        requires clause { IsMet self.now.task self.now.certificate 5 }
        requires end { end ≤ length self.now.certificate.closed }
        ensures { IfOk result (IsFirstIn (says_successor self.now.task self.now.certificate) start end) }
    {
        let mut operators = Vec::new(alloc);
        let mut state = self.certificate.closed().buffer(alloc)?;
        let mut successor = Vec::from_slice(alloc, self.task.initial())?;
        self.first_failing_between(start, end, &mut operators, &mut state, &mut successor)
    }

    /// Returns the first violation of the clause C8, a successor that is not covered, by the index of the closed state
    /// and then by the number of the operator; `None` if there is none. The certificate must satisfy the clause C5.
    /// Operators that cannot change a state are passed over, since the clause holds for them. A long closed list is cut
    /// into pieces, which as many threads as there are processors search in parallel; the result does not depend on the
    /// number of threads.
    pub fn first_successor_violation<R: Threads + Sync>(
        &self,
        rt: &R,
        alloc: Global,
    ) -> Result<Option<Violation>, AllocError>
        requires { IsMet self.now.task self.now.certificate 5 }
        ensures { IfOk result (λ found. IsFoundIn self.now.task self.now.certificate 8 found) }
    {
        let len = self.certificate.closed().len();
        first_in_pieces(
            rt,
            alloc,
            len,
            &|start: usize, end: usize| -> Result<Option<Violation>, AllocError>
                requires clause { IsMet self.now.task self.now.certificate 5 }
                requires end { end ≤ length self.now.certificate.closed }
                ensures { IfOk result (IsFirstIn (says_successor self.entry.now.task self.entry.now.certificate) start end) }
            { self.first_in_piece(alloc, start, end) },
        )
    }
}
