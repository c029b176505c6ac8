//! Mappings with the values of the tables of several columns, interleaved by column.

ghost use Rattle.std.specs.Prelude.{◌≡◌, ◌≢◌, ℕ, List, ◌+◌, ◌-◌, ◌<◌, ◌≤◌, min, map, length, slice_index, slice_index_or, true, false, Some, All, IfOk, IfSome};
ghost use Rattle.cost.specs.Distances.{Infinite};
ghost use Rattle.fdr.specs.Tasks.{ranges, IsState, step};
ghost use Rattle.abstraction_mapping.specs.Mappings.{is_mapping};
ghost use Rattle.abstraction_mapping.specs.Views.{mapping_of};
ghost use Rattle.scp_rows.specs.Moves.{AreIndices, AreMoved, AreTouched, AreTouches, IsEntered, IsShift, Keeps, sum_at};
ghost use Rattle.scp_rows.specs.Rows.{abstraction_of, word_of, word_in, word_at, lane_sum, added};

use crate::row::Row;
use abstraction_groups::{Change, FactoredAbstraction, Shift, shift_of};
use abstraction_mapping::{Mapping, TableAbstraction, TaskMapping};
use cert_value::Values;
use fdr::FdrTask;
use std::alloc::{AllocError, Global};
use std::marker::Model;

/// Returns rows of zeros.
fn zero_rows<R: Row>(alloc: Global, count: usize) -> Result<Vec<R>, AllocError>
    ensures len { IfOk result (λ rows. length rows.items ≡ count) }
    ensures zero { IfOk result (λ rows. (i lane : ℕ) → word_in (map R.words rows.items) i lane ≡ 0) }
{
    let mut rows = Vec::with_capacity(alloc, count)?;
    for index in 0..count {
        let _ = index;
        rows.push(R::zero())?;
    }
    Ok(rows)
}

/// Adds the words of the values to the rows in one lane.
fn add_values<R: Row>(rows: &mut [R], lane: usize, values: &Values)
    requires lane { lane < 8 }
    requires len { length values.now ≡ length rows.old }
    ensures len { length rows.new ≡ length rows.old }
    ensures lane { (i : ℕ) → i < length rows.old → word_in (map R.words rows.new) i lane
        ≡ min (word_in (map R.words rows.old) i lane + word_of R.most (slice_index_or values.now i Infinite)) R.most }
    ensures others { (i other : ℕ) → other ≢ lane →
        word_in (map R.words rows.new) i other ≡ word_in (map R.words rows.old) i other }
{
    for index in 0..rows.len() {
        rows[index].add_value(lane, values.get(index));
    }
}

/// Returns by how much an operator changes the number of an abstract state, if that is the same wherever it applies.
/// `changes` is a buffer.
fn shift_in<A: FactoredAbstraction>(
    abstraction: &A,
    operator: usize,
    changes: &mut Vec<Change>,
) -> Result<Option<Shift>, AllocError>
    ensures { IfOk result (λ found. IfSome found (λ s. (state next : List ℕ) → IsState (ranges (A.task abstraction.now)) state →
        step (A.task abstraction.now) state operator ≡ Some next →
        (A.abstraction abstraction.now).index next + s.less ≡ (A.abstraction abstraction.now).index state + s.more)) }
{
    if operator >= abstraction.task().operator_count() {
        return Ok(None);
    }
    changes.clear();
    changes.resize(abstraction.variables().len(), Change::Kept)?;
    Ok(shift_of(abstraction, operator, changes))
}

/// A mapping with a row for each abstract state.
#[derive(Drop)]
pub struct MappingRows<'a, R: Row> {
    mapping: TaskMapping<'a>,
    /// The abstraction by the mapping, which has the transitions.
    abstraction: TableAbstraction<'a>,
    rows: Vec<R>,
}

impl<'a, R: Row> Model for MappingRows<'a, R> {
    ghost use Rattle.std.specs.Prelude.{◌≡◌, map, length};
    ghost use Rattle.abstraction_mapping.specs.TaskMappings.{abstraction_for};
    ghost use Rattle.abstraction_mapping.specs.Views.{mapping_in, task_in};
    ghost use Rattle.scp_rows.specs.Rows as spec;

    ghost Value = { spec.MappingRows };

    ghost view = { λ p. record { task = p.mapping.task; mapping = p.mapping.mapping; rows = map R.words p.rows.items } };

    ghost invariant = { λ p.
        (length p.rows.items ≡ (abstraction_for p.mapping).size) ×
        (task_in p.abstraction ≡ p.mapping.task) ×
        (mapping_in p.abstraction ≡ p.mapping.mapping) };
}

impl<'a, R: Row> MappingRows<'a, R> {
    /// Returns a row of zeros for each abstract state of the abstraction by the mapping.
    pub(crate) fn new(
        alloc: Global,
        task: &'a FdrTask,
        mapping: &Mapping,
    ) -> Result<MappingRows<'a, R>, AllocError>
        requires { is_mapping task.now (mapping_of mapping.now) ≡ true }
        ensures task { IfOk result (λ p. p.task ≡ task.now) }
        ensures mapping { IfOk result (λ p. p.mapping ≡ mapping_of mapping.now) }
        ensures zero { IfOk result (λ p. (state : List ℕ) (lane : ℕ) → word_at state lane p ≡ 0) }
    {
        let Some(abstraction) = TableAbstraction::new(alloc, task, mapping)? else {
            unreachable!()
        };
        let mapping = TaskMapping::new(alloc, task, mapping)?;
        let rows = zero_rows(alloc, mapping.size())?;
        Ok(MappingRows {
            mapping,
            abstraction,
            rows,
        })
    }

    /// Returns whether the rows are those of this mapping.
    pub(crate) fn is_of(&self, mapping: &Mapping) -> bool
        ensures same { result ≡ true → self.now.mapping ≡ mapping_of mapping.now }
        ensures different { result ≡ false → self.now.mapping ≢ mapping_of mapping.now }
    {
        self.mapping.is_of(mapping)
    }

    /// Adds the values of a table in one lane.
    pub(crate) fn add_table(&mut self, lane: usize, values: &Values)
        requires lane { lane < 8 }
        requires len { length values.now ≡ (abstraction_of self.old).size }
        ensures task { self.new.task ≡ self.old.task }
        ensures mapping { self.new.mapping ≡ self.old.mapping }
        ensures words { (state : List ℕ) → IsState (ranges self.old.task) state → (other : ℕ) →
            min (word_at state other self.new) R.most
            ≡ min (word_at state other self.old + added R.most lane
            (slice_index_or values.now ((abstraction_of self.old).index state) Infinite) other) R.most }
    {
        add_values(&mut self.rows, lane, values);
    }

    /// Returns the abstract state of a state.
    pub(crate) fn index(&self, state: &[u32]) -> usize
        requires { IsState (ranges self.now.task) state.now }
        ensures { result ≡ (abstraction_of self.now).index state.now }
    {
        self.mapping.index(state)
    }

    /// Returns whether the operator may affect the abstraction.
    pub(crate) fn touches(&self, operator: usize) -> bool
        ensures { result ≡ false → Keeps self.now operator }
    {
        self.mapping.touches(operator)
    }

    /// Returns by how much an operator changes the number of an abstract state, if that is the same wherever it applies.
    /// `changes` is a buffer.
    pub(crate) fn shift_of(
        &self,
        operator: usize,
        changes: &mut Vec<Change>,
    ) -> Result<Option<Shift>, AllocError>
        ensures { IfOk result (λ found. IfSome found (IsShift self.now operator)) }
    {
        match &self.abstraction {
            TableAbstraction::Projection(projection) => shift_in(projection, operator, changes),
            TableAbstraction::Domain(domain) => shift_in(domain, operator, changes),
        }
    }

    /// Returns the row of the state that an operator with this shift reaches from `state`, whose abstract state is
    /// `index`.
    pub(crate) fn moved_row(&self, state: &[u32], operator: usize, index: usize, shift: Shift) -> &R
        requires state { IsState (ranges self.now.task) state.now }
        requires leads { (next : List ℕ) × (step self.now.task state.now operator ≡ Some next) }
        requires index { index ≡ (abstraction_of self.now).index state.now }
        requires shift { IsShift self.now operator shift }
        ensures { (next : List ℕ) → step self.now.task state.now operator ≡ Some next → (lane : ℕ) →
            slice_index (R.words result.now) lane ≡ word_at next lane self.now }
    {
        let _ = state;
        let _ = operator;
        &self.rows[shift.after(index)]
    }

    /// Returns the row of the state, whose abstract state is `index`.
    fn known_row(&self, index: usize, state: &[u32]) -> &R
        requires state { IsState (ranges self.now.task) state.now }
        requires index { index ≡ (abstraction_of self.now).index state.now }
        ensures { (lane : ℕ) → slice_index (R.words result.now) lane ≡ word_at state.now lane self.now }
    {
        let _ = state;
        &self.rows[index]
    }
}

/// Returns the sums of the rows of a state, lane by lane, capped at the greatest word.
pub(crate) fn sums<R: Row>(mappings: &[MappingRows<'_, R>], state: &[u32]) -> R
    requires { All (λ p. IsState (ranges p.task) state.now) mappings.now }
    ensures { (lane : ℕ) → slice_index (R.words result) lane ≡ min (lane_sum state.now lane mappings.now) R.most }
{
    let mut sums = R::zero();
    for mapping in mappings {
        sums.add(mapping.known_row(mapping.index(state), state));
    }
    sums
}

/// Computes the abstract states of a state, one for each mapping, and returns the sums of its rows, the same as `sums`.
pub(crate) fn enter<R: Row>(
    mappings: &[MappingRows<'_, R>],
    state: &[u32],
    indices: &mut [usize],
) -> R
    requires state { All (λ p. IsState (ranges p.task) state.now) mappings.now }
    requires len { length indices.old ≡ length mappings.now }
    ensures { IsEntered R.most mappings.now state.now indices.new (R.words result) }
{
    let mut sums = R::zero();
    for place in 0..mappings.len() {
        let index = mappings[place].index(state);
        indices[place] = index;
        sums.add(mappings[place].known_row(index, state));
    }
    sums
}

/// Subtracts the rows of an entered state, for the mappings at these indices.
pub(crate) fn subtract_rows<R: Row>(
    mappings: &[MappingRows<'_, R>],
    places: &[usize],
    entered: &[u32],
    indices: &[usize],
    sums: &mut R,
)
    requires places { All (λ k. k < length mappings.now) places.now }
    requires indices { AreIndices indices.now entered.now mappings.now }
    ensures { (lane : ℕ) → slice_index (R.words sums.new) lane ≡ slice_index (R.words sums.old) lane - sum_at entered.now lane mappings.now places.now }
{
    for place in places {
        sums.subtract(mappings[*place].known_row(indices[*place], entered));
    }
}

/// Adds the rows of a state, for the mappings at these indices. Sums are capped at the greatest word.
fn add_rows<R: Row>(mappings: &[MappingRows<'_, R>], places: &[usize], state: &[u32], sums: &mut R)
    requires places { All (λ k. k < length mappings.now) places.now }
    requires state { All (λ p. IsState (ranges p.task) state.now) mappings.now }
    requires sums { (lane : ℕ) → slice_index (R.words sums.old) lane ≤ R.most }
    ensures { (lane : ℕ) → slice_index (R.words sums.new) lane ≡ min (slice_index (R.words sums.old) lane + sum_at state.now lane mappings.now places.now) R.most }
{
    for place in places {
        let index = mappings[*place].index(state);
        sums.add(mappings[*place].known_row(index, state));
    }
}

/// Returns the sums of the rows of a successor of an entered state, the same as `sums`: those of the entered state with
/// the rows of the affected mappings exchanged. If a sum of the entered state is the greatest word, it may be capped,
/// and all rows are added anew.
pub(crate) fn sums_after<R: Row>(
    mappings: &[MappingRows<'_, R>],
    entered: &[u32],
    indices: &[usize],
    entered_sums: &R,
    touched: &[usize],
    state: &[u32],
) -> R
    requires state { All (λ p. IsState (ranges p.task) state.now) mappings.now }
    requires entered { IsEntered R.most mappings.now entered.now indices.now (R.words entered_sums.now) }
    requires moved { AreMoved mappings.now touched.now entered.now state.now }
    ensures { (lane : ℕ) → slice_index (R.words result) lane ≡ min (lane_sum state.now lane mappings.now) R.most }
{
    if !entered_sums.is_finite() {
        return sums(mappings, state);
    }
    // all rows are subtracted before one is added, because a sum that reaches the greatest word is not exact
    let mut after = *entered_sums;
    subtract_rows(mappings, touched, entered, indices, &mut after);
    add_rows(mappings, touched, state, &mut after);
    after
}

/// Returns the indices of the mappings that the operator affects, in increasing order.
fn touched_by<R: Row>(
    alloc: Global,
    mappings: &[MappingRows<'_, R>],
    operator: usize,
) -> Result<Vec<usize>, AllocError>
    ensures { IfOk result (λ touched. AreTouched mappings.now operator (length mappings.now) touched.items) }
{
    let mut touched = Vec::new(alloc);
    for place in 0..mappings.len() {
        if mappings[place].touches(operator) {
            touched.push(place)?;
        }
    }
    Ok(touched)
}

/// Returns, for each operator, the indices of the mappings that it affects.
pub(crate) fn touches<R: Row>(
    alloc: Global,
    mappings: &[MappingRows<'_, R>],
    count: usize,
) -> Result<Vec<Vec<usize>>, AllocError>
    ensures { IfOk result (λ touches. AreTouches count mappings.now touches.items) }
{
    let mut touches = Vec::with_capacity(alloc, count)?;
    for operator in 0..count {
        touches.push(touched_by(alloc, mappings, operator)?)?;
    }
    Ok(touches)
}
