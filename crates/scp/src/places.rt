//! A state's indices into the tables of columns.

ghost use Rattle.std.specs.Prelude.{◌≡◌, ℕ, List, ◌^◌, ◌<◌, length, true, Some, All, IfOk, IfSome};
ghost use Rattle.cost.specs.Distances.{IsWithin};
ghost use Rattle.fdr.specs.Tasks.{ranges, step, IsState, applies_at};
ghost use Rattle.checker_clauses.specs.Clauses.{heuristic_of};
ghost use Rattle.scp_rows.specs.Flats.{most_in, blocks_in, words_in};
ghost use Rattle.scp_rows.specs.Moves.{AreMoved, AreMoves, AreMovesOf, AreTouches, IsEntered, StepsTo, first_rows};
ghost use Rattle.scp_rows.specs.Rows.{AreOf, blocks_value};

use crate::columns::Columns;
use cost::Dist;
use fdr::FdrTask;
use scp_rows::{
    BlockSums, Flat, Move, enter_flat, flat_value_after, flat_value_moved, mapping_count,
};
use std::alloc::{AllocError, Global};
use std::marker::Model;

/// Caches a state's table indices and sums, from which the heuristic of a successor is computed by what its operator
/// changes. The same value is used for one state after the other. In contracts its value is the task, the tables and
/// the state.
#[derive(Drop)]
pub struct Places<'a> {
    columns: &'a Columns<'a>,
    flat: &'a Flat<'a>,
    touches: &'a [Vec<usize>],
    moves: &'a [Option<Vec<Move>>],
    state: Vec<u32>,
    /// The values of a successor. This is a buffer.
    next: Vec<u32>,
    /// The abstract states of the state, one for each mapping of the first block, once they are computed.
    indices: Vec<usize>,
    /// The sums of the rows of the state in the first block, once they are computed.
    sums: Option<BlockSums>,
    ghost flat_of_task: { All (λ b. AreOf columns.now.task b.items) (blocks_in flat.now) },
    ghost flat_value: { (s : List ℕ) → IsState (ranges columns.now.task) s →
        blocks_value (most_in flat.now) s (blocks_in flat.now) ≡ heuristic_of columns.now.task columns.now.columns s },
    ghost touches_are: { AreTouches (length columns.now.task.operators) (first_rows (blocks_in flat.now)) touches.now },
    ghost moves_are: { AreMoves (first_rows (blocks_in flat.now)) touches.now moves.now },
}

impl<'a> Model for Places<'a> {
    ghost use Rattle.std.specs.Prelude.{◌≡◌, length};
    ghost use Rattle.scp.specs.Places.{PlacesOf, AreEntered};

    ghost Value = { PlacesOf };

    ghost view = { λ p. record { task = p.columns.now.task; columns = p.columns.now.columns; state = p.state.items } };

    ghost invariant = { λ p.
        AreEntered p.columns.now.task p.flat.now p.state.items p.indices.items p.sums ×
        (length p.next.items ≡ length p.state.items) };
}

/// Computes the abstract states of a state, one for each mapping of the first block, and returns the sums of its rows
/// there. If `sums` is given, both are already computed.
fn enter_once(
    flat: &Flat<'_>,
    state: &[u32],
    indices: &mut [usize],
    sums: Option<BlockSums>,
) -> BlockSums
    requires state { All (λ p. IsState (ranges p.task) state.now) (first_rows (blocks_in flat.now)) }
    requires len { length indices.old ≡ length (first_rows (blocks_in flat.now)) }
    requires entered { IfSome sums (λ s. IsEntered (most_in flat.now) (first_rows (blocks_in flat.now)) state.now indices.old (words_in s)) }
    ensures { IsEntered (most_in flat.now) (first_rows (blocks_in flat.now)) state.now indices.new (words_in result) }
{
    match sums {
        Some(sums) => sums,
        None => enter_flat(flat, state, indices),
    }
}

/// Returns the greatest value of the tables for the state that an operator reaches from `state`, or `None` if it has to
/// be computed from that state's values. `moves` are the operator's, if they are known.
fn moved_value(
    flat: &Flat<'_>,
    state: &[u32],
    operator: usize,
    indices: &[usize],
    sums: &BlockSums,
    touched: &[usize],
    moves: &Option<Vec<Move>>,
) -> Option<Dist>
    requires entered { IsEntered (most_in flat.now) (first_rows (blocks_in flat.now)) state.now indices.now (words_in sums.now) }
    requires leads { (next : List ℕ) × StepsTo (first_rows (blocks_in flat.now)) state.now operator next }
    requires touched { All (λ k. k < length (first_rows (blocks_in flat.now))) touched.now }
    requires moves { AreMovesOf (first_rows (blocks_in flat.now)) operator touched.now moves.now }
    requires moved { (next : List ℕ) → StepsTo (first_rows (blocks_in flat.now)) state.now operator next →
        AreMoved (first_rows (blocks_in flat.now)) touched.now state.now next }
    ensures { IfSome result (λ value. (next : List ℕ) → StepsTo (first_rows (blocks_in flat.now)) state.now operator next →
        value ≡ blocks_value (most_in flat.now) next (blocks_in flat.now)) }
{
    match moves {
        Some(moves) => flat_value_moved(flat, state, operator, indices, sums, touched, moves),
        None => None,
    }
}

/// Writes the successor of a state, by an operator that applies, into `values`.
fn write_successor(task: &FdrTask, state: &[u32], operator: usize, values: &mut [u32])
    requires state { IsState (ranges task.now) state.now }
    requires applies { applies_at task.now operator state.now ≡ true }
    requires buffer { length values.old ≡ length state.now }
    ensures step { step task.now state.now operator ≡ Some values.new }
    ensures state { IsState (ranges task.now) values.new }
{
    task.recall(); // a successor of a state is a state
    values.copy_from_slice(state);
    task.advance(operator, values);
}

impl<'a> Places<'a> {
    /// Returns the cached table indices of the initial state.
    pub(crate) fn new(
        alloc: Global,
        columns: &'a Columns<'a>,
        flat: &'a Flat<'a>,
        touches: &'a [Vec<usize>],
        moves: &'a [Option<Vec<Move>>],
    ) -> Result<Places<'a>, AllocError>
        requires of_task { All (λ b. AreOf columns.now.task b.items) (blocks_in flat.now) }
        requires value { (s : List ℕ) → IsState (ranges columns.now.task) s →
            blocks_value (most_in flat.now) s (blocks_in flat.now) ≡ heuristic_of columns.now.task columns.now.columns s }
        requires touches { AreTouches (length columns.now.task.operators) (first_rows (blocks_in flat.now)) touches.now }
        requires moves { AreMoves (first_rows (blocks_in flat.now)) touches.now moves.now }
        ensures { IfOk result (λ p. p ≡ record { task = columns.now.task; columns = columns.now.columns; state = columns.now.task.initial }) }
    {
        let task = columns.task();
        let state = Vec::from_slice(alloc, task.initial())?;
        let next = Vec::from_slice(alloc, task.initial())?;
        let indices = vec![in alloc; 0; mapping_count(flat)]?;
        Ok(Places {
            columns,
            flat,
            touches,
            moves,
            state,
            next,
            indices,
            sums: None,
        })
    }

    /// Returns the state.
    pub fn state(&self) -> &[u32]
        ensures { result.now ≡ self.now.state }
    {
        &self.state
    }

    /// Replaces the state. No memory is allocated.
    pub fn enter(&mut self, state: &[u32])
        requires { IsState (ranges self.old.task) state.now }
        ensures { self.new ≡ record self.old { state = state.now } }
    {
        self.state.copy_from_slice(state);
        self.sums = None;
    }

    /// Returns the heuristic value of the columns for the successor of the state by an operator that applies, the same as
    /// `Columns::h`. The abstract states of the state and the sums of its rows are computed at the first call after
    /// `enter`; later calls only exchange the rows of mappings that the operator affects. If the operator changes the
    /// numbers of their abstract states by constants, the successor's values are not computed. No memory is allocated.
    pub fn h_after(&mut self, operator: usize) -> Dist
        requires { applies_at self.old.task operator self.old.state ≡ true }
        ensures value { (next : List ℕ) → step self.old.task self.old.state operator ≡ Some next →
            result ≡ heuristic_of self.old.task self.old.columns next }
        ensures small { IsWithin (2 ^ 61) result }
        ensures same { self.new ≡ self.old }
    {
        let columns = self.columns;
        let (flat, touches, moves) = (self.flat, self.touches, self.moves);
        columns.recall();
        columns.task().recall(); // a successor of a state is a state
        let sums = enter_once(flat, &self.state, &mut self.indices, self.sums);
        self.sums = Some(sums);
        let touched: &[usize] = &touches[operator];
        let moves = &moves[operator];
        let value = moved_value(
            flat,
            &self.state,
            operator,
            &self.indices,
            &sums,
            touched,
            moves,
        );
        if let Some(value) = value {
            return value;
        }
        write_successor(columns.task(), &self.state, operator, &mut self.next);
        flat_value_after(flat, &self.state, &self.indices, &sums, touched, &self.next)
    }
}
