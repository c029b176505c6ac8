//! Moves: by how much operators change the numbers of abstract states, so that those of a successor are found without
//! its values.

ghost use Rattle.std.specs.Prelude.{◌≡◌, ℕ, List, ◌+◌, ◌<◌, ◌≤◌, min, length, slice_index, All, IfOk, IfSome};
ghost use Rattle.scp_rows.specs.Moves.{AreIndices, AreMoved, AreMoves, AreMovesOf, IsEntered, IsMove, StepsTo, places_of, sum_at};
ghost use Rattle.scp_rows.specs.Rows.{lane_sum};

use crate::mapping_rows::{MappingRows, subtract_rows};
use crate::row::Row;
use abstraction_groups::{Change, Shift};
use std::alloc::{AllocError, Global};

/// By how much an operator changes the number of the abstract state under a mapping.
#[derive(Clone, Copy, Debug)]
pub struct Move {
    /// The index of the mapping.
    pub place: usize,
    pub shift: Shift,
}

/// Returns the moves of an operator under the mappings at these indices, or `None` if under one of them what it changes
/// depends on the state. `changes` is a buffer.
fn moves_of<R: Row>(
    alloc: Global,
    mappings: &[MappingRows<'_, R>],
    operator: usize,
    touched: &[usize],
    changes: &mut Vec<Change>,
) -> Result<Option<Vec<Move>>, AllocError>
    ensures { IfOk result (AreMovesOf mappings.now operator touched.now) }
{
    let mut moves = Vec::with_capacity(alloc, touched.len())?;
    for place in touched {
        let Some(mapping) = mappings.get(*place) else {
            return Ok(None); // there is one
        };
        let Some(shift) = mapping.shift_of(operator, changes)? else {
            return Ok(None);
        };
        moves.push(Move {
            place: *place,
            shift,
        })?;
    }
    Ok(Some(moves))
}

/// Returns, for each operator, its moves under the mappings that it affects, or `None` if what it changes under one of
/// them depends on the state.
pub(crate) fn moves<R: Row>(
    alloc: Global,
    mappings: &[MappingRows<'_, R>],
    touches: &[Vec<usize>],
) -> Result<Vec<Option<Vec<Move>>>, AllocError>
    ensures { IfOk result (λ moves. AreMoves mappings.now touches.now moves.items) }
{
    let mut changes = Vec::new(alloc);
    let mut moves = Vec::with_capacity(alloc, touches.len())?;
    for operator in 0..touches.len() {
        let touched = &touches[operator];
        moves.push(moves_of(alloc, mappings, operator, touched, &mut changes)?)?;
    }
    Ok(moves)
}

/// Adds the rows of the state that an operator reaches from the entered one, for the mappings of these moves. Sums are
/// capped at the greatest word.
fn add_moved_rows<R: Row>(
    mappings: &[MappingRows<'_, R>],
    entered: &[u32],
    operator: usize,
    indices: &[usize],
    moves: &[Move],
    sums: &mut R,
)
    requires indices { AreIndices indices.now entered.now mappings.now }
    requires leads { (next : List ℕ) × StepsTo mappings.now entered.now operator next }
    requires moves { All (IsMove mappings.now operator) moves.now }
    requires sums { (lane : ℕ) → slice_index (R.words sums.old) lane ≤ R.most }
    ensures { (next : List ℕ) → StepsTo mappings.now entered.now operator next → (lane : ℕ) →
        slice_index (R.words sums.new) lane ≡ min (slice_index (R.words sums.old) lane + sum_at next lane mappings.now (places_of moves.now)) R.most }
{
    for step in moves {
        let place = step.place;
        sums.add(mappings[place].moved_row(entered, operator, indices[place], step.shift));
    }
}

/// Returns the sums of the rows of the state that an operator reaches from an entered state, the same as `sums`: those
/// of the entered state with the rows of the affected mappings exchanged. `None` if a sum of the entered state is the
/// greatest word, so that it may be capped. `moves` are those under the affected mappings.
pub(crate) fn sums_moved<R: Row>(
    mappings: &[MappingRows<'_, R>],
    entered: &[u32],
    operator: usize,
    indices: &[usize],
    entered_sums: &R,
    touched: &[usize],
    moves: &[Move],
) -> Option<R>
    requires entered { IsEntered R.most mappings.now entered.now indices.now (R.words entered_sums.now) }
    requires leads { (next : List ℕ) × StepsTo mappings.now entered.now operator next }
    requires touched { All (λ k. k < length mappings.now) touched.now }
    requires places { places_of moves.now ≡ touched.now }
    requires moves { All (IsMove mappings.now operator) moves.now }
    requires moved { (next : List ℕ) → StepsTo mappings.now entered.now operator next → AreMoved mappings.now touched.now entered.now next }
    ensures { IfSome result (λ sums. (next : List ℕ) → StepsTo mappings.now entered.now operator next → (lane : ℕ) →
        slice_index (R.words sums) lane ≡ min (lane_sum next lane mappings.now) R.most) }
{
    if !entered_sums.is_finite() {
        return None;
    }
    // all rows are subtracted before one is added, because a sum that reaches the greatest word is not exact
    let mut after = *entered_sums;
    subtract_rows(mappings, touched, entered, indices, &mut after);
    add_moved_rows(mappings, entered, operator, indices, moves, &mut after);
    Some(after)
}
