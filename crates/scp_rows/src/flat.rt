//! The tables of columns as blocks of rows, in the shortest words that their values allow.

ghost use Rattle.std.specs.Prelude.{◌≡◌, ℕ, List, ◌<◌, ◌≤◌, length, map, All, IfOk, IfSome};
ghost use Rattle.cost.specs.Distances.{greatest};
ghost use Rattle.fdr.specs.Tasks.{ranges, IsState};
ghost use Rattle.scp_rows.specs.Rows.{AreOf, value_of, blocks_value};
ghost use Rattle.scp_rows.specs.Moves.{AreMoved, AreMoves, AreTouches, IsEntered, IsMove, StepsTo, first_rows, places_of};
ghost use Rattle.scp_rows.specs.Flats.{most_in, blocks_in, words_in};

use crate::block::{first_block, greatest_after, greatest_moved, greatest_value, make_blocks};
use crate::limit::columns_limit;
use crate::mapping_rows::{MappingRows, enter, touches};
use crate::moves::{Move, moves};
use crate::row::{LongRow, MiddleRow, ShortRow};
use cost::Dist;
use fdr::FdrTask;
use scp_columns::ColumnTable;
use std::alloc::{AllocError, Global};

/// Blocks of rows.
#[derive(Drop)]
pub enum Flat<'a> {
    /// Words of 16 bits.
    Short(Vec<Vec<MappingRows<'a, ShortRow>>>),
    /// Words of 32 bits.
    Middle(Vec<Vec<MappingRows<'a, MiddleRow>>>),
    /// Words of 64 bits.
    Long(Vec<Vec<MappingRows<'a, LongRow>>>),
}

/// The sums of the rows of a state in a block, lane by lane.
#[derive(Clone, Copy)]
pub enum BlockSums {
    /// Words of 16 bits.
    Short(ShortRow),
    /// Words of 32 bits.
    Middle(MiddleRow),
    /// Words of 64 bits.
    Long(LongRow),
}

/// Returns the blocks of columns of a task, in the shortest words that their values allow.
pub fn make_flat<'a>(
    alloc: Global,
    task: &'a FdrTask,
    columns: &[Vec<ColumnTable<'a>>],
) -> Result<Flat<'a>, AllocError>
    requires task { All (λ column. All (λ t. t.task ≡ task.now) column.items) columns.now }
    requires few { All (λ column. length column.items ≤ 64) columns.now }
    ensures of_task { IfOk result (λ flat. All (λ b. AreOf task.now b.items) (blocks_in flat)) }
    ensures value { IfOk result (λ flat. (state : List ℕ) → IsState (ranges task.now) state →
        blocks_value (most_in flat) state (blocks_in flat) ≡ greatest (map (value_of state) columns.now)) }
{
    let limit = columns_limit(columns);
    if limit < 65535 {
        Ok(Flat::Short(make_blocks(alloc, task, columns)?))
    } else if limit < 4_294_967_295 {
        Ok(Flat::Middle(make_blocks(alloc, task, columns)?))
    } else {
        Ok(Flat::Long(make_blocks(alloc, task, columns)?))
    }
}

/// Returns the greatest value of the blocks at a state. No memory is allocated.
pub fn flat_value(flat: &Flat<'_>, state: &[u32]) -> Dist
    requires { All (λ b. All (λ p. IsState (ranges p.task) state.now) b.items) (blocks_in flat.now) }
    ensures { result ≡ blocks_value (most_in flat.now) state.now (blocks_in flat.now) }
{
    match flat {
        Flat::Short(blocks) => greatest_value(blocks, state),
        Flat::Middle(blocks) => greatest_value(blocks, state),
        Flat::Long(blocks) => greatest_value(blocks, state),
    }
}

/// Returns the number of mappings of the first block.
pub fn mapping_count(flat: &Flat<'_>) -> usize
    ensures { result ≡ length (first_rows (blocks_in flat.now)) }
{
    match flat {
        Flat::Short(blocks) => first_block(blocks).len(),
        Flat::Middle(blocks) => first_block(blocks).len(),
        Flat::Long(blocks) => first_block(blocks).len(),
    }
}

/// Computes the abstract states of a state, one for each mapping of the first block, and returns the sums of its rows
/// there.
pub fn enter_flat(flat: &Flat<'_>, state: &[u32], indices: &mut [usize]) -> BlockSums
    requires state { All (λ p. IsState (ranges p.task) state.now) (first_rows (blocks_in flat.now)) }
    requires len { length indices.old ≡ length (first_rows (blocks_in flat.now)) }
    ensures { IsEntered (most_in flat.now) (first_rows (blocks_in flat.now)) state.now indices.new (words_in result) }
{
    match flat {
        Flat::Short(blocks) => BlockSums::Short(enter(first_block(blocks), state, indices)),
        Flat::Middle(blocks) => BlockSums::Middle(enter(first_block(blocks), state, indices)),
        Flat::Long(blocks) => BlockSums::Long(enter(first_block(blocks), state, indices)),
    }
}

/// Returns for each operator the indices of the mappings of the first block that it may affect.
pub fn touches_in(
    alloc: Global,
    flat: &Flat<'_>,
    count: usize,
) -> Result<Vec<Vec<usize>>, AllocError>
    ensures { IfOk result (λ touches. AreTouches count (first_rows (blocks_in flat.now)) touches.items) }
{
    match flat {
        Flat::Short(blocks) => touches(alloc, first_block(blocks), count),
        Flat::Middle(blocks) => touches(alloc, first_block(blocks), count),
        Flat::Long(blocks) => touches(alloc, first_block(blocks), count),
    }
}

/// Returns the greatest value of the blocks at `state`, a successor of the state `entered`, the same as `flat_value`.
/// `indices` and `entered_sums` are the abstract states and the sums of `entered` in the first block, and `touched`
/// lists the mappings of that block that are affected. No memory is allocated.
pub fn flat_value_after(
    flat: &Flat<'_>,
    entered: &[u32],
    indices: &[usize],
    entered_sums: &BlockSums,
    touched: &[usize],
    state: &[u32],
) -> Dist
    requires state { All (λ b. All (λ p. IsState (ranges p.task) state.now) b.items) (blocks_in flat.now) }
    requires entered { IsEntered (most_in flat.now) (first_rows (blocks_in flat.now)) entered.now indices.now (words_in entered_sums.now) }
    requires moved { AreMoved (first_rows (blocks_in flat.now)) touched.now entered.now state.now }
    ensures { result ≡ blocks_value (most_in flat.now) state.now (blocks_in flat.now) }
{
    match (flat, entered_sums) {
        (Flat::Short(blocks), BlockSums::Short(sums)) => {
            greatest_after(blocks, entered, indices, sums, touched, state)
        }
        (Flat::Middle(blocks), BlockSums::Middle(sums)) => {
            greatest_after(blocks, entered, indices, sums, touched, state)
        }
        (Flat::Long(blocks), BlockSums::Long(sums)) => {
            greatest_after(blocks, entered, indices, sums, touched, state)
        }
        // unreachable: the sums have the same word width as the rows
        _ => flat_value(flat, state),
    }
}

/// Returns for each operator its moves under the mappings of the first block that it affects, or `None` if what it
/// changes under one of them depends on the state.
pub fn moves_in(
    alloc: Global,
    flat: &Flat<'_>,
    touches: &[Vec<usize>],
) -> Result<Vec<Option<Vec<Move>>>, AllocError>
    ensures { IfOk result (λ moves. AreMoves (first_rows (blocks_in flat.now)) touches.now moves.items) }
{
    match flat {
        Flat::Short(blocks) => moves(alloc, first_block(blocks), touches),
        Flat::Middle(blocks) => moves(alloc, first_block(blocks), touches),
        Flat::Long(blocks) => moves(alloc, first_block(blocks), touches),
    }
}

/// Returns the greatest value of the blocks at the state that an operator reaches from the state `entered`, or `None`
/// if it has to be computed from that state's values. `indices` and `entered_sums` are the abstract states and the sums
/// of `entered` in the first block, `touched` has the mappings of that block that are affected, and `moves` the
/// operator's moves under these. No memory is allocated.
pub fn flat_value_moved(
    flat: &Flat<'_>,
    entered: &[u32],
    operator: usize,
    indices: &[usize],
    entered_sums: &BlockSums,
    touched: &[usize],
    moves: &[Move],
) -> Option<Dist>
    requires entered { IsEntered (most_in flat.now) (first_rows (blocks_in flat.now)) entered.now indices.now (words_in entered_sums.now) }
    requires leads { (next : List ℕ) × StepsTo (first_rows (blocks_in flat.now)) entered.now operator next }
    requires touched { All (λ k. k < length (first_rows (blocks_in flat.now))) touched.now }
    requires places { places_of moves.now ≡ touched.now }
    requires moves { All (IsMove (first_rows (blocks_in flat.now)) operator) moves.now }
    requires moved { (next : List ℕ) → StepsTo (first_rows (blocks_in flat.now)) entered.now operator next →
        AreMoved (first_rows (blocks_in flat.now)) touched.now entered.now next }
    ensures { IfSome result (λ value. (next : List ℕ) → StepsTo (first_rows (blocks_in flat.now)) entered.now operator next →
        value ≡ blocks_value (most_in flat.now) next (blocks_in flat.now)) }
{
    match (flat, entered_sums) {
        (Flat::Short(blocks), BlockSums::Short(sums)) => {
            greatest_moved(blocks, entered, operator, indices, sums, touched, moves)
        }
        (Flat::Middle(blocks), BlockSums::Middle(sums)) => {
            greatest_moved(blocks, entered, operator, indices, sums, touched, moves)
        }
        (Flat::Long(blocks), BlockSums::Long(sums)) => {
            greatest_moved(blocks, entered, operator, indices, sums, touched, moves)
        }
        // unreachable: the sums have the same word width as the rows
        _ => None,
    }
}
