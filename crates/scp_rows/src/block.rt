//! Blocks: the tables of at most eight columns, interleaved by column.

ghost use Rattle.std.specs.Prelude.{◌≡◌, ℕ, List, true, ◌<◌, ◌≤◌, length, map, slice_get, All, IfOk, OnOk, IfSome, IsSomeAnd};
ghost use Rattle.cost.specs.Distances.{greatest};
ghost use Rattle.fdr.specs.Tasks.{ranges, IsState};
ghost use Rattle.abstraction.specs.Abstractions.{value_at};
ghost use Rattle.abstraction.specs.Columns.{column_value};
ghost use Rattle.abstraction_mapping.specs.Views.{mapping_of};
ghost use Rattle.abstraction_mapping.specs.Mappings.{is_mapping};
ghost use Rattle.scp_columns.specs.ColumnTables.{on_abstraction};
ghost use Rattle.scp_rows.specs.Moves.{AreMoved, IsEntered, IsMove, StepsTo, first_rows, places_of};
ghost use Rattle.scp_rows.specs.Rows.{lane_sum, Gains, AreOf, IsBlockOf, HasWord, value_of, blocks_value};

use crate::mapping_rows::{MappingRows, sums, sums_after};
use crate::moves::{Move, sums_moved};
use crate::row::Row;
use abstraction_mapping::Mapping;
use cost::Dist;
use fdr::FdrTask;
use scp_columns::ColumnTable;
use std::alloc::{AllocError, Global};

/// Returns the index of the rows of a mapping, if there are any.
fn place_of<R: Row>(rows: &[MappingRows<'_, R>], mapping: &Mapping) -> Option<usize>
    ensures { IfSome result (λ k. IsSomeAnd (slice_get rows.now k) (λ p. p.mapping ≡ mapping_of mapping.now)) }
{
    for place in 0..rows.len() {
        if rows[place].is_of(mapping) {
            return Some(place);
        }
    }
    None
}

/// Appends rows of zeros for a mapping, and returns their index.
fn push_mapping<'a, R: Row>(
    alloc: Global,
    task: &'a FdrTask,
    rows: &mut Vec<MappingRows<'a, R>>,
    mapping: &Mapping,
) -> Result<usize, AllocError>
    requires mapping { is_mapping task.now (mapping_of mapping.now) ≡ true }
    requires of_task { AreOf task.now rows.old.items }
    ensures of_task { OnOk result (AreOf task.now rows.new.items) }
    ensures place { IfOk result (λ k. IsSomeAnd (slice_get rows.new.items k) (λ p. p.mapping ≡ mapping_of mapping.now)) }
    ensures sums { OnOk result ((state : List ℕ) (lane : ℕ) →
        lane_sum state lane rows.new.items ≡ lane_sum state lane rows.old.items) }
{
    let place = rows.len();
    rows.push(MappingRows::new(alloc, task, mapping)?)?;
    Ok(place)
}

/// Returns the index of the rows of a mapping, after appending rows of zeros if there are none.
fn rows_of<'a, R: Row>(
    alloc: Global,
    task: &'a FdrTask,
    rows: &mut Vec<MappingRows<'a, R>>,
    mapping: &Mapping,
) -> Result<usize, AllocError>
    requires mapping { is_mapping task.now (mapping_of mapping.now) ≡ true }
    requires of_task { AreOf task.now rows.old.items }
    ensures of_task { OnOk result (AreOf task.now rows.new.items) }
    ensures place { IfOk result (λ k. IsSomeAnd (slice_get rows.new.items k) (λ p. p.mapping ≡ mapping_of mapping.now)) }
    ensures sums { OnOk result ((state : List ℕ) (lane : ℕ) →
        lane_sum state lane rows.new.items ≡ lane_sum state lane rows.old.items) }
{
    match place_of(rows, mapping) {
        Some(place) => Ok(place),
        None => push_mapping(alloc, task, rows, mapping),
    }
}

/// Adds the values of a table in one lane.
fn add_table<'a, R: Row>(
    alloc: Global,
    task: &'a FdrTask,
    rows: &mut Vec<MappingRows<'a, R>>,
    lane: usize,
    table: &ColumnTable<'_>,
) -> Result<(), AllocError>
    requires lane { lane < 8 }
    requires task { table.now.task ≡ task.now }
    requires of_task { AreOf task.now rows.old.items }
    ensures { OnOk result (Gains task.now R.most lane (λ state. value_at state (on_abstraction table.now)) rows.old.items rows.new.items) }
{
    let table = table.table();
    let place = rows_of(alloc, task, rows, &table.mapping)?;
    rows[place].add_table(lane, &table.values);
    Ok(())
}

/// Adds the values of the tables of a column in one lane.
fn add_column<'a, R: Row>(
    alloc: Global,
    task: &'a FdrTask,
    rows: &mut Vec<MappingRows<'a, R>>,
    lane: usize,
    column: &[ColumnTable<'_>],
) -> Result<(), AllocError>
    requires lane { lane < 8 }
    requires task { All (λ t. t.task ≡ task.now) column.now }
    requires of_task { AreOf task.now rows.old.items }
    ensures { OnOk result (Gains task.now R.most lane (λ state. column_value state (map on_abstraction column.now)) rows.old.items rows.new.items) }
{
    for table in column {
        add_table(alloc, task, rows, lane, table)?;
    }
    Ok(())
}

/// Returns the block of at most eight columns.
fn make_block<'a, R: Row>(
    alloc: Global,
    task: &'a FdrTask,
    columns: &[Vec<ColumnTable<'_>>],
) -> Result<Vec<MappingRows<'a, R>>, AllocError>
    requires few { length columns.now ≤ 8 }
    requires task { All (λ column. All (λ t. t.task ≡ task.now) column.items) columns.now }
    ensures { IfOk result (λ rows. IsBlockOf task.now R.most columns.now rows.items) }
{
    let mut rows = Vec::new(alloc);
    for lane in 0..columns.len() {
        add_column(alloc, task, &mut rows, lane, &columns[lane])?;
    }
    Ok(rows)
}

/// Returns the blocks of columns.
pub(crate) fn make_blocks<'a, R: Row>(
    alloc: Global,
    task: &'a FdrTask,
    columns: &[Vec<ColumnTable<'_>>],
) -> Result<Vec<Vec<MappingRows<'a, R>>>, AllocError>
    requires { All (λ column. All (λ t. t.task ≡ task.now) column.items) columns.now }
    ensures of_task { IfOk result (λ blocks. All (λ b. AreOf task.now b.items) blocks.items) }
    ensures value { 0 < R.most → IfOk result (λ blocks. (state : List ℕ) → IsState (ranges task.now) state →
        All (λ column. HasWord R.most (value_of state column)) columns.now →
        blocks_value R.most state blocks.items ≡ greatest (map (value_of state) columns.now)) }
{
    let mut blocks = Vec::new(alloc);
    let mut first = 0;
    while first < columns.len() {
        let end = columns.len().min(first + 8);
        blocks.push(make_block(alloc, task, &columns[first..end])?)?;
        first = end;
    }
    Ok(blocks)
}

/// Returns the greatest value of blocks at a state.
pub(crate) fn greatest_value<R: Row>(blocks: &[Vec<MappingRows<'_, R>>], state: &[u32]) -> Dist
    requires { All (λ b. All (λ p. IsState (ranges p.task) state.now) b.items) blocks.now }
    ensures { result ≡ blocks_value R.most state.now blocks.now }
{
    let mut greatest = Dist::ZERO;
    for block in blocks {
        greatest = greatest.max(sums(block, state).greatest());
    }
    greatest
}

/// Returns the rows of the first block.
pub(crate) fn first_block<'b, 'a, R: Row>(
    blocks: &'b [Vec<MappingRows<'a, R>>],
) -> &'b [MappingRows<'a, R>]
    ensures { result.now ≡ first_rows blocks.now }
{
    match blocks {
        [] => &[],
        [first, ..] => first,
    }
}

/// Returns the greatest value of blocks at `state`, a successor of the state `entered`, the same as `greatest_value`.
/// `indices` and `entered_sums` are the abstract states and the sums of `entered` in the first block, and `touched`
/// lists the mappings of that block that are affected.
pub(crate) fn greatest_after<R: Row>(
    blocks: &[Vec<MappingRows<'_, R>>],
    entered: &[u32],
    indices: &[usize],
    entered_sums: &R,
    touched: &[usize],
    state: &[u32],
) -> Dist
    requires state { All (λ b. All (λ p. IsState (ranges p.task) state.now) b.items) blocks.now }
    requires entered { IsEntered R.most (first_rows blocks.now) entered.now indices.now (R.words entered_sums.now) }
    requires moved { AreMoved (first_rows blocks.now) touched.now entered.now state.now }
    ensures { result ≡ blocks_value R.most state.now blocks.now }
{
    if blocks.is_empty() {
        return Dist::ZERO;
    }
    let first = sums_after(&blocks[0], entered, indices, entered_sums, touched, state).greatest();
    first.max(greatest_value(&blocks[1..], state))
}

/// Returns the greatest value of blocks at the state that an operator reaches from the state `entered`, the same as
/// `greatest_value`, or `None` if it has to be computed from the state's values: if there are two blocks, or a sum of
/// `entered` may be capped. The other arguments are those of `sums_moved` for the first block.
pub(crate) fn greatest_moved<R: Row>(
    blocks: &[Vec<MappingRows<'_, R>>],
    entered: &[u32],
    operator: usize,
    indices: &[usize],
    entered_sums: &R,
    touched: &[usize],
    moves: &[Move],
) -> Option<Dist>
    requires entered { IsEntered R.most (first_rows blocks.now) entered.now indices.now (R.words entered_sums.now) }
    requires leads { (next : List ℕ) × StepsTo (first_rows blocks.now) entered.now operator next }
    requires touched { All (λ k. k < length (first_rows blocks.now)) touched.now }
    requires places { places_of moves.now ≡ touched.now }
    requires moves { All (IsMove (first_rows blocks.now) operator) moves.now }
    requires moved { (next : List ℕ) → StepsTo (first_rows blocks.now) entered.now operator next →
        AreMoved (first_rows blocks.now) touched.now entered.now next }
    ensures { IfSome result (λ value. (next : List ℕ) → StepsTo (first_rows blocks.now) entered.now operator next →
        value ≡ blocks_value R.most next blocks.now) }
{
    match blocks {
        [] => Some(Dist::ZERO),
        [first] => {
            let sums = sums_moved(
                first,
                entered,
                operator,
                indices,
                entered_sums,
                touched,
                moves,
            )?;
            Some(sums.greatest())
        }
        _ => None,
    }
}
