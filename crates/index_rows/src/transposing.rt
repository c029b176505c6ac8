//! The transpose of rows.

ghost use Rattle.std.specs.Prelude.{◌≡◌, ◌<◌, ◌==◌, ◌&&◌, ◌||◌, ℕ, [], length, slice_index_or, IfOk, OnOk};
ghost use Rattle.index_rows.specs.Numbers.{has, IsTranspose};

use crate::row::{Row, empty_rows, put};
use crate::rows::Rows;
use std::alloc::{AllocError, Global};

/// Appends the number to the rows at these indices.
fn put_each(rows: &mut [Row], places: &[usize], number: usize) -> Result<(), AllocError>
    ensures { OnOk result ((p k : ℕ) → p < length rows.old →
        has (slice_index_or rows.new p []) k ≡ (has (slice_index_or rows.old p []) k || (number == k && has places.now p))) }
{
    for place in places {
        put(rows, *place, number)?;
    }
    Ok(())
}

/// Returns for each index below `count` the numbers of the rows that contain it.
fn columns_of(alloc: Global, count: usize, rows: &Rows) -> Result<Vec<Row>, AllocError>
    ensures { IfOk result (λ columns. IsTranspose count rows.now columns.items) }
{
    let mut columns = empty_rows(alloc, count)?;
    for number in 0..rows.len() {
        put_each(&mut columns, rows.row(number), number)?;
    }
    Ok(columns)
}

fn flattened(alloc: Global, rows: &[Row]) -> Result<Rows, AllocError>
    ensures { IfOk result (λ flat. flat ≡ rows.now) }
{
    let mut flat = Rows::new(alloc);
    for row in rows {
        flat.push(row.as_slice())?;
    }
    Ok(flat)
}

/// Returns for each index below `count` the numbers of the rows that contain it, in one vector. Time is linear in
/// `count` and the numbers of all rows.
pub fn transpose(alloc: Global, count: usize, rows: &Rows) -> Result<Rows, AllocError>
    ensures { IfOk result (λ columns. IsTranspose count rows.now columns) }
{
    let columns = columns_of(alloc, count, rows)?;
    flattened(alloc, &columns)
}
