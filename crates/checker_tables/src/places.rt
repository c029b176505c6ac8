//! The positions of a certificate's tables, in order.

ghost use Rattle.std.specs.Prelude.{◌≡◌, ◌+◌, ◌<◌, length, option_map, IfOk, OnOk};
ghost use Rattle.cert_value.specs.Views as kept;
ghost use Rattle.checker_clauses.specs.Violations.{table_at};
ghost use Rattle.checker_tables.specs.TablePlaces.{IsListing, IsListingBefore};

use cert_value::AbstractionTable;
use std::alloc::{AllocError, Global};

/// The position of a table: its column, and its index there.
#[derive(Clone, Copy)]
pub(crate) struct TablePlace {
    pub(crate) column: usize,
    /// The index of the table in its column.
    pub(crate) table: usize,
}

/// Returns the table at a position, or `None` if there is none.
pub(crate) fn table_at(
    columns: &[Vec<AbstractionTable>],
    place: TablePlace,
) -> Option<&AbstractionTable>
    ensures { option_map (λ t. kept.table_of t.now) result ≡ table_at (kept.columns_of columns.now) place.column place.table }
{
    let column = columns.get(place.column)?;
    column.get(place.table)
}

/// Appends the positions of a column's tables to those of the columns before it.
fn add_column(
    places: &mut Vec<TablePlace>,
    columns: &[Vec<AbstractionTable>],
    column: usize,
) -> Result<(), AllocError>
    requires column { column < length columns.now }
    requires before { IsListingBefore (kept.columns_of columns.now) column 0 places.old.items }
    ensures { OnOk result (IsListingBefore (kept.columns_of columns.now) (column + 1) 0 places.new.items) }
{
    for table in 0..columns[column].len() {
        places.push(TablePlace { column, table })?;
    }
    Ok(())
}

/// Returns the positions of all tables, ordered by column and then by index.
pub(crate) fn table_places(
    alloc: Global,
    columns: &[Vec<AbstractionTable>],
) -> Result<Vec<TablePlace>, AllocError>
    ensures { IfOk result (λ places. IsListing (kept.columns_of columns.now) places.items) }
{
    let mut places = Vec::new(alloc);
    for column in 0..columns.len() {
        add_column(&mut places, columns, column)?;
    }
    Ok(places)
}

/// Returns estimates of how long the tests of these tables take in a task with `operators` operators: the number of a
/// table's values plus that of operators, each of which is visited once.
pub(crate) fn weights_of(
    alloc: Global,
    columns: &[Vec<AbstractionTable>],
    places: &[TablePlace],
    operators: usize,
) -> Result<Vec<usize>, AllocError>
    ensures { IfOk result (λ weights. length weights.items ≡ length places.now) }
{
    let mut weights = Vec::with_capacity(alloc, places.len())?;
    for place in places {
        let values = table_at(columns, *place).map_or(0, |table| table.values.len());
        weights.push(values.saturating_add(operators))?;
    }
    Ok(weights)
}
