//! Copies of tables.

ghost use Rattle.std.specs.Prelude.{◌≡◌, map, IfOk};
ghost use Rattle.cert_value.specs.Views as kept;
ghost use Rattle.scp_columns.specs.ColumnTables as columns;
ghost use Rattle.scp_columns.specs.ColumnTables.{tables_of};

use cert_value::{AbstractionTable, Values};
use scp::ColumnTable;
use std::alloc::{AllocError, Global};

/// Returns a copy of the values.
fn copied_values(alloc: Global, values: &Values) -> Result<Values, AllocError>
    ensures { IfOk result (λ copy. copy ≡ values.now) }
{
    let mut copy = Values::new(alloc);
    for state in 0..values.len() {
        copy.push(values.get(state))?;
    }
    Ok(copy)
}

/// Returns a copy of the table.
fn copied_table(alloc: Global, table: &AbstractionTable) -> Result<AbstractionTable, AllocError>
    ensures { IfOk result (λ copy. kept.table_of copy ≡ kept.table_of table.now) }
{
    Ok(AbstractionTable {
        mapping: table.mapping.copied(alloc)?,
        shares: Vec::from_slice(alloc, &table.shares)?,
        values: copied_values(alloc, &table.values)?,
    })
}

/// Returns copies of a column's tables.
fn copied_column(
    alloc: Global,
    column: &[ColumnTable<'_>],
) -> Result<Vec<AbstractionTable>, AllocError>
    ensures { IfOk result (λ copy. kept.column_of copy ≡ map (λ t. t.table) column.now) }
{
    let mut copy = Vec::with_capacity(alloc, column.len())?;
    for table in column {
        copy.push(copied_table(alloc, table.table())?)?;
    }
    Ok(copy)
}

/// Returns copies of the columns' tables.
pub(crate) fn copied_columns(
    alloc: Global,
    columns: &[Vec<ColumnTable<'_>>],
) -> Result<Vec<Vec<AbstractionTable>>, AllocError>
    ensures { IfOk result (λ copy. kept.columns_of copy.items ≡ map tables_of columns.now) }
{
    let mut copy = Vec::with_capacity(alloc, columns.len())?;
    for column in columns {
        copy.push(copied_column(alloc, column)?)?;
    }
    Ok(copy)
}
