//! The orders of mappings of columns.

ghost use Rattle.std.specs.Prelude.{◌≡◌, map, IfOk};
ghost use Rattle.scp.specs.Partitions.{mappings_of};
ghost use Rattle.scp_columns.specs.ColumnTables.{tables_of};
ghost use Rattle.scp_stages.specs.StageOrders.{AreOrdersOf, mappings_in};

use abstraction_mapping::Mapping;
use scp::{ColumnTable, Columns, MAX_COLUMNS};
use std::alloc::{AllocError, Global};

/// Returns copies of the mappings of the tables of a column, in order.
fn order_of(alloc: Global, column: &[ColumnTable<'_>]) -> Result<Vec<Mapping>, AllocError>
    ensures { IfOk result (λ order. mappings_of order ≡ mappings_in (map (λ t. t.table) column.now)) }
{
    let mut order = Vec::with_capacity(alloc, column.len())?;
    for table in column {
        order.push(table.table().mapping.copied(alloc)?)?;
    }
    Ok(order)
}

/// Returns copies of the mappings of the first `MAX_COLUMNS` columns: for each of them the order of its mappings.
pub fn orders_of(alloc: Global, columns: &Columns<'_>) -> Result<Vec<Vec<Mapping>>, AllocError>
    ensures { IfOk result (λ orders. AreOrdersOf columns.now.task columns.now.columns (map mappings_of orders.items)) }
{
    columns.recall();
    let tables = columns.tables();
    let mut orders = Vec::new(alloc);
    for number in 0..tables.len().min(MAX_COLUMNS) {
        orders.push(order_of(alloc, &tables[number])?)?;
    }
    Ok(orders)
}
