//! Columns of tables with the shares of the operators of a task.

ghost use Rattle.std.specs.Prelude.{◌≡◌, ◌<◌, ◌≤◌, All, IfSome, length, map, IfOk, OnOk};
ghost use Rattle.fdr.specs.Limits.{max_operators};
ghost use Rattle.abstraction_domain.specs.Rows.{AreNumbered};
ghost use Rattle.abstraction_mapping.specs.Views.{mapping_of};
ghost use Rattle.cert_value.specs.Views.{table_of, column_of, columns_of};
ghost use Rattle.reduction_certs.specs.InTask.{HasNumberedRows, HaveNumberedRows, table_in_task, columns_in_task};

use crate::shares::shares_in_task;
use abstraction_domain::ClassRow;
use abstraction_mapping::Mapping;
use cert_value::AbstractionTable;
use std::alloc::{AllocError, Global};

/// Reads the rows, whose type says that their classes are numbered. Only for the proof.
fn recall_rows(rows: &[ClassRow])
    ensures { All (λ r. AreNumbered r.classes) rows.now }
{
    for row in rows {
        let _ = row.classes();
    }
}

/// Reads the rows of a mapping. Only for the proof.
fn recall_mapping(mapping: &Mapping)
    ensures { HasNumberedRows (mapping_of mapping.now) }
{
    match mapping {
        Mapping::Pattern(_) => {}
        Mapping::Domains(rows) => recall_rows(rows),
    }
}

/// Returns the table with the shares of the operators of a task. `count` is the number of retained operators.
fn table_for(
    alloc: Global,
    count: usize,
    representatives: &[Option<usize>],
    table: AbstractionTable,
) -> Result<AbstractionTable, AllocError>
    requires few { length representatives.now ≤ max_operators }
    requires exist { All (λ r. IfSome r (λ k. k < count)) representatives.now }
    ensures table { IfOk result (λ made. table_of made ≡ table_in_task representatives.now (table_of table)) }
    ensures numbered { HasNumberedRows (mapping_of table.mapping) }
{
    recall_mapping(&table.mapping);
    let shares = shares_in_task(alloc, count, representatives, &table.shares)?;
    Ok(AbstractionTable {
        mapping: table.mapping,
        shares,
        values: table.values,
    })
}

/// Returns the tables of a column with the shares of the operators of a task.
fn column_for(
    alloc: Global,
    count: usize,
    representatives: &[Option<usize>],
    column: Vec<AbstractionTable>,
) -> Result<Vec<AbstractionTable>, AllocError>
    requires few { length representatives.now ≤ max_operators }
    requires exist { All (λ r. IfSome r (λ k. k < count)) representatives.now }
    ensures column { IfOk result (λ made. column_of made ≡ map (table_in_task representatives.now) (column_of column)) }
    ensures numbered { OnOk result (All (λ t. HasNumberedRows t.mapping) (column_of column)) }
{
    let mut made = Vec::with_capacity(alloc, column.len())?;
    for table in column {
        made.push(table_for(alloc, count, representatives, table)?)?;
    }
    Ok(made)
}

/// Returns the columns with the shares of the operators of a task.
pub(crate) fn columns_for(
    alloc: Global,
    count: usize,
    representatives: &[Option<usize>],
    columns: Vec<Vec<AbstractionTable>>,
) -> Result<Vec<Vec<AbstractionTable>>, AllocError>
    requires few { length representatives.now ≤ max_operators }
    requires exist { All (λ r. IfSome r (λ k. k < count)) representatives.now }
    ensures columns { IfOk result (λ made. columns_of made.items ≡ columns_in_task representatives.now (columns_of columns.items)) }
    ensures numbered { OnOk result (HaveNumberedRows (columns_of columns.items)) }
{
    let mut made = Vec::with_capacity(alloc, columns.len())?;
    for column in columns {
        made.push(column_for(alloc, count, representatives, column)?)?;
    }
    Ok(made)
}
