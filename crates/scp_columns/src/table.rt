//! Tables of columns.

ghost use Rattle.std.specs.Prelude.{◌≡◌, true, IfOk};
ghost use Rattle.cert_value.specs.declared.certificate.Version.TheVariants.{Two};
ghost use Rattle.cert_value.specs.Views as kept;
ghost use Rattle.cert_value.specs.Lawful.{IsTable};
ghost use Rattle.checker_clauses.specs.Clauses.{has_form};
ghost use Rattle.scp_columns.specs.TableProps.{table_prop};

use cert_value::{AbstractionTable, Values};
use fdr::FdrTask;
use std::alloc::{AllocError, Global};
use std::marker::Model;

/// A table of an abstraction of a task, valid in a certificate of version 2.
#[derive(Drop)]
pub struct ColumnTable<'a> {
    task: &'a FdrTask,
    table: AbstractionTable,
    ghost has_form: { has_form task.now (kept.table_of table) ≡ true },
    ghost is_table: { IsTable Two (kept.table_of table) } by { table_prop _ },
}

impl<'a> Model for ColumnTable<'a> {
    ghost use Rattle.cert_value.specs.Views as kept;
    ghost use Rattle.scp_columns.specs.ColumnTables as spec;

    ghost Value = { spec.ColumnTable };

    ghost view = { λ t. record { task = t.task.now; table = kept.table_of t.table; formed = t.has_form; lawful = ∣ t.is_table ∣₁ } };
}

/// Returns a copy of the values.
fn copied_values(alloc: Global, values: &Values) -> Result<Values, AllocError>
    ensures { IfOk result (λ copy. copy ≡ values.now) }
{
    let mut copy = Values::new(alloc);
    for state in 0..values.len() {
        copy.push(values.get(state))?;
    }
    Ok(copy)
}

impl<'a> ColumnTable<'a> {
    /// Combines a table and its task.
    pub(crate) fn new(task: &'a FdrTask, table: AbstractionTable) -> ColumnTable<'a>
        requires form { has_form task.now (kept.table_of table) ≡ true }
        requires lawful { IsTable Two (kept.table_of table) }
        ensures task { result.task ≡ task.now }
        ensures table { result.table ≡ kept.table_of table }
    {
        ColumnTable { task, table }
    }

    /// Returns the table, in the form in which certificates contain it.
    pub fn table(&self) -> &AbstractionTable
        ensures table { kept.table_of result.now ≡ self.now.table }
        ensures lawful { IsTable Two self.now.table }
    {
        &self.table
    }

    /// Returns a copy of the table, for the same task.
    pub(crate) fn copied<'b>(
        &self,
        alloc: Global,
        task: &'b FdrTask,
    ) -> Result<ColumnTable<'b>, AllocError>
        requires { task.now ≡ self.now.task }
        ensures task { IfOk result (λ copy. copy.task ≡ task.now) }
        ensures table { IfOk result (λ copy. copy.table ≡ self.now.table) }
    {
        let mapping = self.table.mapping.copied(alloc)?;
        let shares = Vec::from_slice(alloc, &self.table.shares)?;
        let values = copied_values(alloc, &self.table.values)?;
        let table = AbstractionTable {
            mapping,
            shares,
            values,
        };
        Ok(ColumnTable::new(task, table))
    }
}
