//! Tables of a certificate with their abstractions.

ghost use Rattle.std.specs.Prelude.{◌≡◌, true, false, IfOk, MatchOption};
ghost use Rattle.fdr.specs.Tasks.{ranges, IsState};
ghost use Rattle.abstraction.specs.Abstractions.{value_at};
ghost use Rattle.abstraction_mapping.specs.Views.{mapping_of, task_in, mapping_in};
ghost use Rattle.cert_value.specs.Views as kept;
ghost use Rattle.checker_clauses.specs.Clauses.{table_of, has_form};

use abstraction::Abstraction;
use abstraction_mapping::TableAbstraction;
use cert_value::AbstractionTable;
use cost::Dist;
use fdr::FdrTask;
use std::alloc::{AllocError, Global};
use std::marker::Model;

/// A table that has the required form, with the abstraction of the task by its mapping.
#[derive(Drop)]
pub(crate) struct MappedTable<'a> {
    abstraction: TableAbstraction<'a>,
    table: &'a AbstractionTable,
    ghost mapping: { mapping_in abstraction ≡ mapping_of table.now.mapping },
    ghost has_form: { has_form (task_in abstraction) (kept.table_of table.now) ≡ true },
}

impl<'a> Model for MappedTable<'a> {
    ghost use Rattle.abstraction_mapping.specs.Views.{task_in};
    ghost use Rattle.cert_value.specs.Views as kept;
    ghost use Rattle.checker_tables.specs.MappedTables as spec;

    ghost Value = { spec.MappedTable };

    ghost view = { λ t. record { task = task_in t.abstraction; table = kept.table_of t.table.now; formed = t.has_form } };
}

impl<'a> MappedTable<'a> {
    /// Returns the table with its abstraction, or `None` if the table does not have the required form.
    pub(crate) fn new(
        alloc: Global,
        task: &'a FdrTask,
        table: &'a AbstractionTable,
    ) -> Result<Option<MappedTable<'a>>, AllocError>
        ensures { IfOk result (λ found. MatchOption found
            (has_form task.now (kept.table_of table.now) ≡ false)
            (λ t. (t.task ≡ task.now) × (t.table ≡ kept.table_of table.now))) }
    {
        match TableAbstraction::new(alloc, task, &table.mapping)? {
            Some(abstraction) if abstraction.size() == table.values.len() => {
                Ok(Some(MappedTable { abstraction, table }))
            }
            _ => Ok(None),
        }
    }

    /// Returns the abstraction of the task by the mapping of the table.
    pub(crate) fn abstraction(&self) -> &TableAbstraction<'a>
        ensures task { task_in result.now ≡ self.now.task }
        ensures mapping { mapping_in result.now ≡ self.now.table.mapping }
        ensures formed { has_form self.now.task self.now.table ≡ true }
    {
        &self.abstraction
    }

    /// Returns the value of the table at a state.
    pub(crate) fn value_at(&self, state: &[u32]) -> Dist
        requires { IsState (ranges self.now.task) state.now }
        ensures { result ≡ value_at state.now (table_of self.now.task self.now.table) }
    {
        self.table.values.get(self.abstraction.index(state))
    }
}
