//! The heuristic of a certificate's tables.

ghost use Rattle.std.specs.Prelude.{◌≡◌, ◌==◌, true, map, All, IfOk};
ghost use Rattle.cost.specs.Distances.{Finite, distance_of, is_at_most, ◌+ᵈ◌};
ghost use Rattle.fdr.specs.Tasks.{ranges, IsState};
ghost use Rattle.abstraction.specs.Columns.{column_value};
ghost use Rattle.cert_value.specs.Views as kept;
ghost use Rattle.checker_clauses.specs.Clauses.{has_form, heuristic_of};
ghost use Rattle.checker_clauses.specs.Violations.{IsMet};
ghost use Rattle.checker_tables.specs.MappedTables.{on_abstraction};
ghost use Rattle.checker_tables.specs.Rests as spec;

use crate::mapped::MappedTable;
use cert_value::{AbstractionTable, Certificate};
use cost::Dist;
use fdr::FdrTask;
use std::alloc::{AllocError, Global};
use std::marker::Model;

/// Returns what remains of `bound` after `reached`; `None` is infinite. Values are subtracted from the bound one by
/// one, because their sum may overflow.
fn rest_of(bound: Option<u64>, reached: Option<u64>) -> Option<u64>
    ensures { distance_of result ≡ spec.rest_of (distance_of bound) (distance_of reached) }
{
    match (bound, reached) {
        (_, None) => Some(0),
        (None, Some(_)) => None,
        (Some(bound), Some(reached)) => Some(bound.saturating_sub(reached)),
    }
}

/// Returns whether the sum of the tables' values at the state is at least the bound.
fn column_reaches(column: &[MappedTable], state: &[u32], bound: Option<u64>) -> bool
    requires { All (λ t. IsState (ranges t.task) state.now) column.now }
    ensures { result ≡ is_at_most (distance_of bound) (column_value state.now (map on_abstraction column.now)) }
{
    let mut rest = bound;
    for table in column {
        if rest == Some(0) {
            return true;
        }
        rest = rest_of(rest, table.value_at(state).get());
    }
    rest == Some(0)
}

/// Returns the tables of a column with their abstractions.
fn mapped_column<'a>(
    alloc: Global,
    task: &'a FdrTask,
    column: &'a [AbstractionTable],
) -> Result<Vec<MappedTable<'a>>, AllocError>
    requires { All (λ t. has_form task.now (kept.table_of t) ≡ true) column.now }
    ensures tables { IfOk result (λ made. map (λ t. t.table) made.items ≡ map kept.table_of column.now) }
    ensures task { IfOk result (λ made. All (λ t. t.task ≡ task.now) made.items) }
{
    let mut made = Vec::with_capacity(alloc, column.len())?;
    for table in column {
        match MappedTable::new(alloc, task, table)? {
            Some(table) => made.push(table)?,
            None => unreachable!(),
        }
    }
    Ok(made)
}

/// The heuristic of a certificate's tables: the greatest over the columns of the sums of their tables' values, and 0
/// without columns. In contracts its value is the task and the columns of tables.
#[derive(Drop)]
pub struct Heuristic<'a> {
    task: &'a FdrTask,
    columns: Vec<Vec<MappedTable<'a>>>,
    ghost of_task: { All (λ column. All (λ t. t.task ≡ task.now) column.items) columns.items },
}

impl<'a> Model for Heuristic<'a> {
    ghost use Rattle.std.specs.Prelude.{map};
    ghost use Rattle.checker_tables.specs.MappedTables as spec;

    ghost Value = { spec.Heuristic };

    ghost view = { λ h. record { task = h.task.now; columns = map spec.tables_of h.columns.items } };
}

impl<'a> Heuristic<'a> {
    /// Returns the heuristic of the certificate's tables. The certificate must satisfy the clause C4:
    /// `first_table_violation` found nothing.
    pub fn new(
        alloc: Global,
        task: &'a FdrTask,
        certificate: &'a Certificate,
    ) -> Result<Heuristic<'a>, AllocError>
        requires { IsMet task.now certificate.now 4 }
        ensures { IfOk result (λ h. (h.task ≡ task.now) × (h.columns ≡ certificate.now.columns)) }
    {
        let mut columns = Vec::with_capacity(alloc, certificate.columns().len())?;
        for column in certificate.columns() {
            columns.push(mapped_column(alloc, task, column)?)?;
        }
        Ok(Heuristic { task, columns })
    }

    /// Returns whether a state reached at this cost reaches the bound, that is, whether the cost and the state's
    /// heuristic value sum to at least the bound. The sum may exceed 64 bits; an infinite bound is reached if the
    /// heuristic value is infinite.
    pub fn reaches(&self, state: &[u32], cost: u64, bound: Dist) -> bool
        requires { IsState (ranges self.now.task) state.now }
        ensures { result ≡ is_at_most bound (Finite cost +ᵈ heuristic_of self.now.task self.now.columns state.now) }
    {
        let rest = rest_of(bound.get(), Some(cost));
        if rest == Some(0) {
            return true;
        }
        for column in &self.columns {
            if column_reaches(column, state, rest) {
                return true;
            }
        }
        false
    }
}
