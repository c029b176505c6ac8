//! Tables that a column shares with an earlier one.

ghost use Rattle.std.specs.Prelude.{◌≡◌, ℕ, ◌≤◌, true, length, map, slice_get, slice_index, Some, All, IfOk, IfSome, IsSomeAnd};
ghost use Rattle.fdr.specs.Tasks.{cost_of};
ghost use Rattle.abstraction_mapping.specs.Views.{mapping_of, task_in, mapping_in, abstraction_in};
ghost use Rattle.cert_value.specs.Lawful.{AreShares};
ghost use Rattle.checker_clauses.specs.Clauses.{share_of, table_of};
ghost use Rattle.pdb_walks.specs.Walks.{IsPartition};
ghost use Rattle.scp_columns.specs.Partitions.{IsNextTable};

use crate::costs::{costs_of, take_shares};
use crate::table::ColumnTable;
use abstraction::Abstraction;
use abstraction_mapping::{Mapping, TableAbstraction};
use cert_value::Share;
use fdr::FdrTask;
use std::alloc::{AllocError, Global};
use std::marker::Model;

/// A finished column, with the remaining costs of the operators before each of its tables. Another column copies the
/// tables that it has in common with this one, because saturated cost partitioning often leaves the same costs for a
/// mapping in several columns. In contracts its value is the task and the tables.
#[derive(Drop)]
pub struct EarlierColumn<'a> {
    task: &'a FdrTask,
    tables: &'a [ColumnTable<'a>],
    costs: Vec<Vec<u32>>,
}

impl<'a> Model for EarlierColumn<'a> {
    ghost use Rattle.std.specs.Prelude.{map};
    ghost use Rattle.std.specs.List.{AllZip};
    ghost use Rattle.scp_columns.specs.EarlierTables.{EarlierOf, IsMadeUnder};

    ghost Value = { EarlierOf };

    ghost view = { λ c. record { task = c.task.now; tables = map (λ t. t.table) c.tables.now } };

    ghost invariant = { λ c. AllZip (IsMadeUnder c.task.now) c.tables.now c.costs.items };
}

/// Returns whether the remaining cost of each operator is at least its share.
fn are_left(left: &[u32], shares: &[Share]) -> bool
    ensures { result ≡ true → (o : ℕ) → share_of shares.now o ≤ slice_index left.now o }
{
    for share in shares {
        match left.get(share.operator as usize) {
            Some(cost) if share.amount <= *cost => {}
            _ => return false,
        }
    }
    true
}

/// Returns whether the remaining costs of the operators that affect the abstraction are at most `costs`.
fn are_at_most(abstraction: &TableAbstraction<'_>, left: &[u32], costs: &[u32]) -> bool
    requires { length costs.now ≡ length left.now }
    ensures { result ≡ true → (o : ℕ) → (abstraction_in abstraction.now).touches o ≡ true → slice_index left.now o ≤ slice_index costs.now o }
{
    for operator in 0..left.len() {
        if left[operator] > costs[operator] && abstraction.touches(operator) {
            return false;
        }
    }
    true
}

/// Returns the index of the first table of the mapping.
fn place_of(tables: &[ColumnTable<'_>], mapping: &Mapping) -> Option<usize>
    ensures { IfSome result (λ place. IsSomeAnd (slice_get tables.now place) (λ t. t.table.mapping ≡ mapping_of mapping.now)) }
{
    for place in 0..tables.len() {
        if tables[place].table().mapping.is_same(mapping) {
            return Some(place);
        }
    }
    None
}

impl<'a> EarlierColumn<'a> {
    /// Combines the tables of a column of the task, which were made one after the other from the operators' costs, with
    /// the remaining costs before each.
    pub fn new(
        alloc: Global,
        task: &'a FdrTask,
        tables: &'a [ColumnTable<'a>],
    ) -> Result<EarlierColumn<'a>, AllocError>
        requires of_task { All (λ t. t.task ≡ task.now) tables.now }
        requires made { IsPartition (cost_of task.now) (map (table_of task.now) (map (λ t. t.table) tables.now)) }
        ensures { IfOk result (λ c. c ≡ record { task = task.now; tables = map (λ t. t.table) tables.now }) }
    {
        let mut left = costs_of(alloc, task)?;
        let mut costs = Vec::with_capacity(alloc, tables.len())?;
        for table in tables {
            costs.push(Vec::from_slice(alloc, &left)?)?;
            take_shares(&mut left, &table.table().shares);
        }
        Ok(EarlierColumn {
            task,
            tables,
            costs,
        })
    }

    /// Returns a table of this mapping that has the distances under the remaining costs, if the column has one: each
    /// remaining cost is at least the operator's share, and those of operators that affect the abstraction are at most
    /// what remained before the table.
    pub(crate) fn table_for(
        &self,
        mapping: &Mapping,
        abstraction: &TableAbstraction<'_>,
        left: &[u32],
    ) -> Option<&ColumnTable<'a>>
        requires task { task_in abstraction.now ≡ self.now.task }
        requires mapping { mapping_in abstraction.now ≡ mapping_of mapping.now }
        requires operators { length left.now ≡ length self.now.task.operators }
        ensures task { IfSome result (λ t. t.now.task ≡ self.now.task) }
        ensures next { IfSome result (λ t. IsNextTable self.now.task (mapping_of mapping.now) (λ o. slice_index left.now o) t.now.table) }
    {
        let place = place_of(self.tables, mapping)?;
        let table = &self.tables[place];
        let costs = &self.costs[place];
        if are_left(left, &table.table().shares) && are_at_most(abstraction, left, costs) {
            Some(table)
        } else {
            None
        }
    }
}
