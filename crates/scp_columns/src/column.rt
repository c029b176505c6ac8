//! Columns, built table by table (saturated cost partitioning).

ghost use Rattle.std.specs.Prelude.{◌≡◌, ℕ, ◌<◌, ◌^◌, true, length, map, slice_index, All, IfOk, IfSome};
ghost use Rattle.cost.specs.Distances.{IsWithin};
ghost use Rattle.abstraction_mapping.specs.Mappings.{is_mapping};
ghost use Rattle.abstraction_mapping.specs.Views.{mapping_of, task_in, mapping_in, abstraction_in};
ghost use Rattle.pdb_walks.specs.Walks.{AreDistances, IsGreatestFall, value_in};
ghost use Rattle.pdb_patterns.specs.Choices.{IsMappingWithin};
ghost use Rattle.scp_columns.specs.ColumnTables.{tables_of};
ghost use Rattle.scp_columns.specs.Partitions.{IsMadeFrom, IsNextTable};

use crate::costs::{costs_of, take_shares};
use crate::earlier::EarlierColumn;
use crate::shares::shares_of;
use crate::table::ColumnTable;
use abstraction_groups::{BackwardAbstraction, Groups, Listed, OperatorIndex};
use abstraction_mapping::{Mapping, TableAbstraction};
use cert_value::{AbstractionTable, Values};
use fdr::FdrTask;
use pdb::{distances, saturate};
use pdb_regression::BackwardProjection;
use std::alloc::{AllocError, Global};

/// Returns the abstraction of the task by one of its mappings.
fn abstraction_to<'a>(
    alloc: Global,
    task: &'a FdrTask,
    mapping: &Mapping,
) -> Result<TableAbstraction<'a>, AllocError>
    requires { is_mapping task.now (mapping_of mapping.now) ≡ true }
    ensures { IfOk result (λ a. (task_in a ≡ task.now) × (mapping_in a ≡ mapping_of mapping.now)) }
{
    match TableAbstraction::new(alloc, task, mapping)? {
        Some(abstraction) => Ok(abstraction),
        None => unreachable!(),
    }
}

/// Returns the distances of an abstraction under the remaining costs, and the saturated cost function, computed by
/// regression over `backward`.
#[tactic(auto, using(pdb::proofs::Falls::distances_are_consistent))]
fn saturated_by<A: BackwardAbstraction>(
    alloc: Global,
    backward: &A,
    left: &[u32],
) -> Result<(Values, Vec<u32>), AllocError>
    requires operators { length left.now ≡ length (A.task backward.now).operators }
    requires small { (o : ℕ) → slice_index left.now o < 2 ^ 31 }
    ensures distances { IfOk result (λ made. AreDistances (A.abstraction backward.now) (λ o. slice_index left.now o) made.0) }
    ensures small { IfOk result (λ made. All (IsWithin (2 ^ 55)) made.0) }
    ensures len { IfOk result (λ made. length made.1.items ≡ length left.now) }
    ensures needed { IfOk result (λ made. (o : ℕ) →
        IsGreatestFall (A.abstraction backward.now) (value_in made.0) o (slice_index made.1.items o)) }
{
    let values = distances(alloc, backward, left)?;
    let needed = saturate(alloc, backward, left, &values)?;
    Ok((values, needed))
}

/// Returns the distances of an abstraction under the remaining costs, and the saturated cost function. `index` is that
/// of the abstraction's task.
fn saturated_distances(
    alloc: Global,
    index: &OperatorIndex<'_>,
    abstraction: &TableAbstraction<'_>,
    left: &[u32],
) -> Result<(Values, Vec<u32>), AllocError>
    requires index { index.now ≡ task_in abstraction.now }
    requires operators { length left.now ≡ length (task_in abstraction.now).operators }
    requires small { (o : ℕ) → slice_index left.now o < 2 ^ 31 }
    ensures distances { IfOk result (λ made. AreDistances (abstraction_in abstraction.now) (λ o. slice_index left.now o) made.0) }
    ensures small { IfOk result (λ made. All (IsWithin (2 ^ 55)) made.0) }
    ensures len { IfOk result (λ made. length made.1.items ≡ length left.now) }
    ensures needed { IfOk result (λ made. (o : ℕ) →
        IsGreatestFall (abstraction_in abstraction.now) (value_in made.0) o (slice_index made.1.items o)) }
{
    match abstraction {
        TableAbstraction::Projection(projection) => {
            let backward = BackwardProjection::new(alloc, projection, index)?;
            saturated_by(alloc, &backward, left)
        }
        TableAbstraction::Domain(domain) => {
            let groups = Groups::new(alloc, domain, index)?;
            let backward = Listed::new(alloc, groups)?;
            saturated_by(alloc, &backward, left)
        }
    }
}

/// Returns the table of a mapping with the distances under the remaining costs, whose shares are the saturated cost
/// function. `index` is that of the task.
fn new_table<'a>(
    alloc: Global,
    task: &'a FdrTask,
    index: &OperatorIndex<'_>,
    mapping: &Mapping,
    abstraction: &TableAbstraction<'_>,
    left: &[u32],
) -> Result<ColumnTable<'a>, AllocError>
    requires index { index.now ≡ task.now }
    requires mapping { IsMappingWithin task.now (2 ^ 24) (mapping_of mapping.now) }
    requires abstraction { (task_in abstraction.now ≡ task.now) × (mapping_in abstraction.now ≡ mapping_of mapping.now) }
    requires operators { length left.now ≡ length task.now.operators }
    requires small { (o : ℕ) → slice_index left.now o < 2 ^ 31 }
    ensures task { IfOk result (λ t. t.task ≡ task.now) }
    ensures next { IfOk result (λ t. IsNextTable task.now (mapping_of mapping.now) (λ o. slice_index left.now o) t.table) }
{
    task.recall();
    let (values, needed) = saturated_distances(alloc, index, abstraction, left)?;
    let shares = shares_of(alloc, &needed)?;
    let mapping = mapping.copied(alloc)?;
    let table = AbstractionTable {
        mapping,
        shares,
        values,
    };
    Ok(ColumnTable::new(task, table))
}

/// Returns the table of a mapping with the distances under the remaining costs, copied from the earlier column if that
/// has it. `index` is that of the task.
fn table_under<'a>(
    alloc: Global,
    task: &'a FdrTask,
    index: &OperatorIndex<'_>,
    mapping: &Mapping,
    left: &[u32],
    earlier: Option<&EarlierColumn<'_>>,
) -> Result<ColumnTable<'a>, AllocError>
    requires index { index.now ≡ task.now }
    requires mapping { IsMappingWithin task.now (2 ^ 24) (mapping_of mapping.now) }
    requires operators { length left.now ≡ length task.now.operators }
    requires small { (o : ℕ) → slice_index left.now o < 2 ^ 31 }
    requires earlier { IfSome earlier (λ c. c.now.task ≡ task.now) }
    ensures task { IfOk result (λ t. t.task ≡ task.now) }
    ensures next { IfOk result (λ t. IsNextTable task.now (mapping_of mapping.now) (λ o. slice_index left.now o) t.table) }
{
    let abstraction = abstraction_to(alloc, task, mapping)?;
    if let Some(earlier) = earlier {
        if let Some(table) = earlier.table_for(mapping, &abstraction, left) {
            return table.copied(alloc, task);
        }
    }
    new_table(alloc, task, index, mapping, &abstraction, left)
}

/// Returns a column with a table for each mapping, in order, by saturated cost partitioning (Seipp, Keller and Helmert
/// 2020): a table has the distances under the remaining costs of the operators, and its shares are the least that
/// preserve these distances. Each mapping must be one of the task that retains information on at least one variable,
/// with at most 2^24 abstract states and with classes numbered in the order of their first occurrence in their row.
/// Tables that an earlier column of the task has too are copied from it; the result does not depend on that.
pub fn make_column<'a>(
    alloc: Global,
    task: &'a FdrTask,
    mappings: &[Mapping],
    earlier: Option<&EarlierColumn<'_>>,
) -> Result<Vec<ColumnTable<'a>>, AllocError>
    requires mappings { All (λ m. IsMappingWithin task.now (2 ^ 24) (mapping_of m)) mappings.now }
    requires earlier { IfSome earlier (λ c. c.now.task ≡ task.now) }
    ensures task { IfOk result (λ column. All (λ t. t.task ≡ task.now) column.items) }
    ensures made { IfOk result (λ column. IsMadeFrom task.now (map mapping_of mappings.now) (tables_of column)) }
{
    let index = OperatorIndex::new(alloc, task)?;
    let mut left = costs_of(alloc, task)?;
    let mut column = Vec::with_capacity(alloc, mappings.len())?;
    for mapping in mappings {
        let table = table_under(alloc, task, &index, mapping, &left, earlier)?;
        take_shares(&mut left, &table.table().shares);
        column.push(table)?;
    }
    Ok(column)
}
