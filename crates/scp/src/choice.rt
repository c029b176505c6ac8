//! The choice of columns.

ghost use Rattle.std.specs.Prelude.{◌≡◌, ◌≤◌, ◌^◌, ◌++◌, length, map, min, IfOk, OnOk};
ghost use Rattle.abstraction_mapping.specs.Views.{mapping_of};
ghost use Rattle.scp.specs.Partitions.{mappings_of};
ghost use Rattle.scp.specs.Orders.{order_from, orders_from, AreChosen};

use crate::columns::{Columns, make_columns};
use abstraction_mapping::Mapping;
use fdr::FdrTask;
use pdb_patterns::choose_mappings;
use std::alloc::{AllocError, Global};
use std::thread::Threads;

/// The greatest number of columns that `choose_columns` makes.
pub const MAX_COLUMNS: usize = 8;

/// Appends copies of mappings.
fn append_copies(
    alloc: Global,
    order: &mut Vec<Mapping>,
    mappings: &[Mapping],
) -> Result<(), AllocError>
    ensures { OnOk result (map mapping_of order.new.items ≡ map mapping_of order.old.items ++ map mapping_of mappings.now) }
{
    for mapping in mappings {
        order.push(mapping.copied(alloc)?)?;
    }
    Ok(())
}

/// Returns all mappings, from index `first` to the end, followed by those before it.
fn order_from(alloc: Global, mappings: &[Mapping], first: usize) -> Result<Vec<Mapping>, AllocError>
    requires { first ≤ length mappings.now }
    ensures { IfOk result (λ order. mappings_of order ≡ order_from first (map mapping_of mappings.now)) }
{
    let (before, from) = mappings.split_at(first);
    let mut order = Vec::with_capacity(alloc, mappings.len())?;
    append_copies(alloc, &mut order, from)?;
    append_copies(alloc, &mut order, before)?;
    Ok(order)
}

/// Returns the orders of mappings, one for each column: the k-th starts with the k-th mapping. There are at most
/// `MAX_COLUMNS`.
#[tactic(auto, unfolding(crate::specs::Orders::orders_from))]
fn orders_of(alloc: Global, mappings: &[Mapping]) -> Result<Vec<Vec<Mapping>>, AllocError>
    ensures { IfOk result (λ orders. map mappings_of orders.items ≡ orders_from (min 8 (length mappings.now)) (map mapping_of mappings.now)) }
{
    let mut orders = Vec::new(alloc);
    for first in 0..mappings.len().min(MAX_COLUMNS) {
        orders.push(order_from(alloc, mappings, first)?)?;
    }
    Ok(orders)
}

/// Returns the cost-partitioned columns of the task for a search, from the mappings that `choose_mappings` chooses: at
/// most 64, with at most `limit` abstract states each. The limit must be from 1 to 2^24. There is a column for each of
/// the first 8 mappings: it starts with that mapping and has all mappings in cyclic order. The contract specifies the
/// mappings as that of `choose_mappings` does. Columns are made in parallel.
pub fn choose_columns<'a, R: Threads + Sync>(
    rt: &R,
    alloc: Global,
    task: &'a FdrTask,
    limit: usize,
) -> Result<Columns<'a>, AllocError>
    requires some { 1 ≤ limit }
    requires small { limit ≤ 2 ^ 24 }
    ensures task { IfOk result (λ columns. columns.task ≡ task.now) }
    ensures chosen { IfOk result (λ columns. AreChosen task.now limit columns.columns) }
{
    let mappings = choose_mappings(alloc, task, limit)?;
    let orders = orders_of(alloc, &mappings)?;
    make_columns(rt, alloc, task, &orders)
}
