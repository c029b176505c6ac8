//! What a stage takes over from the one before.

ghost use Rattle.std.specs.Prelude.{◌≡◌, ◌^◌, map, All, IfOk};
ghost use Rattle.abstraction_mapping.specs.Views.{mapping_of};
ghost use Rattle.pdb_patterns.specs.Choices.{IsMappingWithin};
ghost use Rattle.scp.specs.Partitions.{mappings_of};
ghost use Rattle.scp_orders.specs.Orders.{AreOrders};

use abstraction_mapping::Mapping;
use fdr::FdrTask;
use scp_pool::Pool;
use std::alloc::{AllocError, Global};

/// Adds copies of those mappings of an order that are not in the pool. On failure the pool may have some of them.
fn add_order(alloc: Global, pool: &mut Pool<'_>, order: &[Mapping]) -> Result<(), AllocError>
    requires { All (λ m. IsMappingWithin pool.old.task (2 ^ 24) (mapping_of m)) order.now }
    ensures { pool.new.task ≡ pool.old.task }
{
    for mapping in order {
        pool.add(mapping.copied(alloc)?)?;
    }
    Ok(())
}

/// Returns a pool with each mapping of the orders once, in the order in which they first occur.
pub(crate) fn pool_from<'a>(
    alloc: Global,
    task: &'a FdrTask,
    orders: &[Vec<Mapping>],
) -> Result<Pool<'a>, AllocError>
    requires { AreOrders task.now (map mappings_of orders.now) }
    ensures { IfOk result (λ pool. pool.task ≡ task.now) }
{
    let mut pool = Pool::new(alloc, task);
    for order in orders {
        add_order(alloc, &mut pool, order)?;
    }
    Ok(pool)
}

/// Returns the index of the first mapping that is the same, or the number of mappings if there is none.
fn index_of(mappings: &[Mapping], mapping: &Mapping) -> usize {
    for index in 0..mappings.len() {
        if mappings[index].is_same(mapping) {
            return index;
        }
    }
    mappings.len()
}

/// Returns the indices of the mappings of an order.
fn indices_of(
    alloc: Global,
    mappings: &[Mapping],
    order: &[Mapping],
) -> Result<Vec<usize>, AllocError> {
    let mut indices = Vec::with_capacity(alloc, order.len())?;
    for mapping in order {
        indices.push(index_of(mappings, mapping))?;
    }
    Ok(indices)
}

/// Returns the orders as indices into the mappings. A mapping that is missing has the number of mappings.
pub(crate) fn orders_by_index(
    alloc: Global,
    mappings: &[Mapping],
    orders: &[Vec<Mapping>],
) -> Result<Vec<Vec<usize>>, AllocError> {
    let mut all = Vec::with_capacity(alloc, orders.len())?;
    for order in orders {
        all.push(indices_of(alloc, mappings, order)?)?;
    }
    Ok(all)
}
