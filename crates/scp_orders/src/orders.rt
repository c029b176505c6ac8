//! Orders of mappings.

ghost use Rattle.std.specs.Prelude.{◌≡◌, ◌≢◌, ◌≤◌, ◌^◌, [], ◌∷◌, length, map, All, IfOk, OnOk};
ghost use Rattle.fdr.specs.Tasks.{FiniteDomainTask};
ghost use Rattle.abstraction_mapping.specs.Views.{mapping_of};
ghost use Rattle.pdb_patterns.specs.Choices.{IsMappingWithin};
ghost use Rattle.scp_orders.specs.Orders.{AreOrders, IsChoice, mappings_of};

use abstraction_mapping::Mapping;
use pdb_patterns::has_mapping;
use scp_samples::MAX_TABLES;
use std::alloc::{AllocError, Global};

/// The greatest number of orders.
pub(crate) const MAX_COLUMNS: usize = 8;

/// Returns copies of the mappings with these indices, in order, but at most 64. Indices of no mapping are left out, and
/// so is a mapping that is in the order already.
fn order_by(
    alloc: Global,
    mappings: &[Mapping],
    indices: &[usize],
) -> Result<Vec<Mapping>, AllocError>
    ensures choice { IfOk result (λ order. IsChoice (map mapping_of mappings.now) (mappings_of order)) }
    ensures few { IfOk result (λ order. length order.items ≤ MAX_TABLES) }
{
    let mut order = Vec::new(alloc);
    for index in indices {
        if order.len() >= MAX_TABLES {
            break;
        }
        if let Some(mapping) = mappings.get(*index) {
            if !has_mapping(&order, mapping) {
                order.push(mapping.copied(alloc)?)?;
            }
        }
    }
    Ok(order)
}

/// Returns the orders of mappings by these orders of indices, but at most 8. Those without a mapping are left out.
fn orders_by(
    alloc: Global,
    mappings: &[Mapping],
    indices: &[Vec<usize>],
) -> Result<Vec<Vec<Mapping>>, AllocError>
    ensures orders { IfOk result (λ orders. (task : FiniteDomainTask) →
        All (λ m. IsMappingWithin task (2 ^ 24) (mapping_of m)) mappings.now →
        AreOrders task (map mappings_of orders.items)) }
    ensures choices { IfOk result (λ orders. All (IsChoice (map mapping_of mappings.now)) (map mappings_of orders.items)) }
{
    let mut orders = Vec::new(alloc);
    for indices in indices {
        if orders.len() >= MAX_COLUMNS {
            break;
        }
        let order = order_by(alloc, mappings, indices)?;
        if !order.is_empty() {
            orders.push(order)?;
        }
    }
    Ok(orders)
}

/// Returns the order of a copy of one mapping.
fn order_of(alloc: Global, mapping: &Mapping) -> Result<Vec<Mapping>, AllocError>
    ensures { IfOk result (λ order. mappings_of order ≡ mapping_of mapping.now ∷ []) }
{
    let mut order = Vec::with_capacity(alloc, 1)?;
    order.push(mapping.copied(alloc)?)?;
    Ok(order)
}

/// Returns the orders of mappings by these orders of indices, or the order of the first mapping alone if there is
/// none.
pub(crate) fn orders_or_first(
    alloc: Global,
    mappings: &[Mapping],
    indices: &[Vec<usize>],
) -> Result<Vec<Vec<Mapping>>, AllocError>
    ensures orders { IfOk result (λ orders. (task : FiniteDomainTask) →
        All (λ m. IsMappingWithin task (2 ^ 24) (mapping_of m)) mappings.now →
        AreOrders task (map mappings_of orders.items)) }
    ensures choices { IfOk result (λ orders. All (IsChoice (map mapping_of mappings.now)) (map mappings_of orders.items)) }
    ensures some { IfOk result (λ orders. mappings.now ≢ [] → orders.items ≢ []) }
{
    let mut orders = orders_by(alloc, mappings, indices)?;
    if orders.is_empty() {
        if let Some(first) = mappings.first() {
            orders.push(order_of(alloc, first)?)?;
        }
    }
    Ok(orders)
}
