//! Abstractions in which a sampled state has an infinite distance.

use std::alloc::{AllocError, Global};

/// The greatest number of abstractions of an order, which is that of the tables of a column.
pub const MAX_TABLES: usize = 64;

/// Returns whether an order has the index.
fn has_index(orders: &[Vec<usize>], index: usize) -> bool {
    orders.iter().any(|order| order.contains(&index))
}

/// Appends the index to the first order with fewer than 64 tables. If there is no order, makes one with the index
/// alone.
fn append_index(
    alloc: Global,
    orders: &mut Vec<Vec<usize>>,
    index: usize,
) -> Result<(), AllocError> {
    if orders.is_empty() {
        let mut order = Vec::new(alloc);
        order.push(index)?;
        orders.push(order)?;
        return Ok(());
    }
    for order in orders.iter_mut() {
        if order.len() < MAX_TABLES {
            order.push(index)?;
            return Ok(());
        }
    }
    Ok(())
}

/// Appends the indices of the marked abstractions of the pool that are in no order, each to the first order with fewer
/// than 64. If there is no order, the first of them begins one. Their tables may have no costs left, but they still
/// have the infinite distances. After an error only some of them are appended.
pub fn append_dead_ends(
    alloc: Global,
    orders: &mut Vec<Vec<usize>>,
    has_dead_end: &[bool],
) -> Result<(), AllocError> {
    for (index, is_marked) in has_dead_end.iter().enumerate() {
        if *is_marked && !has_index(orders, index) {
            append_index(alloc, orders, index)?;
        }
    }
    Ok(())
}

/// Returns the order of the first marked abstraction of the pool alone, or no order if none is marked.
pub fn first_dead_end(alloc: Global, has_dead_end: &[bool]) -> Result<Vec<Vec<usize>>, AllocError> {
    let mut orders = Vec::new(alloc);
    if let Some(index) = has_dead_end.iter().position(|is_marked| *is_marked) {
        append_index(alloc, &mut orders, index)?;
    }
    Ok(orders)
}
