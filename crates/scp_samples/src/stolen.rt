//! The costs that abstractions of the pool take from others (Seipp, Keller and Helmert 2020).

use crate::entry::{OperatorShare, PoolEntry};
use std::alloc::{AllocError, Global};

/// Adds the shares to the sums for their operators.
fn add_shares(sums: &mut [u64], shares: &[OperatorShare]) {
    for share in shares {
        if share.operator < sums.len() {
            sums[share.operator] = sums[share.operator].saturating_add(u64::from(share.share));
        }
    }
}

/// Returns the cost that an abstraction takes from others. It takes from an operator what all saturated shares
/// together have beyond its cost, but at most its own share: `min(w, w - (cost - others))` with its share `w` and the
/// sum `others` of the others' shares, as far as that is positive.
fn stolen_by(shares: &[OperatorShare], sums: &[u64], costs: &[u32]) -> u64 {
    let mut stolen: u64 = 0;
    for share in shares {
        let sum = sums.get(share.operator).copied().unwrap_or(0);
        let cost = costs.get(share.operator).copied().unwrap_or(0);
        let excess = sum.saturating_sub(u64::from(cost));
        stolen = stolen.saturating_add(excess.min(u64::from(share.share)));
    }
    stolen
}

/// Returns the sum of the shares of each operator over all entries.
fn sums_of(
    alloc: Global,
    entries: &[PoolEntry<'_>],
    operators: usize,
) -> Result<Vec<u64>, AllocError> {
    let mut sums = vec![in alloc; 0; operators]?;
    for entry in entries {
        add_shares(&mut sums, &entry.shares);
    }
    Ok(sums)
}

/// Returns the cost that each entry takes from others.
pub(crate) fn stolen_costs(
    alloc: Global,
    entries: &[PoolEntry<'_>],
    costs: &[u32],
) -> Result<Vec<u64>, AllocError> {
    let sums = sums_of(alloc, entries, costs.len())?;
    let mut stolen = Vec::with_capacity(alloc, entries.len())?;
    for entry in entries {
        stolen.push(stolen_by(&entry.shares, &sums, costs))?;
    }
    Ok(stolen)
}
