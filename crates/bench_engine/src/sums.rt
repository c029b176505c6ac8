//! Sums over the owners of a search.

use owner::Owner;
use packed::StateForm;
use packed_spread::Spread;

/// Returns the number of nodes that all owners have expanded, capped at `u64::MAX`.
pub(crate) fn expanded_by<S: Spread + Drop, F: StateForm + Drop>(
    owners: &[Owner<'_, S, F>],
) -> u64 {
    let mut expansions: u64 = 0;
    for owner in owners {
        expansions = expansions.saturating_add(owner.expansions());
    }
    expansions
}

/// Returns the number of states that all owners store, capped at `usize::MAX`.
pub(crate) fn kept_by<S: Spread + Drop, F: StateForm + Drop>(owners: &[Owner<'_, S, F>]) -> usize {
    let mut kept: usize = 0;
    for owner in owners {
        kept = kept.saturating_add(owner.len());
    }
    kept
}
