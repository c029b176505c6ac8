//! The reason why a search has no finding.

ghost use Rattle.std.specs.Prelude.{◌≡◌};
ghost use Rattle.optplan_search.specs.declared.fault.SearchFault.TheVariants as search;

use std::alloc::AllocError;

/// The reason why a search has no finding.
#[derive(Clone, Copy, Debug, PartialEq, Eq)]
pub enum SearchFault {
    /// Allocation failed. This says nothing about the task.
    OutOfMemory,
    /// A path would have a cost, or a number of operators, above 2^62.
    TotalTooLarge,
}

impl From<AllocError> for SearchFault {
    ghost from_gives = { λ _ e. e ≡ search.OutOfMemory };

    fn from(_e: AllocError) -> SearchFault {
        SearchFault::OutOfMemory
    }
}
