//! The faults of an expansion.

ghost use Rattle.std.specs.Prelude.{◌≡◌};
ghost use Rattle.owner.specs.declared.fault.OwnerFault.TheVariants.{OutOfMemory};

use std::alloc::AllocError;

/// The reason why an owner does not expand its next node.
#[derive(Clone, Copy, Debug, PartialEq, Eq)]
pub enum OwnerFault {
    /// Allocation failed.
    OutOfMemory,
    /// A successor would have a cost, or a number of operators, above 2^62.
    TotalTooLarge,
    /// The owner has expanded as many nodes as its limit allows.
    LimitReached,
}

impl From<AllocError> for OwnerFault {
    ghost from_gives = { λ _ e. e ≡ OutOfMemory };

    fn from(_e: AllocError) -> OwnerFault {
        OwnerFault::OutOfMemory
    }
}
