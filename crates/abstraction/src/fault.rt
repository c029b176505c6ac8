//! Faults of patterns.

use std::alloc::AllocError;

/// The reason why a pattern has no projection.
#[derive(Clone, Copy, Debug, PartialEq, Eq)]
pub enum ProjectionFault {
    /// Allocation failed.
    OutOfMemory,
    /// The task lacks the variable at this index of the pattern, and none at an index before it.
    UnknownVariable(usize),
    /// The projection has more than 2^24 abstract states.
    TableTooLarge,
}

impl From<AllocError> for ProjectionFault {
    ghost use Rattle.std.specs.Prelude.{◌≡◌};
    ghost use Rattle.abstraction.specs.declared.fault.ProjectionFault.TheVariants.{OutOfMemory};

    ghost from_gives = { λ e fault. fault ≡ OutOfMemory };

    fn from(_: AllocError) -> ProjectionFault {
        ProjectionFault::OutOfMemory
    }
}
