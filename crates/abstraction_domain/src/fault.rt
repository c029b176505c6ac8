//! Faults of rows of classes.

use std::alloc::AllocError;

/// The reason why rows of classes have no domain abstraction.
#[derive(Clone, Copy, Debug, PartialEq, Eq)]
pub enum DomainFault {
    /// Allocation failed.
    OutOfMemory,
    /// The row at this index is on a variable that the task does not have. Each row before it fits the task.
    UnknownVariable(usize),
    /// The row at this index does not have exactly one class for each value of its variable. Each row before it fits
    /// the task.
    WrongRange(usize),
    /// There are more than 2^24 abstract states, and each row fits the task.
    TableTooLarge,
}

impl From<AllocError> for DomainFault {
    ghost use Rattle.std.specs.Prelude.{◌≡◌};
    ghost use Rattle.abstraction_domain.specs.declared.fault.DomainFault.TheVariants.{OutOfMemory};

    ghost from_gives = { λ e fault. fault ≡ OutOfMemory };

    fn from(_: AllocError) -> DomainFault {
        DomainFault::OutOfMemory
    }
}
