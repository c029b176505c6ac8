//! Faults of grounding.

ghost use Rattle.std.specs.Prelude.{◌≡◌};
ghost use Rattle.ground.specs.declared.fault.GroundFault.TheVariants.{OutOfMemory};

use std::alloc::{AllocError, AllocFailed};

/// The reason why a task is not grounded.
#[derive(Clone, Copy, Debug, PartialEq, Eq)]
pub enum GroundFault {
    /// Allocation failed.
    OutOfMemory,
    /// F20: there are more atoms or ground actions than the limits allow.
    GroundLimit,
}

impl From<AllocError> for GroundFault {
    ghost from_gives = { λ _ e. e ≡ OutOfMemory };

    fn from(_e: AllocError) -> GroundFault {
        GroundFault::OutOfMemory
    }
}

impl<T: Drop> From<AllocFailed<T>> for GroundFault {
    ghost from_gives = { λ _ e. e ≡ OutOfMemory };

    fn from(_e: AllocFailed<T>) -> GroundFault {
        GroundFault::OutOfMemory
    }
}
