//! Reasons why a planning task has no translation.

ghost use Rattle.std.specs.Prelude.{◌≡◌};
ghost use Rattle.translate.specs.declared.fault.SizeFault.TheVariants.{OutOfMemory};
ghost use Rattle.translate.specs.Translated.{fault_of_ground, fault_of_assembly};

use fdr::TaskLimit;
use ground::GroundFault;
use std::alloc::AllocError;
use translate_assembly::AssemblyFault;

/// The reason why a planning task has no translation: it, or its translation, is too large.
#[derive(Clone, Copy, Debug, PartialEq, Eq)]
pub enum SizeFault {
    /// Allocation failed. This says nothing about the task.
    OutOfMemory,
    /// F20: the task has more relaxed reachable atoms, or more ground actions over them, than the limits allow.
    GroundLimit,
    /// F18: the finite-domain task would have more variables, values of a variable or operators than the limits allow.
    Limit(TaskLimit),
}

impl From<AllocError> for SizeFault {
    ghost from_gives = { λ _ e. e ≡ OutOfMemory };

    fn from(_e: AllocError) -> SizeFault {
        SizeFault::OutOfMemory
    }
}

impl From<GroundFault> for SizeFault {
    ghost from_gives = { λ fault e. e ≡ fault_of_ground fault };

    fn from(fault: GroundFault) -> SizeFault {
        match fault {
            GroundFault::OutOfMemory => SizeFault::OutOfMemory,
            GroundFault::GroundLimit => SizeFault::GroundLimit,
        }
    }
}

impl From<AssemblyFault> for SizeFault {
    ghost from_gives = { λ fault e. e ≡ fault_of_assembly fault };

    fn from(fault: AssemblyFault) -> SizeFault {
        match fault {
            AssemblyFault::OutOfMemory => SizeFault::OutOfMemory,
            AssemblyFault::Limit(limit) => SizeFault::Limit(limit),
        }
    }
}
