//! Faults of the texts that are checked.

ghost use Rattle.std.specs.Prelude.{◌≡◌};
ghost use Rattle.checker.specs.declared.fault.PlanningCheckFault.TheVariants.{OutOfMemory};

use cert_text::CertFault;
use fdr::TaskLimit;
use pddl::PddlFault;
use std::alloc::{AllocError, AllocFailed};

/// The reason why there is no verdict on the texts of a planning task and of a certificate.
#[derive(Debug, Drop)]
pub enum PlanningCheckFault {
    /// Allocation failed. This says nothing about the texts.
    OutOfMemory,
    /// The text of the domain or of the problem is refused.
    Task(PddlFault),
    /// The text of the certificate is refused, or it is one for a finite-domain task (`Expected` on line 2).
    Cert(CertFault),
    /// F20: the certificate lists more than 262,144 atoms, or there are more than 1,048,576 ground actions over them.
    GroundLimit,
    /// F18: the certificate has more than 65,536 variables, or a variable with more than 65,536 values.
    Limit(TaskLimit),
}

impl From<AllocError> for PlanningCheckFault {
    ghost from_gives = { λ _ e. e ≡ OutOfMemory };

    fn from(_e: AllocError) -> PlanningCheckFault {
        PlanningCheckFault::OutOfMemory
    }
}

impl<T: Drop> From<AllocFailed<T>> for PlanningCheckFault {
    ghost from_gives = { λ _ e. e ≡ OutOfMemory };

    fn from(_e: AllocFailed<T>) -> PlanningCheckFault {
        PlanningCheckFault::OutOfMemory
    }
}
