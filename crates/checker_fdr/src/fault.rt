//! Faults of the texts that are checked.

ghost use Rattle.std.specs.Prelude.{◌≡◌};
ghost use Rattle.checker_fdr.specs.declared.fault.CheckFault.TheVariants.{OutOfMemory};

use cert_text::CertFault;
use sasfile_reader::SasFault;
use std::alloc::AllocError;

/// The reason why there is no verdict on the texts of a task and of a certificate.
#[derive(Clone, Copy, Debug, PartialEq, Eq)]
pub enum CheckFault {
    /// Allocation failed. This says nothing about the texts.
    OutOfMemory,
    /// The text of the task is refused.
    Sas(SasFault),
    /// The text of the certificate is refused, or it is one for a planning task (`Expected` on line 2).
    Cert(CertFault),
}

impl From<AllocError> for CheckFault {
    ghost from_gives = { λ _ e. e ≡ OutOfMemory };

    fn from(_e: AllocError) -> CheckFault {
        CheckFault::OutOfMemory
    }
}
