//! Faults of texts.

ghost use Rattle.std.specs.Prelude.{◌≡◌};
ghost use Rattle.sasfile_reader.specs.declared.fault.SasFault.TheVariants.{OutOfMemory};

use fdr::TaskLimit;
use std::alloc::{AllocError, AllocFailed};
use thiserror::Error;

/// The first fault of a text, or a failed allocation.
///
/// The first fault is the one on the earliest line. On the same line F44 comes before F41, and F41 before all others.
/// The codes are those of `docs/FAULTS.md`.
#[derive(Clone, Copy, Debug, PartialEq, Eq, Error)]
pub enum SasFault {
    /// Allocation failed. This says nothing about the text.
    #[error("out of memory")]
    OutOfMemory,
    /// F18: more variables, values of a variable or operators than the limits of a task allow.
    #[error("F18 Limit {0}")]
    Limit(TaskLimit),
    /// F40: a version other than 3.
    #[error("F40 Version sas {0}")]
    Version(usize),
    /// F41: a line that does not have the required form.
    #[error("F41 Expected sas {0}")]
    Expected(usize),
    /// F42: a number that is out of its range, or a variable that a list of conditions or effects names a second time.
    #[error("F42 Range sas {0}")]
    Range(usize),
    /// F43: an axiom layer other than -1, or a number of axioms other than 0.
    #[error("F43 Axioms sas {0}")]
    Axioms(usize),
    /// F44: a conditional effect, which has conditions of its own.
    #[error("F44 ConditionalEffect sas {0}")]
    ConditionalEffect(usize),
    /// F45: the text ends before its last line.
    #[error("F45 Truncated sas")]
    Truncated,
    /// F46: a line that is not empty after the end of the task.
    #[error("F46 Trailing sas {0}")]
    Trailing(usize),
}

impl From<AllocError> for SasFault {
    ghost from_gives = { λ _ e. e ≡ OutOfMemory };

    fn from(_e: AllocError) -> SasFault {
        SasFault::OutOfMemory
    }
}

impl<T: Drop> From<AllocFailed<T>> for SasFault {
    ghost from_gives = { λ _ e. e ≡ OutOfMemory };

    fn from(_e: AllocFailed<T>) -> SasFault {
        SasFault::OutOfMemory
    }
}
