//! Faults of certificates' texts.

ghost use Rattle.std.specs.Prelude.{◌≡◌};
ghost use Rattle.cert_text.specs.declared.fault.CertFault.TheVariants.{OutOfMemory};

use std::alloc::{AllocError, AllocFailed};
use thiserror::Error;

/// The first fault of a text, or a failed allocation.
///
/// The first fault is the one on the earliest line. On the same line `Truncated` comes first, `Expected` before
/// `Number`, `Number` before `Order`, and `Order` before `Classes`. `TooLong` comes before the faults of all lines. The
/// codes are those of `docs/FAULTS.md`.
#[derive(Clone, Copy, Debug, PartialEq, Eq, Error)]
pub enum CertFault {
    /// Allocation failed. This says nothing about the text.
    #[error("out of memory")]
    OutOfMemory,
    /// F50: the first line is none of `optplan-cert 1`, `optplan-cert 2` and `optplan-cert 3`.
    #[error("F50 Header cert")]
    Header,
    /// F51: a line with another keyword than required, with a separator too many or too few, with a byte that no word
    /// may contain, or with another number of words than its counts state.
    #[error("F51 Expected cert {0}")]
    Expected(usize),
    /// F52: a word that must spell a number and does not, or spells one outside its limits.
    #[error("F52 Number cert {0}")]
    Number(usize),
    /// F53: a line without a line feed, or a missing line.
    #[error("F53 Truncated cert")]
    Truncated,
    /// F54: bytes after the last line. The number is that of the line after it.
    #[error("F54 Trailing cert {0}")]
    Trailing(usize),
    /// F55: numbers that must be strictly increasing and are not.
    #[error("F55 Order cert {0}")]
    Order(usize),
    /// F57: classes that are not numbered in the order of their first occurrences in their line: one is neither a class
    /// that occurs earlier there nor the least number that does not. In version 3 also the last line of the classes of
    /// the task, if no two values of a variable share a class.
    #[error("F57 Classes cert {0}")]
    Classes(usize),
    /// F56: more than 1,073,741,824 bytes.
    #[error("F56 TooLong cert")]
    TooLong,
}

impl From<AllocError> for CertFault {
    ghost from_gives = { λ _ e. e ≡ OutOfMemory };

    fn from(_e: AllocError) -> CertFault {
        CertFault::OutOfMemory
    }
}

impl<T: Drop> From<AllocFailed<T>> for CertFault {
    ghost from_gives = { λ _ e. e ≡ OutOfMemory };

    fn from(_e: AllocFailed<T>) -> CertFault {
        CertFault::OutOfMemory
    }
}
