//! Reasons why a multi-threaded search fails.

ghost use Rattle.std.specs.Prelude.{◌≡◌};
ghost use Rattle.engine.specs.declared.fault.EngineFault.TheVariants as engine;

use std::alloc::AllocError;

/// The reason why a multi-threaded search fails. What it has reached is lost.
#[derive(Clone, Copy, Debug, PartialEq, Eq)]
pub enum EngineFault {
    /// Allocation failed. This says nothing about the task.
    OutOfMemory,
    /// A path would have a cost, or a number of operators, above 2^62.
    TotalTooLarge,
    /// The gate made the search fail before a turn: the worker's number, and the turn's, counted from 1 in its round.
    Gate(usize, u64),
}

impl From<AllocError> for EngineFault {
    ghost from_gives = { λ _ e. e ≡ engine.OutOfMemory };

    fn from(_e: AllocError) -> EngineFault {
        EngineFault::OutOfMemory
    }
}
