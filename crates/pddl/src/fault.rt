//! Faults of two texts that are no planning task.

ghost use Rattle.std.specs.Prelude.{◌≡◌};
ghost use Rattle.pddl.specs.declared.fault.PddlFault.TheVariants.{OutOfMemory};

use pddl_syntax::{Fault, PlanningFile};
use sexp::SexpFault;
use std::alloc::AllocError;

/// The reason why two texts are no planning task: their first fault.
#[derive(Clone, Copy, Debug, PartialEq, Eq)]
pub enum PddlFault {
    /// Allocation failed. This says nothing about the texts.
    OutOfMemory,
    /// A fault of a text's tree (F1 to F7).
    Tree(PlanningFile, SexpFault),
    /// A fault of a text's content (F10 to F19).
    Section(PlanningFile, Fault),
}

impl From<AllocError> for PddlFault {
    ghost from_gives = { λ _ e. e ≡ OutOfMemory };

    fn from(_e: AllocError) -> PddlFault {
        PddlFault::OutOfMemory
    }
}
