//! Faults of listed atoms and variables.

ghost use Rattle.std.specs.Prelude.{◌≡◌};
ghost use Rattle.translate_vars.specs.declared.fault.TranslateFault.TheVariants.{OutOfMemory};

use fdr::TaskLimit;
use ground::GroundFault;
use pddl_task::GroundAtom;
use std::alloc::{AllocError, AllocFailed};

/// The reason why listed atoms and variables are not fit for a translation.
#[derive(Debug, Drop)]
pub enum TranslateFault {
    /// Allocation failed. This says nothing about the atoms and the variables.
    OutOfMemory,
    /// F20: there are more than 262,144 atoms, or more than 1,048,576 ground actions over them.
    GroundLimit,
    /// F18: there are more than 65,536 variables, or more than 65,536 values of one variable.
    Limit(TaskLimit),
    /// F30: the atom at this index is not an atom of the task, or is a duplicate of an earlier one.
    BadAtom(usize),
    /// F31: the atom is initially true or a goal, and is not listed.
    Missing(GroundAtom),
    /// F32: an action over the listed atoms adds this atom, which is not listed.
    NotClosed(GroundAtom),
    /// F33: the atom at this index is not constant, and in no variable.
    Uncovered(usize),
    /// F34: the variable has several atoms, which are not a usable mutex group.
    NotGroup(usize),
    /// F35: the variable has several atoms and no none value, but they are not a full group.
    NotFull(usize),
    /// F36: the variable has a constant atom or an atom of an earlier variable; or it has several atoms, and one of
    /// them is used negatively or two are goals; or it has a single atom and no none value.
    Misplaced(usize),
}

impl From<GroundFault> for TranslateFault {
    ghost use Rattle.translate_vars.specs.Passed.{fault_of_ground};

    ghost from_gives = { λ fault e. e ≡ fault_of_ground fault };

    fn from(fault: GroundFault) -> TranslateFault {
        match fault {
            GroundFault::OutOfMemory => TranslateFault::OutOfMemory,
            GroundFault::GroundLimit => TranslateFault::GroundLimit,
        }
    }
}

impl From<AllocError> for TranslateFault {
    ghost from_gives = { λ _ e. e ≡ OutOfMemory };

    fn from(_e: AllocError) -> TranslateFault {
        TranslateFault::OutOfMemory
    }
}

impl<T: Drop> From<AllocFailed<T>> for TranslateFault {
    ghost from_gives = { λ _ e. e ≡ OutOfMemory };

    fn from(_e: AllocFailed<T>) -> TranslateFault {
        TranslateFault::OutOfMemory
    }
}
