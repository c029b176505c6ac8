//! Reasons why the planner has no answer.

ghost use Rattle.std.specs.Prelude.{◌≡◌};
ghost use Rattle.translate.specs.declared.fault.SizeFault.TheVariants as size;
ghost use Rattle.optplan_pddl.specs.declared.fault.PrepareFault.TheVariants.{Reading, Size};

use optplan_solver::SolveFault;
use pddl::PddlFault;
use std::alloc::AllocError;
use translate::SizeFault;

/// The reason why two texts are not prepared for a search.
#[derive(Debug, Drop)]
pub enum PrepareFault {
    /// The domain's or the problem's text is refused.
    Reading(PddlFault),
    /// The task, or its translation, is too large.
    Size(SizeFault),
}

impl From<PddlFault> for PrepareFault {
    ghost from_gives = { λ fault e. e ≡ Reading fault };

    fn from(fault: PddlFault) -> PrepareFault {
        PrepareFault::Reading(fault)
    }
}

impl From<SizeFault> for PrepareFault {
    ghost from_gives = { λ fault e. e ≡ Size fault };

    fn from(fault: SizeFault) -> PrepareFault {
        PrepareFault::Size(fault)
    }
}

impl From<AllocError> for PrepareFault {
    ghost from_gives = { λ _ e. e ≡ Size size.OutOfMemory };

    fn from(_e: AllocError) -> PrepareFault {
        PrepareFault::Size(SizeFault::OutOfMemory)
    }
}

/// The reason why a planning task is not solved.
pub type PlanningFault = SolveFault<PrepareFault>;
