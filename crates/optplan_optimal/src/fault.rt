//! Faults of the texts that are judged.

ghost use Rattle.std.specs.Prelude.{◌≡◌};
ghost use Rattle.optplan_optimal.specs.declared.fault.OptimalityFault.TheVariants.{OutOfMemory};
ghost use Rattle.optplan_optimal.specs.Faults.{fault_of_task, fault_of_plan, fault_of_check};

use cert_text::CertFault;
use checker::PlanningCheckFault;
use fdr::TaskLimit;
use pddl::PddlFault;
use std::alloc::AllocError;
use validate::PlanFault;

/// The reason why there is no verdict on the texts of a planning task, of a plan and of a certificate: the first fault,
/// in this order of the texts.
#[derive(Debug, Drop)]
pub enum OptimalityFault {
    /// Allocation failed. This says nothing about the texts.
    OutOfMemory,
    /// The text of the domain or of the problem is refused.
    Task(PddlFault),
    /// The text of the plan is refused.
    Plan(PlanFault),
    /// The text of the certificate is refused, or it is one for a finite-domain task (`Expected` on line 2).
    Cert(CertFault),
    /// F20: the certificate lists more than 262,144 atoms, or there are more than 1,048,576 ground actions over them.
    GroundLimit,
    /// F18: the certificate has more than 65,536 variables, or a variable with more than 65,536 values.
    Limit(TaskLimit),
}

impl From<AllocError> for OptimalityFault {
    ghost from_gives = { λ _ e. e ≡ OutOfMemory };

    fn from(_e: AllocError) -> OptimalityFault {
        OptimalityFault::OutOfMemory
    }
}

impl From<PddlFault> for OptimalityFault {
    ghost from_gives = { λ fault e. e ≡ fault_of_task fault };

    fn from(fault: PddlFault) -> OptimalityFault {
        match fault {
            PddlFault::OutOfMemory => OptimalityFault::OutOfMemory,
            PddlFault::Tree(_, _) | PddlFault::Section(_, _) => OptimalityFault::Task(fault),
        }
    }
}

impl From<PlanFault> for OptimalityFault {
    ghost from_gives = { λ fault e. e ≡ fault_of_plan fault };

    fn from(fault: PlanFault) -> OptimalityFault {
        match fault {
            PlanFault::OutOfMemory => OptimalityFault::OutOfMemory,
            PlanFault::Tree(_) | PlanFault::PlanShape(_) | PlanFault::PlanLimit =>
                OptimalityFault::Plan(fault),
        }
    }
}

impl From<PlanningCheckFault> for OptimalityFault {
    ghost from_gives = { λ fault e. e ≡ fault_of_check fault };

    fn from(fault: PlanningCheckFault) -> OptimalityFault {
        match fault {
            PlanningCheckFault::OutOfMemory => OptimalityFault::OutOfMemory,
            PlanningCheckFault::Task(fault) => OptimalityFault::Task(fault),
            PlanningCheckFault::Cert(fault) => OptimalityFault::Cert(fault),
            PlanningCheckFault::GroundLimit => OptimalityFault::GroundLimit,
            PlanningCheckFault::Limit(limit) => OptimalityFault::Limit(limit),
        }
    }
}
