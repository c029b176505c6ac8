//! The certificate checker for planning tasks. From the texts of a task and of a certificate it decides whether the
//! certificate proves that every valid plan of the task costs at least its bound. It trusts neither the author of the
//! certificate nor the search that produced it.
#![tactic(auto)]

mod checking;
mod fault;
mod judging;
mod laws;
mod naming;
mod verdict;

pub use checker_fdr::{CheckFault, Verdict, check_fdr, check_sas, check_sas_owned};
pub use checking::{check_for_task, check_pddl};
pub use fault::PlanningCheckFault;
pub use judging::judge;
pub use laws::one_answer;
pub use verdict::{PlanningVerdict, PlanningViolation};
