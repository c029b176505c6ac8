//! Optimality of plans for planning tasks, and the command that judges it. From the texts of a task, of a plan and of
//! a certificate it decides whether the plan is valid and whether the certificate proves that no valid plan is cheaper,
//! or that there is no valid plan. It trusts neither the author of the plan nor that of the certificate, and searches
//! nothing.
#![tactic(auto)]

mod fault;
mod judging;
mod laws;
mod running;
mod verdict;

pub use fault::OptimalityFault;
pub use judging::judge_optimality;
pub use laws::{answered_not_refused, one_answer, worked_claims, worked_lines, worked_noop};
pub use running::run_optimality;
pub use verdict::OptimalityVerdict;
