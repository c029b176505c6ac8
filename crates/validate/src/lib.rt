//! Plans, and the verdict on a plan in a task: that it is valid (Fox and Long 2003) at a cost, or its first fault.
#![tactic(auto)]

pub mod laws;
mod plan;
mod reading;
mod state;
mod verdict;
mod writing;

pub use plan::{Plan, PlanFault, Step};
pub use reading::read_plan;
pub use verdict::{Verdict, validate};
pub use writing::{plan_text, verdict_line};
