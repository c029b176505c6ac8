//! The sections of a PDDL problem that state the initial state, the goal and the cost of a plan.
#![tactic(auto)]

mod goals;
mod grounding;
mod initial;
mod metric;
mod value;

pub use goals::goal_section;
pub use initial::{Initial, initial_section};
pub use metric::metric_section;
