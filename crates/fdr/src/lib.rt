//! Finite-domain tasks (SAS+: Bäckström and Nebel 1995): variables with their values, and operators that change them.
#![tactic(auto)]

mod fact;
mod operator;
mod task;

pub use fact::Fact;
pub use operator::Operator;
pub use task::{FdrTask, MAX_OPERATORS, MAX_VALUES, MAX_VARIABLES, TaskLimit};
