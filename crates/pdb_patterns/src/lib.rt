//! The choice of abstraction mappings for the tables of a task: patterns, and classes of the values of single
//! variables.
#![tactic(auto)]

mod choice;
mod domains;
mod effects;
mod from_goals;
mod growth;

pub use choice::{MAX_MAPPINGS, choose_mappings, has_mapping};
pub use from_goals::Growth;
