//! The choice of the variables of a translation: the largest mutex groups first, and then single atoms.
#![tactic(auto)]

mod choice;
mod flags;
mod groups_at;
mod offers;
mod queue;

pub use choice::choose_variables;
