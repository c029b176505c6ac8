//! Mutex groups: lists of atoms of which at most one is true at a time, tested by examining the actions that add or
//! remove them.
#![tactic(auto)]

mod build;
mod index;
pub mod laws;
mod row;
mod tables;

pub use index::ActionIndex;
pub use laws::{constants_stay_true, groups_are_exclusive};
