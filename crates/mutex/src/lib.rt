//! Mutex groups: the candidates that are proposed, which are sets of predicates with one argument in common; those of
//! their instances for each object that are groups; and the test of whether a list of atoms is one.
#![tactic(auto)]

mod candidates;
mod group_list;
mod instances;
pub mod laws;
mod parts;
mod proposals;

pub use candidates::{Candidate, MAX_CANDIDATES, propose};
pub use group_list::{Group, Groups};
pub use mutex_index::{ActionIndex, constants_stay_true, groups_are_exclusive};
pub use parts::Part;
pub use proposals::groups;
