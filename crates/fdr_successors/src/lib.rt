//! Successor generation (Helmert 2006, The Fast Downward planning system): the operators of a task that apply in a
//! state, without a test of each.
#![tactic(auto)]

mod candidate;
mod generator;
mod groups;
mod laws;
mod node;
mod order;
mod tree;

pub use generator::SuccessorGenerator;
pub use laws::{applicable_operators_are_those_that_apply, worked_example};
pub use order::walk_order;
