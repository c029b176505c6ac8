//! The states that an owner of states has reached, and its open list.
#![tactic(auto)]

mod reached;

pub use reached::Reached;
