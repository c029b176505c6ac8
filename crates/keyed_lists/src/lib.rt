//! Lists by keys, all items in one vector (compressed sparse rows).
#![tactic(auto)]

mod lists;

pub use lists::{Keyed, Lists};
