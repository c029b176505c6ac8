//! Slots of an index with open addressing and linear probing.
#![tactic(auto)]

mod home;
mod probing;

pub use home::home_of;
pub use probing::{Slot, add, fill, slot_after};
