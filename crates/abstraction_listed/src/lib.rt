//! Any abstraction with all of its transitions listed, by its interface alone, so that they can be followed backwards.
#![tactic(auto)]

mod entries;
mod listed;

pub use listed::Listed;
