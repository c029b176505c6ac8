//! Walks in abstractions and the distances that they define: what a table of distances is, and which shares of the
//! costs it needs.
#![tactic(auto)]

mod laws;

pub use laws::{
    distances_and_falls_are_unique, distances_are_consistent, partition_is_column,
    saturated_shares_suffice,
};
