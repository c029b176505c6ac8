//! Tests of tables: of random abstractions, and of staircases worked out by hand.
#![tactic(auto)]

#[cfg(test)]
mod comparison;
#[cfg(test)]
mod consistency;
mod graph;
mod members;
#[cfg(test)]
mod random_graphs;
#[cfg(test)]
mod stairs;

pub use graph::Graph;
