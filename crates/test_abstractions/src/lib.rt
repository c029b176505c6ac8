//! Tests of projections, worked out by hand.
#![tactic(auto)]

#[cfg(test)]
mod projections;
