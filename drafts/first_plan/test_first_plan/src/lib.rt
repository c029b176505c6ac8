//! Tests of first plans of small tasks, with optima that are worked out by hand.
#![tactic(auto)]

#[cfg(test)]
mod plans;
