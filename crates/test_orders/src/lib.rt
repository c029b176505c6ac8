//! Tests of the choice of orders, with answers that are worked out by hand.
#![tactic(auto)]

#[cfg(test)]
mod orders;
