//! Tests of domain abstractions, worked out by hand.
#![tactic(auto)]

#[cfg(test)]
mod backward;
#[cfg(test)]
mod domains;
#[cfg(test)]
mod rows;
