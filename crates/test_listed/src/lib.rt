//! Tests of abstractions whose transitions are listed from their interface alone.
#![tactic(auto)]

#[cfg(test)]
mod comparison;
#[cfg(test)]
mod tables;
mod value_sum;

pub use value_sum::ValueSum;
