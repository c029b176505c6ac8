//! Tests of certificates as values and as texts, worked out by hand.
#![tactic(auto)]

#[cfg(test)]
mod parts;
#[cfg(test)]
mod texts;
