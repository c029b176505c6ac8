//! Tests of groups of operators, and of the transitions listed by them, against the transitions of each operator by
//! itself.
#![tactic(auto)]

#[cfg(test)]
mod groups;
#[cfg(test)]
mod random;
