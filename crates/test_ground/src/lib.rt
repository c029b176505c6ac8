//! Tests of groundings of tasks, as texts, worked out by hand, and of the numbers of names.
#![tactic(auto)]

#[cfg(test)]
mod distinct_names;
#[cfg(test)]
mod groundings;
#[cfg(test)]
mod limits;
#[cfg(test)]
mod openings;
#[cfg(test)]
mod texts;
