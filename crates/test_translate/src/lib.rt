//! Tests of candidates, groups and variables of small tasks, and of the parts of the finite-domain tasks over them,
//! worked out by hand.
#![tactic(auto)]

#[cfg(test)]
mod actions_of_operators;
#[cfg(test)]
mod assembled_parts;
#[cfg(test)]
mod chosen_variables;
#[cfg(test)]
mod listed_parts;
#[cfg(test)]
mod numbers;
#[cfg(test)]
mod proposed_candidates;
#[cfg(test)]
mod proposed_groups;
#[cfg(test)]
mod texts;
