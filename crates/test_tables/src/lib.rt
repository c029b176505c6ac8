//! Tests of mappings, tables and columns of tasks, and of their check, worked out by hand.
#![tactic(auto)]

#[cfg(test)]
mod closed_violations;
#[cfg(test)]
mod domain_violations;
#[cfg(test)]
mod table_violations;
#[cfg(test)]
mod tables;
#[cfg(test)]
mod tasks;
#[cfg(test)]
mod texts;
#[cfg(test)]
mod unchanged_states;
