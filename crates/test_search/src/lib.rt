//! Tests of the machine of owners over small spaces: with lists of steps worked out by hand, and with random steps,
//! among them steps that would change nothing.
#![tactic(auto)]

#[cfg(test)]
mod draws;
#[cfg(test)]
mod listed_states;
#[cfg(test)]
mod owners;
#[cfg(test)]
mod schedules;
#[cfg(test)]
mod sorted_lists;
#[cfg(test)]
mod ties;
#[cfg(test)]
mod totals;
#[cfg(test)]
mod worlds;
