//! Tests of the whole program that no run over files shows: a device whose calls fail, memory that is refused, lists of
//! steps, the names of plan steps, and the lines of faults that no small file has.
#![tactic(auto)]

#[cfg(test)]
mod fault_lines;
#[cfg(test)]
mod plan_steps;
#[cfg(test)]
mod solve_surroundings;
#[cfg(test)]
mod steps;
#[cfg(test)]
mod surroundings;
