//! Tests of refinement: tasks worked out by hand, and random tasks against distances in the whole state space.
#![tactic(auto)]

#[cfg(test)]
mod first_stage;
#[cfg(test)]
mod heuristics;
#[cfg(test)]
mod pools;
#[cfg(test)]
mod random_tasks;
#[cfg(test)]
mod runs;
#[cfg(test)]
mod worked_tasks;
