//! The pool of abstractions of a stage: those that are taken over from the stage before, patterns and domain
//! abstractions by counterexample-guided refinement towards random subsets of the goal, and grown patterns.
#![tactic(auto)]

mod batches;
mod choice;
mod grown;
mod pool;
mod refined;
mod same;
mod stage;

pub use choice::{Pooled, pool_of};
pub use pdb_refinement::Finding;
pub use pool::Pool;
pub use stage::{STAGES, StageLimits};
