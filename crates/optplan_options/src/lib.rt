//! Options of the solver: how a task is searched, and within which limits.
#![tactic(auto)]

mod options;

pub use options::{MAX_RING, MAX_TABLE, MAX_WORKERS, Options, STAGE_ENDS, STAGES, Tables};
pub use owner_space::Ties;
