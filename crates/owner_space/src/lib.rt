//! The space that owners search, and the steps of its task.
#![tactic(auto)]

mod bounds;
mod costs;
mod late;
mod laws;
mod space;
mod steps;
mod ties;

pub use bounds::{best_with, finite, is_within};
pub use late::{all_are_late, drop_late};
pub use laws::keyed_entries_denote;
pub use space::{Space, f_after};
pub use steps::{effect_of, has_large_successor, is_goal_form, rank_after};
pub use ties::{MAX_TOTAL, Ties};
