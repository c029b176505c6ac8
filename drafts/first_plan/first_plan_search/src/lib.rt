//! Searches that find plans of finite-domain tasks quickly, with no proof that they are cheapest: best-first searches
//! and beams with few expansions. A plan is checked by `replay`, so of the searches only their safety is proved.
#![tactic(auto)]

mod entry;
mod expander;
mod known;
mod node;
mod open;
mod plan;
mod problem;
mod search;
mod tree;

pub use expander::Expander;
pub use open::Open;
pub use plan::{MAX_TOTAL, Plan, replay};
pub use problem::Problem;
pub use search::{Ending, Outcome, Rule, Search};
