//! A good plan of a finite-domain task, found quickly, with no proof that it is cheapest.
#![tactic(auto)]

mod effort;
mod find;
mod finder;
mod needless;
mod windows;

pub use effort::Effort;
pub use find::{FirstPlan, find_plan};
pub use first_plan_search::{MAX_TOTAL, Plan, replay};
