//! The clauses on the closed list of a certificate, each tested up to its first violation, over an index of the list by
//! the values of its states.
#![tactic(auto)]

mod coverage;
mod goals;
mod hash;
mod index;
mod note;
mod part;
mod states;

pub use coverage::Coverage;
pub use goals::first_goal_violation;
pub use index::ClosedIndex;
pub use states::first_closed_violation;
