//! Projections followed backwards: which operators enter an abstract state, and from which abstract states
//! (regression).
#![tactic(auto)]

mod backward;
mod change;
mod place;
mod rule;
mod rules;
mod transitions;
mod word;

pub use backward::BackwardProjection;
pub use transitions::ProjectionTransitions;
