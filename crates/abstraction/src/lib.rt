//! Abstractions of finite-domain tasks, and the lower bounds on plan costs by their tables.
#![tactic(auto)]

mod abstraction;
mod digit;
mod fault;
mod laws;
mod projection;

pub use abstraction::Abstraction;
pub use digit::Digit;
pub use fault::ProjectionFault;
pub use laws::{heuristic_is_lower_bound, projection_is_abstraction};
pub use projection::{Projection, is_on_any, projected_index};
