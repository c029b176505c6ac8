//! Planning tasks of PDDL 2.1 at level 1 (Fox and Long 2003) with action costs, their ground actions, and the
//! definition of valid plans. `specs/` defines the meaning of each type, and all functions are proved to agree with it.
#![tactic(auto)]

mod action;
mod atom;
pub mod laws;
mod schema;
mod task;
mod vocabulary;

pub use action::GroundAction;
pub use atom::{GroundAtom, GroundLiteral};
pub use schema::{ActionSchema, Condition, Increase, LiftedAtom, LiftedEffect, Term};
pub use task::Task;
pub use vocabulary::Vocabulary;
