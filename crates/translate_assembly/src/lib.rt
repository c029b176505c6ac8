//! The finite-domain task over listed atoms and variables, made of a planning task and its ground actions.
#![tactic(auto)]

mod assembly;
mod assignment;
mod conditions;
mod effects;
mod initial;
mod operators;
mod parts;
mod slot;
mod table;
mod texts;

pub use assembly::{Assembled, AssemblyFault, assemble};
pub use parts::{Parts, parts_of};
