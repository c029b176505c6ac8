//! The actions of a planning domain, read into action schemas: their names, their keywords and the values of these
//! (McDermott and others 1998; Fox and Long 2003). A reader records each fault with its place and continues. An
//! expression that cannot be read adds nothing to the meaning, and the record holds the first fault.
#![tactic(auto)]

mod action;
mod keyword;
mod schema;
mod scope;

pub use action::{Actions, read_actions};
pub use scope::Declarations;
