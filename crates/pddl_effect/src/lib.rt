//! Conditions of actions, goals, and effects: their meaning and their faults (McDermott and others 1998; Fox and Long
//! 2003). A reader records each fault with its place and continues. An expression that cannot be read adds nothing to
//! the meaning, and the record holds the first fault.
#![tactic(auto)]

mod condition;
mod effect;
mod increase;
mod negation;

pub use condition::{Conditions, read_condition, read_condition_in};
pub use effect::{Effects, read_effect};
pub use negation::negated;
