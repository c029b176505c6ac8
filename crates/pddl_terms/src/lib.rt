//! The parts common to the expressions of a PDDL text: terms, predicates and functions with their terms, and the
//! constructs named by the heads of lists.
#![tactic(auto)]

mod beginning;
mod reading;
mod scope;

pub use beginning::{Beginning, Setting, beginning_of, is_total_cost};
pub use reading::{atom, function, term, terms};
pub use scope::{HeadedList, Reader, Scope};
