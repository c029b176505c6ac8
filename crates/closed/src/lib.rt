//! The states that an owner of a search has reached, each with the least rank at which it was reached (best-first
//! search: Hart, Nilsson and Raphael 1968).
#![tactic(auto)]

mod index;
mod laws;
mod message;
mod rows;
mod small_entry;
mod table;

pub use laws::{outcomes_place, outcomes_tell, reaching_is_improving};
pub use message::{Message, Parent};
pub use rows::Hint;
pub use table::{ClosedTable, Entry, Outcome};
