//! The test whether listed atoms and chosen variables are fit for a translation of a planning task, with their first
//! fault.
#![tactic(auto)]

mod closing;
mod covering;
mod fault;
mod flags;
mod laws;
mod limits;
mod listing;
mod order;
mod parts;

pub use fault::TranslateFault;
pub use laws::{fit_has_no_fault, one_fault};
pub use parts::check_parts;
