//! Forms in which the states of a finite-domain task are stored.
#![tactic(auto)]

mod bits;
mod field;
mod form;
mod laws;
mod layout;
mod mask;
mod masks;
mod plain;
mod smallest;

pub use bits::Bits;
pub use form::StateForm;
pub use laws::{widths, worked_examples};
pub use layout::Layout;
pub use masks::TaskMasks;
pub use plain::Plain;
