//! Reads the texts of finite-domain tasks: `output.sas`, version 3, as Fast Downward's translator writes it (Helmert
//! 2009).
//!
//! A text is read exactly if it spells a task. Otherwise reading fails with the first fault of the text, its kind and
//! line.
#![tactic(auto)]

mod effects;
mod facts;
mod fault;
mod laws;
mod line_forms;
mod lines;
mod number;
mod operators;
mod pieces;
mod reading;
mod variables;

pub use fault::SasFault;
pub use laws::{no_fault, one_reading, spelled_or_not};
pub use reading::read_sas;
