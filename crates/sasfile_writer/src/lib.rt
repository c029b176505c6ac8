//! Writes the text of a finite-domain task that is a translation: `output.sas`, version 3.
#![tactic(auto)]

mod facts;
mod groups;
mod laws;
mod lines;
mod operators;
mod plans;
mod variables;
mod writing;

pub use laws::{text_order_has_same_plans, worked_texts, written_text_is_read};
pub use plans::sas_plan_text;
pub use writing::write_sas;
