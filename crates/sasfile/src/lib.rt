//! The text form of finite-domain tasks (`output.sas`, version 3): reading, writing, and the texts of their plans.
#![tactic(auto)]

pub use sasfile_reader::{SasFault, no_fault, one_reading, read_sas, spelled_or_not};
pub use sasfile_writer::{
    sas_plan_text, text_order_has_same_plans, worked_texts, write_sas, written_text_is_read,
};
