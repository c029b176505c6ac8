//! Planning: from the texts of a domain and a problem to a cheapest plan, or that there is none, with a certificate if
//! one is requested, which the checker accepts if its text has at most 2^30 bytes; with threads, or by a schedule of
//! the owners' steps.
#![tactic(auto)]

mod certificate_laws;
mod fault;
mod kind;
mod plan_laws;
mod preparing;
mod solving;
mod steps;
mod text_laws;

pub use certificate_laws::{held_certificate_is_accepted, translation_kind_has_text};
pub use fault::{PlanningFault, PrepareFault};
pub use kind::translation_kind;
pub use plan_laws::{
    named_plan_is_read, translated_plan_has_same_text, translated_plan_is_valid,
    translation_can_be_written, valid_plan_has_verdict,
};
pub use preparing::{Prepared, prepare};
pub use solving::{PlanningAnswer, simulate, solve, solve_steps};
pub use steps::{named_step, named_steps};
pub use text_laws::{spelled_names_are_plan_words, task_plan_is_read, valid_plan_is_found_valid};
