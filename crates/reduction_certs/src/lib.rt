//! Certificates of tasks, made from certificates of their reduced tasks.
#![tactic(auto)]

mod certificate;
mod columns;
mod laws;
mod shares;

pub use certificate::certificate_for_task;
pub use laws::{certificates_of_reduced_tasks, shares_of_operators};
