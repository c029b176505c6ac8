//! Planning tasks from their two texts, a domain and a problem (McDermott and others 1998; Fox and Long 2003).
#![tactic(auto)]

mod domain;
mod fault;
mod laws;
mod parts;
mod problem;
mod reading;
mod sums;

pub use fault::PddlFault;
pub use laws::{one_refusal, one_task, spelled_not_refused, spelled_or_refused};
pub use reading::read_task;
