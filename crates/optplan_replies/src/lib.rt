//! The I/O that all commands share: reading files, printing an answer, and reporting a fault.
#![tactic(auto)]

mod fault;
mod judging;
mod refusal;
mod reports;
mod runtime;
mod status;
mod surroundings;

pub use fault::{Fault, FileWord};
pub use judging::{Judge, judge_files, line_of};
pub use refusal::Refusal;
pub use reports::task_fault;
pub use runtime::Runtime;
pub use status::Status;
pub use surroundings::{put, put_text, read_file, read_task_files, reply, report, report_refusal};
