//! The commands of optplan, over any device: what each prints or reports, and its exit status.
#![tactic(auto)]

mod command_line;
mod file_command;
mod file_words;
mod options;
mod run_migrate_cert;
mod run_translate;
mod solve_words;

pub use command_line::run;
pub use optplan_replies::Status;
pub use optplan_verdicts::verdict_of;
