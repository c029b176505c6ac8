//! The commands that solve a task, over any device: what each reads, writes and prints, and its exit status.
#![tactic(auto)]

mod clock;
mod faults;
mod outputs;
mod sas_solving;
mod settings;
mod solving;
mod tally;
mod watcher;

pub use sas_solving::run_solve_sas;
pub use settings::{Schedule, Settings, Watch};
pub use solving::run_solve;
