//! The command line of the program: its commands, operands and options, and what a list of arguments requests.
#![tactic(auto)]

mod arguments;
mod files;
mod program;
mod solving;

pub use program::requested;
pub use solving::{solve_command, solve_sas_command};
