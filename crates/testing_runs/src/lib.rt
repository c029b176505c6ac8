//! Runs of the program over a device in memory, for the tests of what no run over files shows: calls that fail, and
//! memory that is refused.
#![tactic(auto)]

mod faulty_device;
mod outcome;
mod runs;
pub mod texts;

pub use faulty_device::FaultyDevice;
pub use outcome::{Outcome, RunFault, recorded};
pub use runs::{CALLS_OF_A_RUN, program_words, run_over};
