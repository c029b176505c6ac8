//! The I/O of a program: files by their names, and two streams.
//!
//! A program over any `Device` can be proved without assumptions about the system. It runs over the files of the
//! process, or over files in memory whose calls fail when the caller chooses.
#![tactic(auto)]

mod device;
mod files;
mod memory;

pub use device::{Device, DeviceFault};
pub use files::ProcessDevice;
pub use memory::{MemoryDevice, Recorded};
