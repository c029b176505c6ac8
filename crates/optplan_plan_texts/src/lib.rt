//! Plan texts as other tools write them: with time stamps and durations, as VAL reads them, or after the line of a
//! limit, as `optplan solve` prints it. They are rewritten to the form that the plan reader reads. No byte is moved.
#![tactic(auto)]

mod bytes;
mod decimal;
mod laws;
mod lines;
mod plain;

pub use bytes::{after_blanks, is_blank};
pub use laws::{same_length, worked_limits, worked_stamps};
pub use lines::line_length;
pub use plain::to_plain;
