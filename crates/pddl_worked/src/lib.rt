//! Worked examples, as laws: the tasks that the texts of examples spell, byte by byte, and the first fault of texts
//! that spell no task.
#![tactic(auto)]

mod laws;

pub use laws::{
    drive_is_spelled, fraction_is_refused, grip_is_spelled, noop_is_spelled, road_is_spelled,
};
