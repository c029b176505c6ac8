//! A round of a multi-threaded search: workers that take turns concurrently (hash distributed A*: Kishimoto, Fukunaga
//! and Botea 2013).
#![tactic(auto)]

mod crew;
mod fault;
mod finish;
mod gate;
mod job;
mod pause;
mod progress;
mod relay;
mod rounds;
mod seats;
mod start;
mod turns;
mod work;

pub use fault::TurnFault;
pub use gate::{EndingGate, Gate, Open, Stop};
pub use progress::Progress;
pub use rounds::{RoundEnd, round};
