//! A multi-threaded search, in which each thread has the states of one owner (hash distributed A*: Kishimoto, Fukunaga
//! and Botea 2013).
#![tactic(auto)]

mod ask;
mod drain;
mod fault;
mod halt;
mod join;
mod searched;
mod searches;
mod settled;
mod team;

pub use engine_round::{EndingGate, Gate, Open, Progress, Stop};
pub use fault::EngineFault;
pub use searched::{Cause, Searched};
pub use searches::search;
