//! One worker of a multi-threaded search: an owner of states, its ends of the links to other workers, and its seat at
//! the board (hash distributed A*: Kishimoto, Fukunaga and Botea 2013).
#![tactic(auto)]

mod congestion;
mod counts;
mod ends;
mod fitting;
mod laws;
mod matching;
mod outcome;
mod polling;
mod turn;
mod worker;

pub use laws::{congestion_needs_messages, expansions_are_told};
pub use outcome::{Received, Turn};
pub use worker::{Parts, Worker};
