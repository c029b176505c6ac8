//! Owners of states: which worker of hash distributed A* (Kishimoto, Fukunaga and Botea 2013) owns a state of a
//! finite-domain task.
#![tactic(auto)]

mod by_value;
mod laws;
mod projection;
mod spread;
mod words;
mod zobrist;

pub use by_value::ByValue;
pub use laws::{worked_examples, worked_projections};
pub use spread::Spread;
pub use zobrist::Zobrist;
