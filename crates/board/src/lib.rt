//! The data that the workers of a round share: the least cost offered, the units of work that are left, and whether the
//! round is ended. These are three words that change in single atomic steps under one rule (hash distributed A*:
//! Kishimoto, Fukunaga and Botea 2013).
#![tactic(auto)]

mod board;
mod distances;
mod steps;
mod views;
mod words;

pub use board::Seat;
pub use views::{BoardRule, View};
pub use words::Board;
