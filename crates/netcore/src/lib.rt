//! Owners of states in one thread, with the messages between them delivered in any order: the core of a search that is
//! divided among owners, for every schedule (hash distributed A*: Kishimoto, Fukunaga and Botea 2013).
#![tactic(auto)]

mod counts;
mod possible;
mod step;
mod world;

pub use extract::{Joined, Packet, SearchAnswer};
pub use step::WorldStep;
pub use world::World;
