//! The end of a search by owners of states, for every schedule, and the plan that it has found (hash distributed A*:
//! Kishimoto, Fukunaga and Botea 2013).
#![tactic(auto)]

mod answer;
mod best;
mod joined;
mod laws;
mod packet;
mod plan;
mod settled;

pub use answer::SearchAnswer;
pub use joined::Joined;
pub use laws::{best_goal_costs_bound, settled_as_family};
pub use packet::Packet;
pub use plan::plan_of;
pub use settled::{best_goal, least_of_owner, settled_bound};
