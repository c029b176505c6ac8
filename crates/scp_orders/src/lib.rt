//! Orders of abstractions for saturated cost partitioning: greedy orders for sampled states, diversification, and the
//! choice of at most 8 orders (Seipp, Keller and Helmert 2020).
#![tactic(auto)]

mod batch;
mod candidate;
mod choice;
mod diversifier;
mod greedy;
mod orders;
mod scores;

pub use choice::choose_orders;
pub use diversifier::{DEFAULT_SAMPLES, Effort};
