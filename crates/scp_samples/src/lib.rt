//! What orders of abstractions are made from: the pool of abstractions, prepared once, and sampled states of the task,
//! which are the ends of random walks (Seipp, Keller and Helmert 2020).
#![tactic(auto)]

mod dead_ends;
mod entry;
mod listed;
mod pool;
mod samples;
mod stolen;
mod walks;

pub use dead_ends::{MAX_TABLES, append_dead_ends, first_dead_end};
pub use entry::{OperatorShare, PoolEntry};
pub use listed::ListedAbstraction;
pub use pool::{Pool, abstractions_by};
pub use samples::Samples;
pub use walks::{below, plan_length};
