//! One owner of states of a search that is divided among several (hash distributed A*: Kishimoto, Fukunaga and Botea
//! 2013).
#![tactic(auto)]

mod batch;
mod expansion;
mod fault;
mod holdings;
mod owner;
mod successors;

pub use closed::{Entry, Message, Parent};
pub use fault::OwnerFault;
pub use openlist::Rank;
pub use owner::Owner;
pub use owner_space::{MAX_TOTAL, Space, Ties};
