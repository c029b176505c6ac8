//! Links between workers: a ring for each ordered pair of workers, which delivers messages in the order in which they
//! were sent.
#![tactic(auto)]

mod ends;
mod pair;
mod table;

pub use closed::{Message, Parent};
pub use ends::{In, Out, SmallRanks};
pub use pair::{link, match_up};
pub use table::LinkTable;
