//! Open lists of best-first search: which of the states not yet expanded comes next (Hart, Nilsson and Raphael 1968).
#![tactic(auto)]

mod bucket;
mod bucket_array;
mod bucket_entry;
mod buckets;
mod entry;
mod group;
mod groups;
mod halves;
mod heap;
mod laws;
mod open_list;
mod row;

pub use buckets::Buckets;
pub use entry::{OpenEntry, Rank};
pub use heap::Heap;
pub use laws::{entries_are_ordered, worked_buckets, worked_examples};
pub use open_list::OpenList;
