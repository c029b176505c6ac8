//! The first violation among items of one kind, such as closed states or tables, which are cut into pieces that threads
//! search in parallel.
#![tactic(auto)]

mod pieces;
mod starts;

pub use pieces::{first_in_pieces, first_in_weighed_pieces};
