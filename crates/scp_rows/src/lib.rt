//! Look-up tables of the heuristic, interleaved by column: one row for each abstract state of a mapping, one word for
//! each column. The values of the columns are sums of rows.
#![tactic(auto)]

mod block;
mod flat;
mod limit;
mod mapping_rows;
mod moves;
mod row;

pub use flat::{
    BlockSums, Flat, enter_flat, flat_value, flat_value_after, flat_value_moved, make_flat,
    mapping_count, moves_in, touches_in,
};
pub use moves::Move;
