//! The tables of cost-partitioned columns, each made from the costs that those before it leave (saturated cost
//! partitioning, Seipp, Keller and Helmert 2020).
#![tactic(auto)]

mod column;
mod costs;
mod earlier;
mod shares;
mod table;

pub use column::make_column;
pub use earlier::EarlierColumn;
pub use table::ColumnTable;
