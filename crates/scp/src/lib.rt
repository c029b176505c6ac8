//! Saturated cost partitioning: columns of tables that partition the costs of the operators, and the admissible
//! heuristic that they define (Seipp, Keller and Helmert 2020).
#![tactic(auto)]

mod choice;
mod columns;
mod places;

pub use choice::{MAX_COLUMNS, choose_columns};
pub use columns::{Columns, make_columns};
pub use places::Places;
pub use scp_columns::{ColumnTable, make_column};
