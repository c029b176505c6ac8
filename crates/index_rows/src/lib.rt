//! Rows of numbers: rows that grow one by one, rows in one vector, and the transpose of rows.
#![tactic(auto)]

mod row;
mod rows;
mod transposing;

pub use row::{Row, empty_rows, put};
pub use rows::Rows;
pub use transposing::transpose;
