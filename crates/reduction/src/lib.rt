//! The reduction of a finite-domain task to what its goal needs (Helmert 2006, "The Fast Downward planning system"):
//! asked facts, the classes of values by them, and the operators that change a class.
#![tactic(auto)]

mod asked;
mod closing;
mod entries;
mod facts;
mod laws;
mod ordering;
mod reduction;
mod representatives;
mod retained;
mod rows;
mod waiting;

pub use laws::reduction_is_exact;
pub use reduction::{Reduction, reduce};
