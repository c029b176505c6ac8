//! The choice of abstractions by counterexample-guided refinement: an abstraction starts with one class for the
//! values of each variable, and classes are split if a plan in the abstraction fails in the task (Clarke, Grumberg,
//! Jha, Lu and Veith 2003; Rovner, Sievers and Helmert 2019; Kreft, Büchner, Sievers and Helmert 2023).
#![tactic(auto)]

mod choice;
mod mappings;
mod refiner;
mod rows;
mod run;
mod split;

pub use choice::{banned_variables, considered_goals};
pub use pdb_flaws::{Extent, Kind, Limits};
pub use refiner::Refiner;
pub use run::{Finding, Refined};
