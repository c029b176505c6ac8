//! Flaws of abstract plans: reasons why a plan in an abstraction fails in the task. They guide counterexample-guided
//! refinement (Rovner, Sievers and Helmert 2019; Kreft, Büchner, Sievers and Helmert 2023). Only their safety is
//! proved.
#![tactic(auto)]

mod costs;
mod distances;
mod flaws;
mod kind;
mod limits;
mod numbers;
mod queue;
mod random;
mod round;
mod scratch;
mod view;

pub use abstraction_groups::OperatorIndex;
pub use flaws::{Bounds, Flaw};
pub use kind::Kind;
pub use limits::Limits;
pub use numbers::{at, is_set, put};
pub use random::number_below;
pub use round::{Extent, Outcome, Round, Search, explore, extent_by};
pub use scratch::Scratch;
