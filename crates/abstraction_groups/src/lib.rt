//! Groups of operators that have the same transitions in an abstraction, and abstractions whose transitions can be
//! followed backwards.
#![tactic(auto)]

mod backward;
mod change;
mod factored;
mod groups;
mod index;
mod listed;
mod pairs;
mod read;
mod shift;
mod table;

pub use backward::{BackwardAbstraction, BackwardTransitions, Transition};
pub use change::{Change, DigitChange};
pub use factored::FactoredAbstraction;
pub use groups::Groups;
pub use index::OperatorIndex;
pub use listed::Listed;
pub use shift::{Shift, shift_of};
