//! The clauses on the tables of a certificate, each tested up to its first violation, and the heuristic that the tables
//! define; and which operators of a task can change a state.
#![tactic(auto)]

mod changes;
mod falls;
mod fault;
mod heuristic;
mod mapped;
mod moves;
mod places;
mod shares;
mod tables;
mod transitions;

pub use changes::changes_of;
pub use heuristic::Heuristic;
pub use shares::first_share_violation;
pub use tables::first_table_violation;
