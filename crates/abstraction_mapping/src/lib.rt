//! Abstraction mappings: what a table of lower bounds distinguishes of a state, and the abstraction of a task that this
//! defines. Code over this crate's types that relies only on the laws of abstractions works for each kind of mapping.
#![tactic(auto)]

mod mapping;
mod table;
mod task_mapping;

pub use mapping::Mapping;
pub use table::TableAbstraction;
pub use task_mapping::TaskMapping;
