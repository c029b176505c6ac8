//! Laws of the meaning of the parts of PDDL texts, in terms of the language: each relates the definition that a reader
//! is proved against to one that is independent of any reader.
#![tactic(auto)]

mod laws;

pub use laws::{
    atoms_are_read, atoms_without_fault, conditions_without_fault_are_trees, digits_are_read,
    lists_without_fault_are_runs, runs_are_read, trees_are_read_in_order,
    types_are_above_by_chains,
};
