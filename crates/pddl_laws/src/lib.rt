//! Laws of every planning task that two texts spell: its goal is consistent, every atom that it mentions is an atom of
//! the task, and its names are words.
#![tactic(auto)]

mod laws;

pub use laws::{
    spelled_atoms_are_known, spelled_goal_is_consistent, spelled_names_are_distinct,
    spelled_names_are_words, spelled_numbers_have_names,
};
