//! Translations of planning tasks into finite-domain tasks over listed atoms and chosen variables (Helmert 2009): their
//! definition, the listed atoms that make up a variable, and the laws that a task and its translation have the same
//! plans with the same costs, and the same bounds.
#![tactic(auto)]

mod laws;
mod variables;

pub use laws::{
    translation_has_same_bounds, translation_has_same_plans, translation_is_task,
    values_tell_atoms, worked_tasks_translate,
};
pub use variables::ListedVariable;
