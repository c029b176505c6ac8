//! Translations of planning tasks into finite-domain tasks: over given atoms and variables, or over the reachable atoms
//! and chosen variables.
#![tactic(auto)]

mod fault;
mod translated;
mod translating;

pub use fault::SizeFault;
pub use translate_choice::choose_variables;
pub use translate_theory::ListedVariable;
pub use translate_vars::TranslateFault;
pub use translated::Translated;
pub use translating::{translate, with_variables};
