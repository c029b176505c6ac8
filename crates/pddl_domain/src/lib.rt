//! The declarations of a domain: its types, its constants and the objects of a problem, its predicates and its
//! functions, each with the faults of its section.
#![tactic(auto)]

mod cycles;
mod heads_sections;
mod objects;
mod types;

pub use cycles::{cycles_are_found, types_on_cycles};
pub use heads_sections::{functions_section, predicates_section};
pub use objects::{Objects, each_object_has_a_type, objects_section};
pub use types::types_section;
