//! The parts that the texts of a planning task are made of: words, numbers, typed lists, parameters and sections, with
//! the faults of each. A reader records each fault with its place and continues; the record holds the first fault.
#![tactic(auto)]

mod fault;
mod heads;
mod number;
mod parameters;
mod requirements;
mod sections;
mod typed;
mod word;

pub use fault::{
    Fault, FaultKind, LimitedTable, PlanningFile, blame, blame_if, kept_is_first, none_kept,
    number as fault_number,
};
pub use heads::Heads;
pub use number::{Number, number_of};
pub use parameters::{Parameters, parameters_list};
pub use requirements::requirements_section;
pub use sections::{
    Section, all_sections, blame_more, find_section, read_heads, sections_of, without_first,
};
pub use typed::{Named, Run, Types, blame_type_list, typed_list};
pub use word::{WordKind, word_kind};
