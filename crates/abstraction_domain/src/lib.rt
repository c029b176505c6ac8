//! Domain abstractions of finite-domain tasks: values in one class are not distinguished.
#![tactic(auto)]

mod domain;
mod fault;
mod laws;
mod row;

pub use domain::{ClassDigit, DomainAbstraction, are_increasing, class_index};
pub use fault::DomainFault;
pub use laws::{domain_is_abstraction, identity_rows_give_projection, numbered_by_test};
pub use row::{ClassFault, ClassRow, copied_rows};
