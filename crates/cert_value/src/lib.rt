//! Certificates of a lower bound on the cost of every plan, as values: the kind of task, the bound, the columns of
//! tables, and the closed list. The crate `cert_text` reads and writes their texts.
#![tactic(auto)]

mod certificate;
mod closed;
mod numbers;
mod table;

pub use certificate::{AtomParts, AtomVariable, Certificate, CertificateKind, Version};
pub use closed::ClosedList;
pub use numbers::short_numbers;
pub use table::{AbstractionTable, Share, Values};
