//! The certificate checker for finite-domain tasks. It decides whether a certificate proves that every plan of a task
//! costs at least its bound. It trusts neither the author of the certificate nor the search that produced it.
#![tactic(auto)]

mod classes;
mod fault;
mod fdr_check;
mod laws;
mod sas_check;
mod verdict;

pub use fault::CheckFault;
pub use fdr_check::check_fdr;
pub use laws::{one_answer, one_verdict};
pub use sas_check::{check_sas, check_sas_owned};
pub use verdict::Verdict;
