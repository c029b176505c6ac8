//! The commands that judge a plan or a certificate: `validate`, `check` and `check-sas`, over any device.
#![tactic(auto)]

mod run_check;
mod run_check_sas;
mod run_validate;
mod texts;
mod verdict;

pub use run_check::run_planning_check;
pub use run_check_sas::run_sas_check;
pub use run_validate::run_validation;
pub use verdict::verdict_of;
