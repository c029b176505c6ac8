//! Solving: from the text of a finite-domain task to a cheapest plan, or that there is none, with a certificate if one
//! is requested; with threads, or by a schedule of the owners' steps.
#![tactic(auto)]

mod sas;

pub use sas::{
    SasAnswer, SasSolveFault, simulate_sas, simulate_task, solve_sas, solve_sas_steps, solve_task,
};
