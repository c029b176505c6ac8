//! Searches for a plan of a finite-domain task with all its options: a cheapest plan, or that there is none, with a
//! certificate if one is requested; with threads, alone or in stages, of the task or of what a reduction leaves of it.
//! Searches by a schedule of the owners' steps are those of `optplan_search`.
#![tactic(auto)]

mod fault;
mod forms;
mod kinds;
mod known;
mod reducing;
mod spread;
mod stage_gate;
mod stages;

pub use engine::{EndingGate, Gate, Open, Progress, Stop};
pub use fault::SolveFault;
pub use forms::{PlanForm, WrittenPlan, answer_in};
pub use optplan_options::{
    MAX_RING, MAX_TABLE, MAX_WORKERS, Options, STAGE_ENDS, STAGES, Tables, Ties,
};
pub use optplan_search::{
    Answer, Found, FoundPlan, Observer, Reached, SearchFault, SoFar, Solution, Unobserved,
    found_after, found_by_seed,
};
pub use reducing::found_by_threads;
