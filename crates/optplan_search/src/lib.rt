//! Single searches for a plan of a finite-domain task: what is found at the end of a search, a cheapest plan, or that
//! there is none, or a bound, with a certificate if one is requested; and searches in one thread, by a schedule of the
//! owners' steps.
#![tactic(auto)]

mod answer;
mod fault;
mod found;
mod observer;
mod schedule;
mod searching;
mod space;

pub use answer::{Answer, SoFar, Solution};
pub use fault::SearchFault;
pub use found::{Found, FoundPlan, found_by, found_when_settled, so_far_of};
pub use observer::{Observer, Reached, STEPS_BETWEEN_REPORTS, Unobserved};
pub use schedule::simulated;
pub use searching::{found_after, found_by_seed};
pub use space::space_for;
