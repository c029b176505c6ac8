//! The report of a search.

use crate::sums::{expanded_by, kept_by};
use extract::Joined;
use optplan_device::Device;
use packed::StateForm;
use packed_spread::Spread;
use std::alloc::{AllocError, Global};

/// The report of a search.
#[derive(Drop)]
pub(crate) struct Report {
    /// The end of the search, which does not depend on the schedule.
    answer: String,
    /// The numbers of expanded and stored states, and the time, for measuring.
    figures: String,
}

/// Returns the line for the end of a search: settled at the cost of a cheapest plan, or infinite if there is none; or
/// stopped.
fn answer_of<S: Spread + Drop, F: StateForm + Drop>(
    alloc: Global,
    joined: &Joined<'_, S, F>,
) -> Result<String, AllocError> {
    let Some(bound) = joined.settled(alloc)? else {
        return String::from_str(alloc, "stopped\n");
    };
    match bound.get() {
        Some(cost) => format!(in alloc; "settled {cost}\n"),
        None => String::from_str(alloc, "settled infinite\n"),
    }
}

/// Returns the line for what the owners have expanded and stored in this many milliseconds.
fn figures_of<S: Spread + Drop, F: StateForm + Drop>(
    alloc: Global,
    joined: &Joined<'_, S, F>,
    milliseconds: u128,
) -> Result<String, AllocError> {
    let (expansions, states) = (expanded_by(joined.owners()), kept_by(joined.owners()));
    format!(in alloc; "expansions {expansions}, states {states}, milliseconds {milliseconds}\n")
}

impl Report {
    /// Returns the report of a search that took this many milliseconds.
    pub(crate) fn new<S: Spread + Drop, F: StateForm + Drop>(
        alloc: Global,
        joined: &Joined<'_, S, F>,
        milliseconds: u128,
    ) -> Result<Report, AllocError> {
        let answer = answer_of(alloc, joined)?;
        let figures = figures_of(alloc, joined, milliseconds)?;
        Ok(Report { answer, figures })
    }

    /// Prints the answer on standard output and the figures on standard error, and returns whether it did.
    pub(crate) fn put<D: Device>(&self, device: &mut D) -> bool {
        device.out(self.answer.as_bytes()).is_ok() && device.err(self.figures.as_bytes()).is_ok()
    }
}
