//! The progress of a multi-threaded search, from the reports of its workers.

use cost::{Dist, MAX_DISTANCE};
use optplan_solver::{Progress, Reached};
use std::alloc::{AllocError, Global};
use std::sync::atomic::{AtomicU64, Ordering};

/// The number that denotes the infinite distance; no distance has it.
const INFINITE: u64 = MAX_DISTANCE + 1;

/// The last report of a worker.
#[derive(Drop)]
struct Row {
    /// The number of turns that were to expand a state: each is an expansion, unless the worker read a lesser bound in
    /// that turn.
    expanded: AtomicU64,
    /// The number of states that it stores.
    kept: AtomicU64,
    /// The least f-value of its open states.
    least_open: AtomicU64,
}

/// The last reports of the workers, and when the next line is due.
#[derive(Drop)]
pub(crate) struct Tally {
    rows: Vec<Row>,
    /// The least cost at which any of them has taken a goal state.
    best: AtomicU64,
    /// The second from which the next line may be printed.
    due: AtomicU64,
}

fn number_of(distance: Dist) -> u64 {
    distance.get().unwrap_or(INFINITE)
}

fn distance_of(number: u64) -> Dist {
    Dist::fin(number).unwrap_or(Dist::inf())
}

impl Tally {
    /// Creates the tally of `workers` workers, none of which has reported.
    pub(crate) fn new(alloc: Global, workers: usize) -> Result<Tally, AllocError> {
        let mut rows = Vec::new(alloc);
        for _ in 0..workers {
            rows.push(Row {
                expanded: AtomicU64::new(0),
                kept: AtomicU64::new(0),
                least_open: AtomicU64::new(INFINITE),
            })?;
        }
        Ok(Tally {
            rows,
            best: AtomicU64::new(INFINITE),
            due: AtomicU64::new(1),
        })
    }

    /// Records the progress of a worker before a turn.
    pub(crate) fn note(&self, worker: usize, progress: &Progress) {
        let Some(row) = self.rows.get(worker) else {
            return;
        };
        let open = number_of(progress.least_open);
        self.best
            .fetch_min(number_of(progress.best), Ordering::Relaxed);
        row.kept.store(progress.states as u64, Ordering::Relaxed);
        row.least_open.store(open, Ordering::Relaxed);
        if progress.expands {
            row.expanded.fetch_add(1, Ordering::Relaxed);
        }
    }

    /// Returns whether the caller is to print a line at this second: at most once in a second, and not in the first
    /// one.
    pub(crate) fn is_due(&self, second: u64) -> bool {
        let due = self.due.load(Ordering::Relaxed);
        let next = second.saturating_add(1);
        let ordering = Ordering::Relaxed;
        second >= due
            && self
                .due
                .compare_exchange(due, next, ordering, ordering)
                .is_ok()
    }

    /// Returns the progress of all workers together, from the last report of each.
    pub(crate) fn reached(&self) -> Reached {
        let (mut expanded, mut kept, mut least_open) = (0u64, 0u64, INFINITE);
        for row in &self.rows {
            expanded = expanded.saturating_add(row.expanded.load(Ordering::Relaxed));
            kept = kept.saturating_add(row.kept.load(Ordering::Relaxed));
            least_open = least_open.min(row.least_open.load(Ordering::Relaxed));
        }
        Reached {
            expanded,
            kept,
            least_open: distance_of(least_open),
            best: distance_of(self.best.load(Ordering::Relaxed)),
        }
    }
}
