//! The gate of multi-threaded searches, which applies external limits and reports progress, and the observer of
//! simulations.

ghost use Rattle.std.specs.Prelude.{◌≡◌, IfOk};

use crate::settings::Watch;
use crate::tally::Tally;
use optplan_solver::{EndingGate, Gate, Observer, Progress, Reached, Stop};
use std::alloc::{AllocError, Global};
use std::time::{Clock, Duration, Instant};

/// The bytes that a state or a message takes in addition to the words of its values: its entry, its hash, its slot in
/// the index, and its entry in the open list.
const BYTES_BESIDE_WORDS: u128 = 72;

const BYTES_OF_A_WORD: u128 = 8;

const BYTES_OF_A_MEBIBYTE: u128 = 1_048_576;

/// The gate that ends a search as at a limit once its seconds have passed since its start, or a worker stores
/// more than its share of the memory; and that reports progress once a second, if requested.
#[derive(Drop)]
pub(crate) struct Watcher<'a, R: Clock + Eprint + Sync> {
    rt: &'a R,
    watch: Watch,
    /// The number of workers among which the memory is divided.
    workers: usize,
    /// When the time began; `None` if the clock could not be read, or need not be.
    start: Option<Instant>,
    /// The reports of the workers; `None` if no line is to be printed.
    tally: Option<Tally>,
}

/// Returns whether a worker, one of `workers`, stores more than its share of the memory: its states and the messages in
/// its outboxes, as packed.
fn is_past(mebibytes: u64, workers: usize, progress: &Progress) -> bool {
    let count = (progress.states as u128).saturating_add(progress.messages);
    let words = (progress.words as u128).saturating_mul(BYTES_OF_A_WORD);
    let kept = count.saturating_mul(words.saturating_add(BYTES_BESIDE_WORDS));
    kept.saturating_mul(workers as u128) > (mebibytes as u128).saturating_mul(BYTES_OF_A_MEBIBYTE)
}

impl<'a, R: Clock + Eprint + Sync> Watcher<'a, R> {
    /// Creates the watcher of a search by `workers` workers, which reports progress or does not. The time counts from
    /// `start`; without it no time ends the search, and no progress is reported.
    pub(crate) fn new(
        rt: &'a R,
        alloc: Global,
        watch: Watch,
        workers: usize,
        tells: bool,
        start: Option<Instant>,
    ) -> Result<Watcher<'a, R>, AllocError>
        ensures { IfOk result (λ w. w.watch ≡ watch) }
    {
        let tally = if tells {
            Some(Tally::new(alloc, workers)?)
        } else {
            None
        };
        Ok(Watcher {
            rt,
            watch,
            workers,
            start,
            tally,
        })
    }
}

impl<'a, R: Clock + Eprint + Sync> Gate for Watcher<'a, R> {
    ghost use Rattle.optplan_solve.specs.Schedules.{ends_in};

    ghost may_stop = { λ g worker turn stop. ends_in g.watch worker turn stop };

    /// Lets a turn pass if the clock cannot be read, and reads it only if needed. A line that cannot be printed is
    /// skipped.
    fn turn(&self, worker: usize, _turn: u64, progress: Progress) -> Result<(), Stop> {
        if let Some(mebibytes) = self.watch.mebibytes {
            if is_past(mebibytes, self.workers, &progress) {
                return Err(Stop::Limit);
            }
        }
        if let Some(tally) = &self.tally {
            tally.note(worker, &progress);
        }
        let Some(start) = self.start else {
            return Ok(());
        };
        let Ok(elapsed) = start.elapsed(self.rt) else {
            return Ok(());
        };
        let now = elapsed.as_secs();
        if let Some(tally) = &self.tally {
            if tally.is_due(now) {
                let reached = tally.reached();
                let _ = eprintln!(self.rt;
                    "optplan: {now} s, {} expanded, {} kept, least open f {}, best cost {}",
                    reached.expanded, reached.kept, reached.least_open, reached.best
                );
            }
        }
        match self.watch.seconds {
            Some(seconds) if now >= seconds => Err(Stop::Limit),
            _ => Ok(()),
        }
    }

    fn never_limits(&self) -> bool {
        self.watch.seconds.is_none() && self.watch.mebibytes.is_none()
    }

    /// Allows a further stage if more time is left than the last one took; always if no seconds are specified or the
    /// clock cannot be read.
    fn allows_stage(&self, took: Duration) -> bool {
        let (Some(seconds), Some(start)) = (self.watch.seconds, self.start) else {
            return true;
        };
        let Ok(elapsed) = start.elapsed(self.rt) else {
            return true;
        };
        Duration::from_secs(seconds).saturating_sub(elapsed) > took
    }

    /// Prints a line if something is left out and progress is reported. A line that cannot be printed is skipped.
    fn task_reduced(&self, variables: usize, operators: usize) {
        if self.tally.is_some() && (variables > 0 || operators > 0) {
            let _ = eprintln!(self.rt;
                "optplan: left out {variables} variables, {operators} operators"
            );
        }
    }

    /// Prints a line for each stage after the first, if progress is reported. A line that cannot be printed is skipped.
    fn stage_begins(&self, stage: usize, tables: usize, abstract_states: usize) {
        if self.tally.is_some() && stage > 1 {
            let _ = eprintln!(self.rt;
                "optplan: stage {stage}, {tables} tables, {abstract_states} abstract states"
            );
        }
    }
}

impl<'a, R: Clock + Eprint + Sync> EndingGate for Watcher<'a, R> {
    ghost use Rattle.std.proofs.Common.{subst};
    ghost use Rattle.optplan_solve.specs.Schedules.{IsFailure};

    ghost never_fails = { λ gate worker turn stops. subst IsFailure stops.0 tt };
}

/// The observer that reports the progress of a search by random steps, if requested.
#[derive(Drop)]
pub(crate) struct Narrator<'a, R: Eprint> {
    rt: &'a R,
    tells: bool,
}

impl<'a, R: Eprint> Narrator<'a, R> {
    pub(crate) fn new(rt: &'a R, tells: bool) -> Narrator<'a, R> {
        Narrator { rt, tells }
    }
}

impl<'a, R: Eprint> Observer for Narrator<'a, R> {
    /// Prints a line, if requested; a line that cannot be printed is skipped.
    fn observe(&self, steps: u64, reached: Reached) {
        if self.tells {
            let _ = eprintln!(self.rt;
                "optplan: {steps} steps, {} expanded, {} kept, least open f {}, best cost {}",
                reached.expanded, reached.kept, reached.least_open, reached.best
            );
        }
    }
}
