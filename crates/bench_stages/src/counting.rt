//! The gate that measures the stages of a search.

use optplan_solver::{EndingGate, Gate, Progress, Stop};
use std::alloc::{AllocError, Global};
use std::sync::atomic::{AtomicU64, Ordering};
use std::time::{Clock, Duration, Instant};

/// The number of stages, and one more for a search without stages.
const ROWS: usize = 5;

/// How many turns pass between two that read the clock.
const TURNS: u64 = 256;

/// What is measured of a stage.
#[derive(Drop)]
struct Row {
    /// When its tables were made, in microseconds since the search began.
    made: AtomicU64,
    /// When one of its last turns began.
    ended: AtomicU64,
    /// The number of turns that were to expand a state.
    expanded: AtomicU64,
    /// The least f-value of an open state at the last of them, and how many of them had a lesser one. With several
    /// workers both are of no use.
    least: AtomicU64,
    before: AtomicU64,
    /// The heuristic value of the initial state: the least f-value at the first turn with one.
    initial: AtomicU64,
    tables: AtomicU64,
    abstract_states: AtomicU64,
}

impl Row {
    fn new() -> Row {
        Row {
            made: AtomicU64::new(0),
            ended: AtomicU64::new(0),
            expanded: AtomicU64::new(0),
            least: AtomicU64::new(0),
            before: AtomicU64::new(0),
            initial: AtomicU64::new(u64::MAX),
            tables: AtomicU64::new(0),
            abstract_states: AtomicU64::new(0),
        }
    }

    /// Returns the line of a stage, empty if nothing was measured of it.
    fn line(&self, alloc: Global, stage: usize) -> Result<String, AllocError> {
        let made = self.made.load(Ordering::Relaxed);
        let ended = self.ended.load(Ordering::Relaxed);
        let expanded = self.expanded.load(Ordering::Relaxed);
        let tables = self.tables.load(Ordering::Relaxed);
        let states = self.abstract_states.load(Ordering::Relaxed);
        let before = self.before.load(Ordering::Relaxed);
        let initial = self.initial.load(Ordering::Relaxed);
        if made == 0 && expanded == 0 {
            return Ok(String::new(alloc));
        }
        format!(in alloc;
            "stage {stage}, tables {tables}, abstract states {states}, made at {made}, ended at {ended}, initial value {initial}, expansions {expanded}, below the last f-value {before}\n"
        )
    }

    /// Counts a turn that is to expand a state, of this f-value.
    fn count(&self, least: u64) {
        let expanded = self.expanded.fetch_add(1, Ordering::Relaxed);
        if self.initial.load(Ordering::Relaxed) == u64::MAX {
            self.initial.store(least, Ordering::Relaxed);
        }
        if self.least.swap(least, Ordering::Relaxed) < least {
            self.before.store(expanded, Ordering::Relaxed);
        }
    }
}

/// The gate that never ends a search, and measures its stages.
#[derive(Drop)]
pub(crate) struct Counting<'a, R: Clock> {
    rt: &'a R,
    start: Option<Instant>,
    /// The number of the stage; 0 before the first, and in a search without stages.
    stage: AtomicU64,
    rows: [Row; ROWS],
    /// The numbers of variables and of operators that a reduction leaves out.
    variables: AtomicU64,
    operators: AtomicU64,
}

impl<'a, R: Clock> Counting<'a, R> {
    /// Begins to measure now.
    pub(crate) fn new(rt: &'a R) -> Counting<'a, R> {
        Counting {
            rt,
            start: Instant::now(rt).ok(),
            stage: AtomicU64::new(0),
            rows: [Row::new(), Row::new(), Row::new(), Row::new(), Row::new()],
            variables: AtomicU64::new(0),
            operators: AtomicU64::new(0),
        }
    }

    /// Returns the microseconds since the start, 0 if the clock cannot be read.
    fn microseconds(&self) -> u64 {
        let Some(start) = self.start else {
            return 0;
        };
        let elapsed = start.elapsed(self.rt).unwrap_or(Duration::from_secs(0));
        u64::try_from(elapsed.as_micros()).unwrap_or(u64::MAX)
    }

    /// Returns a line on what is left out, and one for each stage of which something was measured, with microseconds
    /// since the search began.
    pub(crate) fn figures(&self, alloc: Global) -> Result<String, AllocError> {
        let variables = self.variables.load(Ordering::Relaxed);
        let operators = self.operators.load(Ordering::Relaxed);
        let mut text = format!(in alloc;
            "left out {variables} variables, {operators} operators\n"
        )?;
        for stage in 0..ROWS {
            if let Some(row) = self.rows.get(stage) {
                let line = row.line(alloc, stage)?;
                text.push_str(line.as_str())?;
            }
        }
        Ok(text)
    }
}

impl<'a, R: Clock> Gate for Counting<'a, R> {
    ghost may_stop = { λ _ _ _ _. ⊥ };

    fn turn(&self, _worker: usize, turn: u64, progress: Progress) -> Result<(), Stop> {
        let stage = self.stage.load(Ordering::Relaxed) as usize;
        let Some(row) = self.rows.get(stage) else {
            return Ok(());
        };
        if progress.expands {
            row.count(progress.least_open.get().unwrap_or(u64::MAX));
        }
        if turn % TURNS == 0 {
            row.ended.store(self.microseconds(), Ordering::Relaxed);
        }
        Ok(())
    }

    fn never_limits(&self) -> bool {
        true
    }

    fn task_reduced(&self, variables: usize, operators: usize) {
        self.variables.store(variables as u64, Ordering::Relaxed);
        self.operators.store(operators as u64, Ordering::Relaxed);
    }

    fn stage_begins(&self, stage: usize, tables: usize, abstract_states: usize) {
        self.stage.store(stage as u64, Ordering::Relaxed);
        if let Some(row) = self.rows.get(stage) {
            let states = abstract_states as u64;
            row.made.store(self.microseconds(), Ordering::Relaxed);
            row.tables.store(tables as u64, Ordering::Relaxed);
            row.abstract_states.store(states, Ordering::Relaxed);
        }
    }
}

impl<'a, R: Clock> EndingGate for Counting<'a, R> {
    ghost never_fails = { λ gate worker turn stops. stops };
}
