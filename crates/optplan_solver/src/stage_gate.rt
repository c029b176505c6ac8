//! The gate of a stage.

ghost use Rattle.std.specs.Prelude.{◌≡◌, ◌<◌, is_some};

use engine::{EndingGate, Gate, Progress, Stop};
use std::sync::atomic::{AtomicBool, Ordering};
use std::time::{Clock, Duration, Instant};

/// The gate of a stage: asks the caller's gate, and ends the stage once a worker stores its share of the states at
/// which the stage ends, unless the caller's gate allows no further stage; then the stage continues without an end. If
/// the caller's gate itself ends a stage, this one ends if it has an end.
#[derive(Drop)]
pub(crate) struct StageGate<'g, R: Clock, G: Gate> {
    rt: &'g R,
    gate: &'g G,
    /// The number of states of a worker at which the stage ends; `None` if it has no end.
    share: Option<usize>,
    /// When the stage began; `None` if the clock could not be read.
    begun: Option<Instant>,
    /// Whether the caller's gate has refused a further stage.
    is_refused: AtomicBool,
}

/// Returns whether a worker stores at least this many states.
fn stores(states: usize, progress: &Progress) -> bool {
    progress.states >= states
}

impl<'g, R: Clock, G: Gate> StageGate<'g, R, G> {
    /// Creates the gate of a stage that begins now and ends once `workers` workers store `end` states together: once one
    /// of them stores its share, rounded up. Without `end` the stage does not end.
    pub(crate) fn new(
        rt: &'g R,
        gate: &'g G,
        end: Option<usize>,
        workers: usize,
    ) -> StageGate<'g, R, G>
        requires { 0 < workers }
        ensures gate { result.gate.now ≡ gate.now }
        ensures end { is_some result.share ≡ is_some end }
    {
        let share = match end {
            Some(states) => Some(states.div_ceil(workers)),
            None => None,
        };
        StageGate {
            rt,
            gate,
            share,
            begun: Instant::now(rt).ok(),
            is_refused: AtomicBool::new(false),
        }
    }

    /// Returns the time since the stage began, 0 if the clock cannot be read.
    fn elapsed(&self) -> Duration {
        let Some(begun) = self.begun else {
            return Duration::from_secs(0);
        };
        begun.elapsed(self.rt).unwrap_or(Duration::from_secs(0))
    }

    /// Returns whether a further stage may begin now. Once the caller's gate has refused one, it is not asked again.
    fn may_end(&self) -> bool {
        if self.is_refused.load(Ordering::Relaxed) {
            return false;
        }
        let allowed = self.gate.allows_stage(self.elapsed());
        if !allowed {
            self.is_refused.store(true, Ordering::Relaxed);
        }
        allowed
    }
}

impl<'g, R: Clock, G: Gate> Gate for StageGate<'g, R, G> {
    ghost use Rattle.std.specs.Prelude.{is_some};
    ghost use Rattle.optplan_solver.specs.ThreadedSearches.{stops_in};

    ghost may_stop = { λ g worker turn stop. stops_in (is_some g.share) (G.may_stop g.gate.now) worker turn stop };

    fn turn(&self, worker: usize, turn: u64, progress: Progress) -> Result<(), Stop> {
        let is_ended = match self.gate.turn(worker, turn, progress) {
            Ok(()) => false,
            Err(Stop::Stage) => true,
            Err(stop) => return Err(stop),
        };
        let Some(share) = self.share else {
            return Ok(());
        };
        if (is_ended || stores(share, &progress)) && self.may_end() {
            return Err(Stop::Stage);
        }
        Ok(())
    }

    fn never_limits(&self) -> bool {
        self.gate.never_limits()
    }
}

impl<'g, R: Clock, G: EndingGate> EndingGate for StageGate<'g, R, G> {
    ghost never_fails = { λ g worker turn stops. G.never_fails g.gate.now worker turn stops };
}
