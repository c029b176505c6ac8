//! The output and the reports of a run, and its exit status.

ghost use Rattle.std.specs.Prelude.{◌≡◌, IfOk, OnOk, map, ◌++◌, string_bytes};
ghost use Rattle.optplan_device.specs.Memory.{event_of};
ghost use Rattle.testing_runs.specs.declared.outcome.RunFault.TheVariants.{OutOfMemory, NotUtf8};
ghost use Rattle.testing_runs.specs.Outcomes.{put_by, reported_by, put_of, reported_of};

use optplan_device::Recorded;
use std::alloc::{AllocError, AllocFailed, Global};
use std::str::Utf8Error;
use thiserror::Error;

/// The texts that a run wrote to standard output and to standard error, and its exit status.
#[derive(Debug, PartialEq, Eq, Drop)]
pub struct Outcome {
    pub out: String,
    pub err: String,
    pub status: u8,
}

/// The reason why there is no outcome.
#[derive(Clone, Copy, Debug, PartialEq, Eq, Error)]
pub enum RunFault {
    /// Allocation failed.
    #[error("out of memory")]
    OutOfMemory,
    /// What was printed or reported is not UTF-8.
    #[error("what was written is not UTF-8")]
    NotUtf8,
}

impl From<AllocError> for RunFault {
    ghost from_gives = { λ _ e. e ≡ OutOfMemory };

    fn from(_e: AllocError) -> RunFault {
        RunFault::OutOfMemory
    }
}

impl<T: Drop> From<AllocFailed<T>> for RunFault {
    ghost from_gives = { λ _ e. e ≡ OutOfMemory };

    fn from(_e: AllocFailed<T>) -> RunFault {
        RunFault::OutOfMemory
    }
}

impl From<Utf8Error> for RunFault {
    ghost from_gives = { λ _ e. e ≡ NotUtf8 };

    fn from(_e: Utf8Error) -> RunFault {
        RunFault::NotUtf8
    }
}

/// Appends what one event printed or reported. Fails if that is not UTF-8, or if allocation fails.
fn note_event(outcome: &mut Outcome, event: &Recorded) -> Result<(), RunFault>
    ensures out { OnOk result (string_bytes outcome.new.out ≡ string_bytes outcome.old.out ++ put_by (event_of event.now)) }
    ensures err { OnOk result (string_bytes outcome.new.err ≡ string_bytes outcome.old.err ++ reported_by (event_of event.now)) }
    ensures status { outcome.new.status ≡ outcome.old.status }
{
    match event {
        Recorded::Put(bytes) => outcome.out.push_str(std::str::from_utf8(bytes)?)?,
        Recorded::Reported(bytes) => outcome.err.push_str(std::str::from_utf8(bytes)?)?,
        Recorded::Read(_, _) | Recorded::Written(_, _) => {}
    }
    Ok(())
}

/// Returns the outcome of a run, from the events that a device in memory recorded. Fails if what was printed or
/// reported is not UTF-8, or if allocation fails.
pub fn recorded(alloc: Global, events: &[Recorded], status: u8) -> Result<Outcome, RunFault>
    ensures out { IfOk result (λ o. string_bytes o.out ≡ put_of (map event_of events.now)) }
    ensures err { IfOk result (λ o. string_bytes o.err ≡ reported_of (map event_of events.now)) }
    ensures status { IfOk result (λ o. o.status ≡ status) }
{
    let mut outcome = Outcome {
        out: String::new(alloc),
        err: String::new(alloc),
        status,
    };
    for event in events {
        note_event(&mut outcome, event)?;
    }
    Ok(outcome)
}
