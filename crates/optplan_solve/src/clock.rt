//! The start of a command's time.

use crate::settings::{Schedule, Settings};
use std::time::{Clock, Instant};

/// Returns the time from which the seconds of a multi-threaded search and its progress count: now, if they are asked
/// for and the clock can be read.
pub(crate) fn start_of<R: Clock>(rt: &R, settings: &Settings<'_>) -> Option<Instant> {
    match settings.schedule {
        Schedule::Threads(watch) if watch.seconds.is_some() || settings.progress => {
            Instant::now(rt).ok()
        }
        _ => None,
    }
}
