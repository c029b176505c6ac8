//! A multi-threaded search, and its time.

ghost use Rattle.std.specs.Prelude.{◌<◌};
ghost use Rattle.fdr.specs.Tasks.{ranges};

use crate::report::Report;
use engine::{EngineFault, Open, Searched, search};
use owner::Space;
use packed::{StateForm, in_smallest_form};
use packed_spread::Zobrist;
use std::alloc::Global;
use std::sync::Wait;
use std::thread::Threads;
use std::time::{Clock, Instant};

/// Returns the milliseconds since `start`, 0 if the clock cannot be read.
fn milliseconds_since<R: Clock>(rt: &R, start: Option<Instant>) -> u128 {
    let Some(start) = start else {
        return 0;
    };
    match start.elapsed(rt) {
        Ok(elapsed) => elapsed.as_millis(),
        Err(_) => 0,
    }
}

/// Returns the report of a search by `workers` workers, with a link from each to each that has room for `ring`
/// messages.
fn search_in_threads<'a, R: Threads + Wait + Clock + Sync, F: StateForm + Drop + Send>(
    rt: &R,
    alloc: Global,
    space: &'a Space<'a, Zobrist<'a>>,
    workers: usize,
    ring: usize,
) -> Result<Report, EngineFault>
    requires workers { 0 < workers }
    requires fits { F.Fits (ranges space.now.task) }
{
    let start = Instant::now(rt).ok();
    let end: Searched<'a, Zobrist<'a>, F> = search(rt, alloc, space, workers, ring, &Open)?;
    let milliseconds = milliseconds_since(rt, start);
    let joined = match end {
        Searched::Settled(joined) => joined,
        Searched::Stopped(joined, _) => joined,
    };
    Ok(Report::new(alloc, &joined, milliseconds)?)
}

/// Returns the report of `search_in_threads`, with the smallest form of states.
pub(crate) fn searched_in_smallest_form<'a, R: Threads + Wait + Clock + Sync>(
    rt: &R,
    alloc: Global,
    space: &'a Space<'a, Zobrist<'a>>,
    workers: usize,
    ring: usize,
) -> Result<Report, EngineFault>
    requires { 0 < workers }
{
    in_smallest_form!(
        space.layout(),
        search_in_threads::<R>(rt, alloc, space, workers, ring)
    )
}
