//! Batches of candidates, which threads evaluate in parallel.

use crate::candidate::{Candidate, Setting};
use rayon::prelude::*;
use scp_samples::Pool;
use std::alloc::{AllocError, Global};
use std::thread::Threads;

/// The number of candidates of a batch. Their orders depend only on what was stored before, so that the result does not
/// depend on the number of threads.
pub(crate) const BATCH: usize = 8;

/// The number of abstract states and transitions for which threads are started.
const STEPS_FOR_THREADS: u64 = 200_000;

/// Returns the candidates of a batch.
pub(crate) fn new_batch(alloc: Global) -> Result<Vec<Candidate>, AllocError> {
    let mut batch = Vec::with_capacity(alloc, BATCH)?;
    for _ in 0..BATCH {
        batch.push(Candidate::new(alloc)?)?;
    }
    Ok(batch)
}

/// Returns the number of abstract states and transitions of the orders.
fn steps_of(pool: &Pool<'_>, batch: &[Candidate]) -> u64 {
    batch.iter().fold(0, |steps: u64, candidate| {
        steps.saturating_add(pool.steps(&candidate.order))
    })
}

/// Computes the column of each order, in parallel if that is worth threads. The columns do not depend on the number of
/// threads.
pub(crate) fn evaluate_all<R: Threads + Sync>(
    rt: &R,
    setting: Setting<'_>,
    batch: &mut [Candidate],
) {
    if steps_of(setting.pool, batch) < STEPS_FOR_THREADS {
        for candidate in batch.iter_mut() {
            candidate.evaluate(setting);
        }
    } else {
        // a thread for each, since some take much longer than others
        par_chunks_mut_for_each(rt, batch, 1, |_: usize, candidates: &mut [Candidate]| {
            for candidate in candidates.iter_mut() {
                candidate.evaluate(setting);
            }
        });
    }
}
