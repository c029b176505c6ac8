//! Batches of runs of refinement, which threads make in parallel.

ghost use Rattle.std.specs.Prelude.{◌≡◌, ◌≤◌, ◌^◌, length, All, IfOk};
ghost use Rattle.scp_pool.specs.Pools.{IsResultWithin};

use fdr::FdrTask;
use pdb_refinement::{Kind, Limits, Refined, Refiner, banned_variables, considered_goals};
use rand_core::SeedableRng;
use rand_xoshiro::SplitMix64;
use rayon::prelude::*;
use std::alloc::{AllocError, Global};
use std::thread::Threads;

/// Runs of refinement of one kind.
#[derive(Clone, Copy)]
pub(crate) struct Campaign<'a> {
    pub(crate) task: &'a FdrTask,
    pub(crate) refiner: &'a Refiner<'a>,
    /// The number of the stage.
    pub(crate) stage: u64,
    pub(crate) kind: Kind,
}

/// The seed of a run: different for each stage, kind and number of a run below 2^32.
fn seed_of(stage: u64, kind: Kind, run: u64) -> u64 {
    let seed = match kind {
        Kind::Pattern => run.wrapping_mul(2),
        Kind::Domain => run.wrapping_mul(2).wrapping_add(1),
    };
    seed.wrapping_add(stage.wrapping_mul(8_589_934_592))
}

/// Makes the run of a number. All its random choices come from its own seed.
fn run_of(
    alloc: Global,
    campaign: &Campaign<'_>,
    run: u64,
    limits: &Limits,
) -> Result<Refined, AllocError>
    requires task { campaign.now.refiner.now ≡ campaign.now.task.now }
    requires some { 1 ≤ limits.now.states }
    requires small { limits.now.states ≤ 2 ^ 24 }
    ensures { IfOk result (IsResultWithin campaign.now.task.now limits.now.states) }
{
    let seed = seed_of(campaign.stage, campaign.kind, run);
    let mut words = SplitMix64::seed_from_u64(seed);
    let considered = considered_goals(alloc, campaign.task, run, &mut words)?;
    let banned = banned_variables(alloc, campaign.task, &considered, run, &mut words)?;
    let kind = campaign.kind;
    let refiner = campaign.refiner;
    refiner.refine(alloc, &considered, &banned, kind, limits, &mut words)
}

/// The numbers from `first` on, as many as `count`, as far as they fit.
fn numbers_from(alloc: Global, first: u64, count: u64) -> Result<Vec<u64>, AllocError>
    ensures { IfOk result (λ numbers. length numbers.items ≤ count) }
{
    let mut numbers = Vec::new(alloc);
    for number in first..first.saturating_add(count) {
        numbers.push(number)?;
    }
    Ok(numbers)
}

/// Makes the runs from number `first` on, as many as `count`, in parallel. The results are in the order of the runs and
/// do not depend on the number of threads.
pub(crate) fn batch_of<R: Threads + Sync>(
    rt: &R,
    alloc: Global,
    campaign: &Campaign<'_>,
    first: u64,
    count: u64,
    limits: &Limits,
) -> Result<Vec<Refined>, AllocError>
    requires task { campaign.now.refiner.now ≡ campaign.now.task.now }
    requires some { 1 ≤ limits.now.states }
    requires small { limits.now.states ≤ 2 ^ 24 }
    ensures within { IfOk result (λ found. All (IsResultWithin campaign.now.task.now limits.now.states) found.items) }
    ensures few { IfOk result (λ found. length found.items ≤ count) }
{
    let runs = numbers_from(alloc, first, count)?;
    runs.par_iter()
        // a run takes long, so each may have a thread of its own
        .with_min_len(1)
        .map(
            |run: &u64| -> Result<Refined, AllocError>
                requires task { campaign.now.refiner.now ≡ campaign.now.task.now }
                requires some { 1 ≤ limits.now.states }
                requires small { limits.now.states ≤ 2 ^ 24 }
                ensures { IfOk result (IsResultWithin campaign.entry.now.task.now limits.entry.now.states) }
            { run_of(alloc, campaign, *run, limits) },
        )
        .collect::<Result<Vec<Refined>, AllocError>>(rt, alloc)?
}
