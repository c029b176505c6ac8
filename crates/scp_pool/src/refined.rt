//! New mappings by counterexample-guided refinement.

ghost use Rattle.std.specs.Prelude.{◌≡◌, ◌≤◌, ◌+◌, ◌^◌, length, All, OnOk};
ghost use Rattle.scp_pool.specs.Pools.{IsExtension, IsResultWithin};

use crate::batches::{Campaign, batch_of};
use crate::pool::Pool;
use crate::same::has_abstraction;
use pdb_refinement::{Finding, Limits, Refined};
use std::alloc::{AllocError, Global};
use std::thread::Threads;

/// The number of runs of a batch, which may be made in parallel. It is fixed, so that pools do not depend on the number
/// of threads.
const BATCH: u64 = 4;

/// The greatest number of transitions of an abstraction for each of its abstract states.
const TRANSITIONS_PER_STATE: u64 = 40;

/// The limits of all runs of a kind.
#[derive(Clone, Copy)]
pub(crate) struct Share {
    /// The greatest number of abstract states of an abstraction.
    pub(crate) states: usize,
    pub(crate) runs: u64,
    /// The number of runs in a row after which no more are made if none of them finds a new abstraction.
    pub(crate) idle: u64,
    /// The number of transitions of new abstractions after which no more are made.
    pub(crate) transitions: u64,
    pub(crate) work: u64,
}

impl Share {
    /// The number of runs of the batch after this many runs. The first run is a batch of its own.
    fn batch_after(&self, runs: u64) -> u64
        requires { runs ≤ self.now.runs }
        ensures { runs + result ≤ self.now.runs }
    {
        let most = if runs == 0 { 1 } else { BATCH };
        most.min(self.runs - runs)
    }
}

/// What the runs of a kind have brought.
#[derive(Clone, Copy)]
struct Tally {
    /// The number of runs.
    runs: u64,
    /// The number of runs since the last that found a new abstraction.
    idle: u64,
    /// The number of transitions of new abstractions.
    transitions: u64,
    work: u64,
    finding: Finding,
}

impl Tally {
    /// Whether no more runs are to be made.
    fn is_full(&self, share: &Share) -> bool {
        self.finding != Finding::Open
            || self.runs >= share.runs
            || self.idle >= share.idle
            || self.transitions >= share.transitions
            || self.work >= share.work
    }

    /// Counts a run.
    fn count(&mut self, refined: &Refined) {
        self.runs = self.runs.saturating_add(1);
        self.idle = self.idle.saturating_add(1);
        self.work = self.work.saturating_add(refined.work);
        self.finding = refined.finding;
    }

    /// Counts the abstraction of the last run, which is new.
    fn count_new(&mut self, transitions: u64) {
        self.idle = 0;
        self.transitions = self.transitions.saturating_add(transitions);
    }

    /// The limits of each run of a batch: an equal part of the work that is left.
    fn limits(&self, share: &Share, batch: u64) -> Limits
        ensures { result.states ≡ share.now.states }
    {
        let per_state = (share.states as u64).saturating_mul(TRANSITIONS_PER_STATE);
        Limits {
            states: share.states,
            transitions: per_state.min(share.transitions / 8),
            work: share.work.saturating_sub(self.work) / batch.max(1),
        }
    }
}

/// Adds a copy of the mapping of a run, if it is a new one, and counts the run.
fn judge(
    alloc: Global,
    pool: &mut Pool<'_>,
    refined: &Refined,
    tally: &mut Tally,
    limit: usize,
) -> Result<(), AllocError>
    requires small { limit ≤ 2 ^ 24 }
    requires within { IsResultWithin pool.old.task limit refined.now }
    ensures extended { OnOk result (IsExtension limit pool.old pool.new) }
    ensures few { OnOk result (length pool.new.mappings ≤ length pool.old.mappings + 1) }
{
    tally.count(refined);
    let Some(mapping) = &refined.mapping else {
        return Ok(());
    };
    if has_abstraction(pool, mapping) {
        return Ok(());
    }
    if pool.add(mapping.copied(alloc)?)? {
        tally.count_new(refined.transitions);
    }
    Ok(())
}

/// Judges the runs of a batch in their order, until no more are to be made.
fn judge_all(
    alloc: Global,
    pool: &mut Pool<'_>,
    batch: &[Refined],
    tally: &mut Tally,
    share: &Share,
) -> Result<(), AllocError>
    requires small { share.now.states ≤ 2 ^ 24 }
    requires within { All (IsResultWithin pool.old.task share.now.states) batch.now }
    ensures extended { OnOk result (IsExtension share.now.states pool.old pool.new) }
    ensures few { OnOk result (length pool.new.mappings ≤ length pool.old.mappings + length batch.now) }
{
    for refined in batch {
        if tally.is_full(share) {
            break;
        }
        judge(alloc, pool, refined, tally, share.states)?;
    }
    Ok(())
}

/// Adds the new mappings of the runs of a kind, until the share is used, or a run finds a plan, or that there is none.
/// Returns what the last run found.
///
/// The first run is a batch of its own, since no other is made if it finds a plan. The runs of each other batch are
/// made in parallel, each within an equal part of the work that is left.
pub(crate) fn add_refined<R: Threads + Sync>(
    rt: &R,
    alloc: Global,
    campaign: &Campaign<'_>,
    share: &Share,
    pool: &mut Pool<'_>,
) -> Result<Finding, AllocError>
    requires task { campaign.now.refiner.now ≡ campaign.now.task.now }
    requires same { pool.old.task ≡ campaign.now.task.now }
    requires some { 1 ≤ share.now.states }
    requires small { share.now.states ≤ 2 ^ 24 }
    ensures extended { OnOk result (IsExtension share.now.states pool.old pool.new) }
    ensures few { OnOk result (length pool.new.mappings ≤ length pool.old.mappings + share.now.runs) }
{
    let mut tally = Tally {
        runs: 0,
        idle: 0,
        transitions: 0,
        work: 0,
        finding: Finding::Open,
    };
    let mut made = 0;
    for _ in 0..share.runs {
        if tally.is_full(share) || made >= share.runs {
            break;
        }
        let count = share.batch_after(made);
        let limits = tally.limits(share, count);
        let batch = batch_of(rt, alloc, campaign, made, count, &limits)?;
        judge_all(alloc, pool, &batch, &mut tally, share)?;
        made += count;
    }
    Ok(tally.finding)
}
