//! The choice of the pool of a stage.

ghost use Rattle.std.specs.Prelude.{◌≡◌, ◌≤◌, ◌+◌, ◌*◌, ◌^◌, length, max, min, IfOk, OnOk};
ghost use Rattle.scp_pool.specs.Pools.{IsExtension};

use crate::batches::Campaign;
use crate::grown::{Grower, add_grown};
use crate::pool::Pool;
use crate::refined::{Share, add_refined};
use crate::stage::StageLimits;
use pdb_patterns::Growth;
use pdb_refinement::{Finding, Kind, Refiner};
use std::alloc::{AllocError, Global};
use std::thread::Threads;

/// The greatest number of abstract states of a mapping.
const MAX_STATES: usize = 16_777_216;

/// The pool of a stage, and what was found out while it was made.
#[derive(Drop)]
pub struct Pooled<'a> {
    pub pool: Pool<'a>,
    /// Whether the last mapping by refinement that was added shows a cheapest plan or that there is no plan. This is not
    /// proved: the tables of the pool's mappings have the values that prove it.
    pub finding: Finding,
}

/// Adds the mappings of a kind of refinement.
fn add_kind<R: Threads + Sync>(
    rt: &R,
    alloc: Global,
    refiner: &Refiner<'_>,
    stage: &StageLimits,
    kind: Kind,
    pool: &mut Pool<'_>,
) -> Result<Finding, AllocError>
    requires { refiner.now ≡ pool.old.task }
    ensures extended { OnOk result (IsExtension (min (2 ^ 24) stage.now.refined_states) pool.old pool.new) }
    ensures few { OnOk result (length pool.new.mappings ≤ length pool.old.mappings + stage.now.runs) }
{
    let states = stage.refined_states.min(MAX_STATES);
    if states == 0 {
        return Ok(Finding::Open);
    }
    let task = pool.task();
    let goals = task.goal().len() as u64;
    let share = Share {
        states,
        runs: stage.runs,
        idle: goals.saturating_mul(2).saturating_add(8),
        transitions: match kind {
            Kind::Pattern => stage.pattern_transitions,
            Kind::Domain => stage.domain_transitions,
        },
        work: stage.work,
    };
    let campaign = Campaign {
        task,
        refiner,
        stage: stage.number,
        kind,
    };
    add_refined(rt, alloc, &campaign, &share, pool)
}

/// Adds the mappings of both kinds of refinement: patterns, and then domain abstractions unless a finding ends the
/// first kind. Returns what the last run found.
fn add_kinds<R: Threads + Sync>(
    rt: &R,
    alloc: Global,
    refiner: &Refiner<'_>,
    stage: &StageLimits,
    pool: &mut Pool<'_>,
) -> Result<Finding, AllocError>
    requires { refiner.now ≡ pool.old.task }
    ensures extended { OnOk result (IsExtension (min (2 ^ 24) stage.now.refined_states) pool.old pool.new) }
    ensures few { OnOk result (length pool.new.mappings ≤ length pool.old.mappings + 2 * stage.now.runs) }
{
    let first = add_kind(rt, alloc, refiner, stage, Kind::Pattern, pool)?;
    if first != Finding::Open {
        return Ok(first);
    }
    let second = add_kind(rt, alloc, refiner, stage, Kind::Domain, pool)?;
    Ok(second)
}

/// Adds the mappings that grow.
fn add_patterns(
    alloc: Global,
    refiner: &Refiner<'_>,
    stage: &StageLimits,
    pool: &mut Pool<'_>,
) -> Result<(), AllocError>
    ensures extended { OnOk result (IsExtension (min (2 ^ 24) stage.now.grown_states) pool.old pool.new) }
    ensures few { OnOk result (length pool.new.mappings ≤ length pool.old.mappings + 64) }
{
    if stage.grown_states == 0 {
        return Ok(());
    }
    let task = pool.task();
    let growth = Growth::new(alloc, task)?;
    let grower = Grower {
        task,
        growth: &growth,
        refiner,
        states: stage.grown_states.min(MAX_STATES),
        transitions: stage.grown_transitions,
        work: stage.work,
    };
    add_grown(alloc, &grower, pool)
}

/// Returns the pool of a stage: the mappings of `taken_over` in their order, and then new ones.
///
/// First patterns and then domain abstractions are made by counterexample-guided refinement, each run towards its own
/// random subset of the goal, until the transitions of the new abstractions of this kind or the steps reach the limits
/// of the stage, or 2k + 8 runs in a row bring nothing new, for k facts of the goal. Then mappings grow from the
/// variables of the first 64 facts of the goal. The pool ends with an abstraction that has no plan, or whose cheapest
/// plan is one of the task: its value of the initial state is the cost of a cheapest plan then, which no other
/// abstraction can raise. The result says which it found. The runs are made in parallel in batches of fixed size, and
/// judged in order, so the pool does not depend on the number of threads.
///
/// What is proved is that the mappings are distinct ones of the task, within the limits. Which they are is not, since
/// each mapping of the task is admissible.
pub fn pool_of<'a, R: Threads + Sync>(
    rt: &R,
    alloc: Global,
    stage: &StageLimits,
    taken_over: Pool<'a>,
) -> Result<Pooled<'a>, AllocError>
    ensures extended { IfOk result (λ r. IsExtension (min (2 ^ 24) (max stage.now.refined_states stage.now.grown_states)) taken_over.entry r.pool) }
    ensures few { IfOk result (λ r. length r.pool.mappings ≤ length taken_over.entry.mappings + 2 * stage.now.runs + 64) }
{
    let mut pool = taken_over;
    let refiner = Refiner::new(alloc, pool.task())?;
    let finding = add_kinds(rt, alloc, &refiner, stage, &mut pool)?;
    if finding != Finding::Open {
        return Ok(Pooled { pool, finding });
    }
    add_patterns(alloc, &refiner, stage, &mut pool)?;
    Ok(Pooled { pool, finding })
}
