//! The columns of a stage.

ghost use Rattle.std.specs.Prelude.{◌≡◌, ◌<◌, map, IfOk};
ghost use Rattle.scp.specs.Partitions.{mappings_of};
ghost use Rattle.scp_orders.specs.Orders.{AreOrders};
ghost use Rattle.scp_stages.specs.StageOrders.{AreStageColumns};

use crate::taken_over::{orders_by_index, pool_from};
use abstraction_mapping::Mapping;
use fdr::FdrTask;
use rand_core::SeedableRng;
use rand_xoshiro::SplitMix64;
use scp::{Columns, make_columns};
use scp_orders::{DEFAULT_SAMPLES, Effort, choose_orders};
use scp_pool::{STAGES, pool_of};
use std::alloc::{AllocError, Global};
use std::thread::Threads;

/// The number of stages.
pub const STAGE_COUNT: usize = 4;

/// The greatest number of orders that a stage evaluates.
const CANDIDATES: usize = 500;

/// The numbers of steps that the stages spend on the evaluation of orders: abstract states and transitions of each
/// table that is computed.
const STEPS: [u64; STAGE_COUNT] = [1_000_000, 6_000_000, 40_000_000, 300_000_000];

/// The seed of the choice of orders in a stage: none of the seeds of refinement.
fn seed_of(stage: u64) -> u64 {
    stage.wrapping_mul(8_589_934_592).wrapping_sub(1)
}

/// Returns the columns of a stage, 0 to 3, of at most 64 tables each: of at most 8 orders that are chosen from a pool
/// of abstractions, in which those of `earlier`, the orders of the stage before, come first. The contract does not
/// specify which abstractions and orders are chosen; they are the same for any number of threads.
pub fn stage_columns<'a, R: Threads + Sync>(
    rt: &R,
    alloc: Global,
    task: &'a FdrTask,
    stage: usize,
    earlier: &[Vec<Mapping>],
) -> Result<Columns<'a>, AllocError>
    requires stage { stage < STAGE_COUNT }
    requires earlier { AreOrders task.now (map mappings_of earlier.now) }
    ensures { IfOk result (AreStageColumns task.now) }
{
    let limits = &STAGES[stage];
    let pooled = pool_of(rt, alloc, limits, pool_from(alloc, task, earlier)?)?;
    let mappings = pooled.pool.mappings();
    let before = orders_by_index(alloc, mappings, earlier)?;
    let effort = Effort {
        samples: DEFAULT_SAMPLES,
        candidates: CANDIDATES,
        steps: STEPS[stage],
    };
    let mut words = SplitMix64::seed_from_u64(seed_of(limits.number));
    let orders = choose_orders(rt, alloc, task, mappings, &before, &effort, &mut words)?;
    make_columns(rt, alloc, task, &orders)
}
