//! New mappings that grow from the variables of the goal.

ghost use Rattle.std.specs.Prelude.{◌≡◌, ◌≤◌, ◌<◌, ◌+◌, ◌^◌, length, IfOk, IfSome, OnOk};
ghost use Rattle.abstraction_mapping.specs.Views.{mapping_of};
ghost use Rattle.pdb_patterns.specs.Choices.{IsMappingWithin};
ghost use Rattle.scp_pool.specs.Pools.{IsExtension};

use crate::pool::Pool;
use crate::same::has_abstraction;
use abstraction_mapping::Mapping;
use fdr::{Fact, FdrTask};
use pdb_patterns::Growth;
use pdb_refinement::{Limits, Refiner};
use std::alloc::{AllocError, Global};

/// The greatest number of variables of the goal from which a mapping grows.
pub(crate) const MAX_GROWN: usize = 64;

/// The least limit of abstract states under which a mapping grows.
const LEAST_STATES: usize = 16;

/// Makes mappings that grow.
#[derive(Clone, Copy)]
pub(crate) struct Grower<'a> {
    pub(crate) task: &'a FdrTask,
    pub(crate) growth: &'a Growth<'a>,
    pub(crate) refiner: &'a Refiner<'a>,
    /// The greatest number of abstract states.
    pub(crate) states: usize,
    /// The number of transitions of all new mappings.
    pub(crate) transitions: u64,
    pub(crate) work: u64,
}

/// A mapping that has grown, with the number of its transitions.
#[derive(Drop)]
struct Grown {
    mapping: Mapping,
    transitions: u64,
}

/// What has grown.
#[derive(Clone, Copy)]
struct Harvest {
    transitions: u64,
    work: u64,
}

impl Harvest {
    /// Whether no more is to grow.
    fn is_full(&self, grower: &Grower<'_>) -> bool {
        self.transitions >= grower.transitions || self.work >= grower.work
    }
}

/// The limits of counting the transitions of a mapping.
fn limits_of(grower: &Grower<'_>, harvest: &Harvest, left: usize) -> Limits {
    let rest = grower.transitions.saturating_sub(harvest.transitions);
    let part = rest / (left.max(1) as u64);
    Limits {
        states: grower.states,
        transitions: part.max(grower.transitions / 8),
        work: grower.work.saturating_sub(harvest.work),
    }
}

/// The mapping that grows from the variable of a fact of the goal within a number of abstract states, if its
/// transitions are within the limits.
fn grown_within(
    alloc: Global,
    grower: &Grower<'_>,
    goal: &Fact,
    states: usize,
    limits: &Limits,
    harvest: &mut Harvest,
) -> Result<Option<Grown>, AllocError>
    requires exists { goal.now.variable < length grower.now.task.now.value_names }
    requires task { grower.now.growth.now ≡ grower.now.task.now }
    requires some { 1 ≤ states }
    requires small { states ≤ 2 ^ 24 }
    ensures { IfOk result (λ found. IfSome found (λ g. IsMappingWithin grower.now.task.now states (mapping_of g.mapping))) }
{
    let value = goal.value as usize;
    let Some(mapping) = grower
        .growth
        .mapping_from(alloc, goal.variable, value, states)?
    else {
        return Ok(None);
    };
    let extent = grower.refiner.extent(alloc, &mapping, limits)?;
    harvest.work = harvest.work.saturating_add(extent.work);
    match extent.transitions {
        Some(transitions) => Ok(Some(Grown {
            mapping,
            transitions,
        })),
        None => Ok(None),
    }
}

/// The mapping that grows from the variable of a fact of the goal within the greatest of the numbers of abstract states
/// under which its transitions are within the limits: the greatest number, a quarter of it, and so on.
fn grown_from(
    alloc: Global,
    grower: &Grower<'_>,
    goal: &Fact,
    left: usize,
    harvest: &mut Harvest,
) -> Result<Option<Grown>, AllocError>
    requires exists { goal.now.variable < length grower.now.task.now.value_names }
    requires task { grower.now.growth.now ≡ grower.now.task.now }
    requires small { grower.now.states ≤ 2 ^ 24 }
    ensures { IfOk result (λ found. IfSome found (λ g. IsMappingWithin grower.now.task.now grower.now.states (mapping_of g.mapping))) }
{
    let mut states = grower.states;
    for _ in 0..12 {
        if states < LEAST_STATES || harvest.is_full(grower) {
            break;
        }
        let limits = limits_of(grower, harvest, left);
        let grown = grown_within(alloc, grower, goal, states, &limits, harvest)?;
        if grown.is_some() {
            return Ok(grown);
        }
        states /= 4;
    }
    Ok(None)
}

/// Adds the mapping that grows from a fact of the goal, if there is one and it is new. `left` facts are not done.
fn add_one(
    alloc: Global,
    grower: &Grower<'_>,
    goal: &Fact,
    left: usize,
    harvest: &mut Harvest,
    pool: &mut Pool<'_>,
) -> Result<(), AllocError>
    requires exists { goal.now.variable < length grower.now.task.now.value_names }
    requires task { grower.now.growth.now ≡ grower.now.task.now }
    requires same { pool.old.task ≡ grower.now.task.now }
    requires small { grower.now.states ≤ 2 ^ 24 }
    ensures extended { OnOk result (IsExtension grower.now.states pool.old pool.new) }
    ensures few { OnOk result (length pool.new.mappings ≤ length pool.old.mappings + 1) }
{
    let Some(grown) = grown_from(alloc, grower, goal, left, harvest)? else {
        return Ok(());
    };
    if has_abstraction(pool, &grown.mapping) {
        return Ok(());
    }
    if pool.add(grown.mapping)? {
        harvest.transitions = harvest.transitions.saturating_add(grown.transitions);
    }
    Ok(())
}

/// Adds new mappings that grow from the variables of the goal, in the order of its facts.
pub(crate) fn add_grown(
    alloc: Global,
    grower: &Grower<'_>,
    pool: &mut Pool<'_>,
) -> Result<(), AllocError>
    requires task { grower.now.growth.now ≡ grower.now.task.now }
    requires same { pool.old.task ≡ grower.now.task.now }
    requires small { grower.now.states ≤ 2 ^ 24 }
    ensures extended { OnOk result (IsExtension grower.now.states pool.old pool.new) }
    ensures few { OnOk result (length pool.new.mappings ≤ length pool.old.mappings + 64) }
{
    let task = grower.task;
    task.recall(); // the variables of the goal exist
    let goal = task.goal();
    let count = goal.len().min(MAX_GROWN);
    let mut harvest = Harvest {
        transitions: 0,
        work: 0,
    };
    for position in 0..count {
        add_one(
            alloc,
            grower,
            &goal[position],
            count - position,
            &mut harvest,
            pool,
        )?;
    }
    Ok(())
}
