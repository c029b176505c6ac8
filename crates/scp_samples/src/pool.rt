//! The pool of abstractions.

ghost use Rattle.std.specs.Prelude.{◌≡◌, ℕ, ◌<◌, ◌^◌, true, length, slice_index, All, IfOk};
ghost use Rattle.fdr.specs.Tasks.{ranges, IsState};
ghost use Rattle.abstraction_mapping.specs.Mappings.{is_mapping};
ghost use Rattle.abstraction_mapping.specs.Views.{mapping_of, task_in};
ghost use Rattle.scp_samples.specs.Tasks.{task_of};

use crate::entry::PoolEntry;
use crate::stolen::stolen_costs;
use abstraction::Abstraction;
use abstraction_groups::OperatorIndex;
use abstraction_mapping::{Mapping, TableAbstraction};
use fdr::FdrTask;
use pdb::Scratch;
use rayon::prelude::*;
use std::alloc::{AllocError, Global};
use std::thread::Threads;

/// The pool of abstractions of a task, with what all orders of them need (Seipp, Keller and Helmert 2020).
#[derive(Drop)]
pub struct Pool<'a> {
    /// The task of all abstractions.
    pub task: &'a FdrTask,
    /// The abstractions, in the order in which they were passed. Orders have indices into this list.
    pub entries: Vec<PoolEntry<'a>>,
    /// The cost of each operator.
    pub costs: Vec<u32>,
    /// For each entry, the costs that it takes from others.
    pub stolen: Vec<u64>,
    pub ghost of_task: { All (λ e. task_of e.listed ≡ task.now) entries.items },
    pub ghost operators: { length costs.items ≡ length task.now.operators },
    pub ghost small: { (o : ℕ) → slice_index costs.items o < 2 ^ 31 },
}

/// Returns the abstractions of the task by these mappings, in their order.
pub fn abstractions_by<'a>(
    alloc: Global,
    task: &'a FdrTask,
    mappings: &[Mapping],
) -> Result<Vec<TableAbstraction<'a>>, AllocError>
    requires { All (λ m. is_mapping task.now (mapping_of m) ≡ true) mappings.now }
    ensures { IfOk result (λ made. All (λ a. task_in a ≡ task.now) made.items) }
{
    let mut made = Vec::with_capacity(alloc, mappings.len())?;
    for mapping in mappings {
        let Some(abstraction) = TableAbstraction::new(alloc, task, mapping)? else {
            unreachable!()
        };
        made.push(abstraction)?;
    }
    Ok(made)
}

/// Returns the cost of each operator.
fn costs_of(alloc: Global, task: &FdrTask) -> Result<Vec<u32>, AllocError>
    ensures len { IfOk result (λ costs. length costs.items ≡ length task.now.operators) }
    ensures small { IfOk result (λ costs. (o : ℕ) → slice_index costs.items o < 2 ^ 31) }
{
    let mut costs = Vec::with_capacity(alloc, task.operator_count())?;
    for operator in 0..task.operator_count() {
        costs.push(task.cost(operator).get() as u32)?;
    }
    Ok(costs)
}

/// The number of abstractions that are prepared at a time. Large ones are side by side in a pool, so longer batches
/// would leave most of the work to few threads.
const BATCH: usize = 8;

/// The number of abstract states of a pool from which on its abstractions are prepared in parallel.
const STATES_FOR_THREADS: usize = 20_000;

/// Returns whether the abstractions are too small for threads.
fn are_small(abstractions: &[TableAbstraction<'_>]) -> bool {
    let mut states: usize = 0;
    for abstraction in abstractions {
        states = states.saturating_add(abstraction.size());
    }
    states < STATES_FOR_THREADS
}

/// Prepares an abstraction, if there is memory to compute its table in.
fn entry_of<'a>(
    alloc: Global,
    abstraction: &'a TableAbstraction<'a>,
    index: &OperatorIndex<'_>,
    costs: &[u32],
    scratch: &mut Result<Scratch, AllocError>,
) -> Result<PoolEntry<'a>, AllocError>
    requires index { index.now ≡ task_in abstraction.now }
    requires operators { length costs.now ≡ length (task_in abstraction.now).operators }
    requires small { (o : ℕ) → slice_index costs.now o < 2 ^ 31 }
    ensures { IfOk result (λ e. task_of e.listed ≡ task_in abstraction.now) }
{
    match scratch {
        Ok(scratch) => PoolEntry::new(alloc, abstraction, index, costs, scratch),
        Err(_) => Err(AllocError),
    }
}

/// Prepares abstractions, at least as many of them in a thread as `least`.
fn prepared<'a, R: Threads + Sync>(
    rt: &R,
    alloc: Global,
    task: &FdrTask,
    abstractions: &'a [TableAbstraction<'a>],
    index: &OperatorIndex<'_>,
    costs: &[u32],
    least: usize,
) -> Result<Vec<PoolEntry<'a>>, AllocError>
    requires of_task { All (λ a. task_in a ≡ task.now) abstractions.now }
    requires index { index.now ≡ task.now }
    requires operators { length costs.now ≡ length task.now.operators }
    requires small { (o : ℕ) → slice_index costs.now o < 2 ^ 31 }
    ensures { IfOk result (λ entries. All (λ e. task_of e.listed ≡ task.now) entries.items) }
{
    let _ = task.operator_count(); // the task is only for the proof
    abstractions
        .par_iter()
        .with_min_len(least)
        .map_init(
            || Scratch::new(alloc),
            |scratch: &mut Result<Scratch, AllocError>, abstraction: &TableAbstraction<
                '_,
            >| -> Result<PoolEntry<'_>, AllocError>
                requires index { index.now ≡ task_in abstraction.now }
                requires operators { length costs.now ≡ length (task_in abstraction.now).operators }
                requires small { (o : ℕ) → slice_index costs.now o < 2 ^ 31 }
                ensures { IfOk result (λ e. task_of e.listed ≡ task_in abstraction.entry.now) }
            { entry_of(alloc, abstraction, index, costs, scratch) },
        )
        .collect::<Result<Vec<PoolEntry<'a>>, AllocError>>(rt, alloc)?
}

/// Prepares the abstractions, in parallel batches unless they are small.
fn entries_of<'a, R: Threads + Sync>(
    rt: &R,
    alloc: Global,
    task: &FdrTask,
    abstractions: &'a [TableAbstraction<'a>],
    costs: &[u32],
) -> Result<Vec<PoolEntry<'a>>, AllocError>
    requires of_task { All (λ a. task_in a ≡ task.now) abstractions.now }
    requires operators { length costs.now ≡ length task.now.operators }
    requires small { (o : ℕ) → slice_index costs.now o < 2 ^ 31 }
    ensures { IfOk result (λ entries. All (λ e. task_of e.listed ≡ task.now) entries.items) }
{
    let index = OperatorIndex::new(alloc, task)?;
    let count = abstractions.len();
    if are_small(abstractions) {
        return prepared(rt, alloc, task, abstractions, &index, costs, count);
    }
    let mut entries = Vec::with_capacity(alloc, count)?;
    for number in 0..count.div_ceil(BATCH) {
        let first = number.saturating_mul(BATCH).min(count);
        let end = first.saturating_add(BATCH).min(count);
        let batch = &abstractions[first..end];
        let mut made = prepared(rt, alloc, task, batch, &index, costs, 1)?;
        entries.append(&mut made)?;
    }
    Ok(entries)
}

impl<'a> Pool<'a> {
    /// Prepares the abstractions of a task: lists their transitions, and computes their distances and shares under full
    /// costs. Uses threads unless there are fewer than 20,000 abstract states. The result does not depend on the number
    /// of threads.
    pub fn new<R: Threads + Sync>(
        rt: &R,
        alloc: Global,
        task: &'a FdrTask,
        abstractions: &'a [TableAbstraction<'a>],
    ) -> Result<Pool<'a>, AllocError>
        requires { All (λ a. task_in a ≡ task.now) abstractions.now }
        ensures { IfOk result (λ pool. pool.task.now ≡ task.now) }
    {
        let costs = costs_of(alloc, task)?;
        let entries = entries_of(rt, alloc, task, abstractions, &costs)?;
        let stolen = stolen_costs(alloc, &entries, &costs)?;
        Ok(Pool {
            task,
            entries,
            costs,
            stolen,
        })
    }

    /// Replaces the content of `abstract_states` by the abstract state of a state of the task in each entry.
    pub(crate) fn abstract_states(
        &self,
        state: &[u32],
        abstract_states: &mut Vec<u32>,
    ) -> Result<(), AllocError>
        requires { IsState (ranges self.now.task.now) state.now }
    {
        abstract_states.clear();
        for entry in &self.entries {
            abstract_states.push(entry.listed.abstract_state(state))?;
        }
        Ok(())
    }

    /// Returns the number of abstract states and transitions of the entries with these indices.
    pub fn steps(&self, indices: &[usize]) -> u64 {
        let entries = indices.iter().filter_map(|index| self.entries.get(*index));
        entries.fold(0, |steps: u64, entry| steps.saturating_add(entry.steps))
    }
}
