//! The evaluation of orders.

ghost use Rattle.std.specs.Prelude.{◌≡◌, ℕ, ◌<◌, ◌^◌, length, slice_index, OnOk};

use pdb::Scratch;
use scp_samples::{MAX_TABLES, Pool, Samples};
use std::alloc::{AllocError, Global};

/// What orders are evaluated with.
#[derive(Clone, Copy)]
pub(crate) struct Setting<'a> {
    pub(crate) alloc: Global,
    pub(crate) pool: &'a Pool<'a>,
    /// The states for which columns are compared.
    pub(crate) samples: &'a Samples,
}

/// A column by an order of abstractions.
#[derive(Drop)]
pub(crate) struct Column {
    /// The indices of the abstractions that have a table in the column, in order.
    pub(crate) order: Vec<usize>,
    /// The heuristic value of each sample.
    pub(crate) values: Vec<u64>,
    /// The number of abstract states and transitions of the tables that were computed.
    pub(crate) steps: u64,
}

/// An order of indices into the pool, with its column and the memory in which that is computed. Memory of earlier
/// orders is reused.
#[derive(Drop)]
pub(crate) struct Candidate {
    pub(crate) order: Vec<usize>,
    column: Column,
    /// Whether memory sufficed for the column.
    is_complete: bool,
    /// What is left of the cost of each operator.
    left: Vec<u32>,
    scratch: Scratch,
}

/// Returns whether a finite distance is positive.
fn has_positive(scratch: &Scratch) -> bool {
    for state in 0..scratch.len() {
        if scratch
            .distance(state)
            .get()
            .is_some_and(|distance| distance > 0)
        {
            return true;
        }
    }
    false
}

/// Adds the distances to the values of the samples, which have these abstract states.
fn add_distances(values: &mut [u64], scratch: &Scratch, abstract_states: &[u32]) {
    for (value, state) in values.iter_mut().zip(abstract_states) {
        let state = *state as usize;
        if state < scratch.len() {
            let distance = scratch.distance(state).get().unwrap_or(0);
            *value = value.saturating_add(distance);
        }
    }
}

impl Column {
    /// Removes the tables, for this many samples.
    fn clear(&mut self, samples: usize) -> Result<(), AllocError> {
        self.order.clear();
        self.values.clear();
        self.steps = 0;
        self.values.resize(samples, 0)
    }

    /// Adds the table of the entry with this index under the costs that are left, and subtracts its saturated shares
    /// from these. Adds no table if there is no such entry or no finite distance is positive.
    fn add_table(
        &mut self,
        setting: Setting<'_>,
        index: usize,
        left: &mut [u32],
        scratch: &mut Scratch,
    ) -> Result<(), AllocError>
        requires operators { length left.old ≡ length setting.pool.now.task.now.operators }
        requires small { (o : ℕ) → slice_index left.old o < 2 ^ 31 }
        ensures { (o : ℕ) → slice_index left.new o < 2 ^ 31 }
    {
        let Some(entry) = setting.pool.entries.get(index) else {
            return Ok(());
        };
        if !entry.listed.has_cost(left) {
            return Ok(());
        }
        entry.listed.take_table(left, scratch)?;
        self.steps = self.steps.saturating_add(entry.steps);
        if has_positive(scratch) {
            self.order.push(index)?;
            if let Some(abstract_states) = setting.samples.abstract_states.get(index) {
                add_distances(&mut self.values, scratch, abstract_states);
            }
        }
        Ok(())
    }

    /// Adds the tables of the entries with these indices in turn, until there are 64.
    fn add_tables(
        &mut self,
        setting: Setting<'_>,
        order: &[usize],
        left: &mut [u32],
        scratch: &mut Scratch,
    ) -> Result<(), AllocError>
        requires operators { length left.old ≡ length setting.pool.now.task.now.operators }
        requires small { (o : ℕ) → slice_index left.old o < 2 ^ 31 }
    {
        for index in order {
            if self.order.len() >= MAX_TABLES {
                break;
            }
            self.add_table(setting, *index, left, scratch)?;
        }
        Ok(())
    }

    /// Returns a copy.
    pub(crate) fn copied(&self, alloc: Global) -> Result<Column, AllocError> {
        Ok(Column {
            order: Vec::from_slice(alloc, &self.order)?,
            values: Vec::from_slice(alloc, &self.values)?,
            steps: self.steps,
        })
    }
}

impl Candidate {
    /// Returns the empty order.
    pub(crate) fn new(alloc: Global) -> Result<Candidate, AllocError> {
        Ok(Candidate {
            order: Vec::new(alloc),
            column: Column {
                order: Vec::new(alloc),
                values: Vec::new(alloc),
                steps: 0,
            },
            is_complete: false,
            left: Vec::new(alloc),
            scratch: Scratch::new(alloc)?,
        })
    }

    /// Computes the column of the order: tables in turn under the costs that are left, until there are 64.
    fn fill(&mut self, setting: Setting<'_>) -> Result<(), AllocError> {
        self.column.clear(setting.samples.count)?;
        self.left.clear();
        self.left.extend_from_slice(&setting.pool.costs)?;
        let left = &mut self.left;
        let scratch = &mut self.scratch;
        self.column.add_tables(setting, &self.order, left, scratch)
    }

    /// Computes the column of the order, unless memory runs out, and empties the order.
    pub(crate) fn evaluate(&mut self, setting: Setting<'_>) {
        self.is_complete = self.fill(setting).is_ok();
        self.order.clear();
    }

    /// Returns the column of the last order that was evaluated, or an error if memory ran out.
    pub(crate) fn column(&self) -> Result<&Column, AllocError> {
        self.is_complete.then_some(&self.column).ok_or(AllocError)
    }
}
