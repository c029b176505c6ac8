//! What is computed once for an abstraction of the pool.

ghost use Rattle.std.specs.Prelude.{◌≡◌, ℕ, ◌<◌, ◌^◌, length, slice_index, IfOk};
ghost use Rattle.abstraction_mapping.specs.Views.{task_in};
ghost use Rattle.scp_samples.specs.Tasks.{task_of};

use crate::listed::ListedAbstraction;
use abstraction_groups::OperatorIndex;
use abstraction_mapping::TableAbstraction;
use cert_value::Values;
use pdb::Scratch;
use std::alloc::{AllocError, Global};

/// The saturated share of an operator: what an abstraction needs of its cost so that no distance becomes less.
#[derive(Clone, Copy)]
pub struct OperatorShare {
    /// The index of the operator in the task.
    pub operator: usize,
    /// At most the cost of the operator.
    pub share: u32,
}

/// An abstraction of the pool, with its distances and shares under full costs.
#[derive(Drop)]
pub struct PoolEntry<'a> {
    /// The abstraction with lists of its transitions.
    pub listed: ListedAbstraction<'a>,
    /// The number of abstract states and transitions.
    pub steps: u64,
    /// The distances under full costs.
    values: Values,
    /// The positive saturated shares under full costs. There is one if a finite distance is positive, and only then.
    pub shares: Vec<OperatorShare>,
}

/// Returns the share of each operator that has one: its cost less what is left of it, if that is positive.
fn positive_shares(
    alloc: Global,
    costs: &[u32],
    left: &[u32],
) -> Result<Vec<OperatorShare>, AllocError> {
    let mut shares = Vec::new(alloc);
    for (operator, (cost, left)) in costs.iter().zip(left).enumerate() {
        let share = cost.saturating_sub(*left);
        if share > 0 {
            shares.push(OperatorShare { operator, share })?;
        }
    }
    Ok(shares)
}

impl<'a> PoolEntry<'a> {
    /// Prepares an abstraction of the indexed task, with these costs of operators.
    pub(crate) fn new(
        alloc: Global,
        abstraction: &'a TableAbstraction<'a>,
        index: &OperatorIndex<'_>,
        costs: &[u32],
        scratch: &mut Scratch,
    ) -> Result<PoolEntry<'a>, AllocError>
        requires index { index.now ≡ task_in abstraction.now }
        requires operators { length costs.now ≡ length (task_in abstraction.now).operators }
        requires small { (o : ℕ) → slice_index costs.now o < 2 ^ 31 }
        ensures { IfOk result (λ e. task_of e.listed ≡ task_in abstraction.now) }
    {
        let listed = ListedAbstraction::new(alloc, abstraction, index)?;
        let mut left = Vec::from_slice(alloc, costs)?;
        listed.take_table(&mut left, scratch)?;
        let values = scratch.distances(alloc)?;
        let shares = positive_shares(alloc, costs, &left)?;
        let steps = listed.steps();
        Ok(PoolEntry {
            listed,
            steps,
            values,
            shares,
        })
    }

    /// Returns the distance of an abstract state under full costs, or `None` if it is infinite or there is no state.
    pub fn height(&self, abstract_state: u32) -> Option<u64> {
        let index = abstract_state as usize;
        let values = &self.values;
        if index < values.len() {
            values.get(index).get()
        } else {
            None
        }
    }
}
