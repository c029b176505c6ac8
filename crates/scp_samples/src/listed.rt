//! Abstractions of the pool with lists of their transitions, and their tables.

ghost use Rattle.std.specs.Prelude.{◌≡◌, ℕ, ◌<◌, ◌^◌, length, slice_index, IfOk};
ghost use Rattle.fdr.specs.Tasks.{ranges, IsState};
ghost use Rattle.abstraction_mapping.specs.Views.{task_in};
ghost use Rattle.scp_samples.specs.Tasks.{task_of};

use abstraction::{Abstraction, Projection};
use abstraction_domain::DomainAbstraction;
use abstraction_groups::{BackwardTransitions, FactoredAbstraction, Groups, Listed, OperatorIndex};
use abstraction_mapping::TableAbstraction;
use pdb::{Scratch, take_table};
use std::alloc::{AllocError, Global};

/// An abstraction of the pool with lists of its transitions.
#[derive(Drop)]
pub enum ListedAbstraction<'a> {
    /// A projection to a pattern.
    Projection(Listed<'a, Projection<'a>>),
    /// A domain abstraction.
    Domain(Listed<'a, DomainAbstraction<'a>>),
}

/// Lists the transitions and goals of an abstraction of the indexed task.
fn list<'a, A: FactoredAbstraction>(
    alloc: Global,
    abstraction: &'a A,
    index: &OperatorIndex<'_>,
) -> Result<Listed<'a, A>, AllocError>
    requires { index.now ≡ A.task abstraction.now }
    ensures { IfOk result (λ l. l ≡ abstraction.now) }
{
    Listed::with_goals(alloc, Groups::new(alloc, abstraction, index)?)
}

/// Returns the number of abstract states and transitions.
fn steps_of<A: FactoredAbstraction>(listed: &Listed<'_, A>) -> u64 {
    let states = listed.size() as u64;
    states.saturating_add(listed.groups().transition_count())
}

/// Returns the abstract state of a state of the task.
fn abstract_state<A: FactoredAbstraction>(listed: &Listed<'_, A>, state: &[u32]) -> u32
    requires { IsState (ranges (A.task listed.now)) state.now }
{
    let size = listed.size(); // at most 2^24
    let index = listed.index(state);
    prove!(index < size);
    index as u32
}

/// Returns whether each of these operators has a positive cost.
fn have_cost(operators: &[u32], costs: &[u32]) -> bool {
    operators.iter().all(|operator| costs.get(*operator as usize).is_some_and(|cost| *cost > 0))
}

/// Returns whether the operators of some class all have a positive cost.
fn has_cost<T: BackwardTransitions>(transitions: &T, costs: &[u32]) -> bool {
    for class in 0..transitions.class_count() {
        if have_cost(transitions.operators_of(class), costs) {
            return true;
        }
    }
    false
}

impl<'a> ListedAbstraction<'a> {
    /// Lists the transitions of an abstraction of the indexed task.
    pub(crate) fn new(
        alloc: Global,
        abstraction: &'a TableAbstraction<'a>,
        index: &OperatorIndex<'_>,
    ) -> Result<ListedAbstraction<'a>, AllocError>
        requires { index.now ≡ task_in abstraction.now }
        ensures { IfOk result (λ l. task_of l ≡ task_in abstraction.now) }
    {
        match abstraction {
            TableAbstraction::Projection(projection) => {
                let listed = list(alloc, projection, index)?;
                Ok(ListedAbstraction::Projection(listed))
            }
            TableAbstraction::Domain(domain) => {
                let listed = list(alloc, domain, index)?;
                Ok(ListedAbstraction::Domain(listed))
            }
        }
    }

    /// Returns the number of abstract states and transitions. A transition of all operators of a class counts once.
    pub(crate) fn steps(&self) -> u64 {
        match self {
            ListedAbstraction::Projection(listed) => steps_of(listed),
            ListedAbstraction::Domain(listed) => steps_of(listed),
        }
    }

    /// Returns the abstract state of a state of the task.
    pub(crate) fn abstract_state(&self, state: &[u32]) -> u32
        requires { IsState (ranges (task_of self.now)) state.now }
    {
        match self {
            ListedAbstraction::Projection(listed) => abstract_state(listed, state),
            ListedAbstraction::Domain(listed) => abstract_state(listed, state),
        }
    }

    /// Returns whether the operators of some class all have a positive cost. If there is no such class, all finite
    /// distances are 0.
    pub fn has_cost(&self, costs: &[u32]) -> bool {
        match self {
            ListedAbstraction::Projection(listed) => has_cost(listed, costs),
            ListedAbstraction::Domain(listed) => has_cost(listed, costs),
        }
    }

    /// Finds the distances under the costs that are left, which `scratch` has then, and subtracts the saturated shares
    /// from these costs, of which there is one below 2^31 for each operator of the task. After an error the costs are
    /// unchanged.
    pub fn take_table(&self, left: &mut [u32], scratch: &mut Scratch) -> Result<(), AllocError>
        requires operators { length left.old ≡ length (task_of self.now).operators }
        requires small { (o : ℕ) → slice_index left.old o < 2 ^ 31 }
        ensures { (o : ℕ) → slice_index left.new o < 2 ^ 31 }
    {
        match self {
            ListedAbstraction::Projection(listed) => take_table(listed, left, scratch),
            ListedAbstraction::Domain(listed) => take_table(listed, left, scratch),
        }
    }
}
