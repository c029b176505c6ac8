//! The space that owners search.

ghost use Rattle.std.specs.Prelude.{◌≡◌, ℕ, List, true, ◌<◌, ◌≤◌, ◌^◌, [], length, Some, IfOk, OnOk, OnErr};
ghost use Rattle.cost.specs.Distances.{◌+ᵈ◌, Finite, IsWithin};
ghost use Rattle.checker_clauses.specs.Clauses.{heuristic_of};
ghost use Rattle.fdr.specs.Tasks as tasks;
ghost use Rattle.fdr.specs.Tasks.{IsState, IsTask, IsAssignment, applies_at, step, with_values};
ghost use Rattle.owner_theory.specs.Families.{IsLowerBound};
ghost use Rattle.fdr_successors.specs.Applicable.{applicable_operators};
ghost use Rattle.owner_space.specs.Costs as costs;
ghost use Rattle.cost.specs.declared.TheConstants.{MAX_COST};

use crate::costs::{greatest_cost, least_cost};
use crate::ties::Ties;
use cost::Dist;
use fdr::{Fact, FdrTask};
use fdr_successors::SuccessorGenerator;
use packed::{Layout, TaskMasks};
use packed_spread::Spread;
use scp::{Columns, Places};
use std::alloc::{AllocError, Global};
use std::marker::Model;

/// The search space of owners: a task, the columns of its heuristic, the owner of each state, the number of nodes that
/// each owner may expand, if there is a limit, and the tie-breaking rule among nodes of the same f-value. In contracts
/// its value is the task, the tables, the spread, the limit and the rule.
#[derive(Drop)]
pub struct Space<'a, S: Spread + Drop> {
    task: &'a FdrTask,
    columns: Columns<'a>,
    spread: S,
    limit: Option<u64>,
    ties: Ties,
    generator: SuccessorGenerator<'a>,
    layout: Layout,
    masks: TaskMasks<'a>,
    /// The least cost of an operator.
    least_cost: u64,
    /// The greatest cost of an operator.
    greatest_cost: u64,
    ghost columns_are_of_task: { columns.task ≡ task.now },
    ghost spread_is_of_task: { S.ranges spread ≡ tasks.ranges task.now },
    ghost generator_is_of_task: { generator ≡ task.now },
    ghost layout_is_of_task: { layout ≡ tasks.ranges task.now },
    ghost masks_are_of_task: { masks ≡ task.now },
    ghost least_cost_is_of_task: { least_cost ≡ costs.least_cost task.now },
    ghost least_cost_is_small: { least_cost ≤ MAX_COST },
    ghost greatest_cost_is_of_task: { greatest_cost ≡ costs.greatest_cost task.now },
    ghost greatest_cost_is_small: { greatest_cost ≤ MAX_COST },
}

impl<'a, S: Spread + Drop> Model for Space<'a, S> {
    ghost use Rattle.owner_space.specs.Spaces.{SpaceOf};

    ghost Value = { SpaceOf S };

    ghost view = { λ s. record { task = s.task.now; columns = s.columns.columns; spread = s.spread; limit = s.limit; ties = s.ties } };
}

/// Returns the cost, which is at most 2^62, plus the heuristic value.
fn sum(cost: u64, h: Dist) -> Dist
    requires cost { cost ≤ 2 ^ 62 }
    requires small { IsWithin (2 ^ 61) h }
    ensures { result ≡ Finite cost +ᵈ h }
{
    match h.get() {
        Some(h) => Dist::fin(cost + h).unwrap(), // at most 2^62 + 2^61
        None => Dist::inf(),
    }
}

/// Returns the f-value of the successor by an operator that applies, reached at this cost, of the state whose table
/// indices `places` caches. It is the same as `Space::f`.
pub fn f_after(places: &mut Places<'_>, operator: usize, cost: u64) -> Dist
    requires applies { applies_at places.old.task operator places.old.state ≡ true }
    requires cost { cost ≤ 2 ^ 62 }
    ensures value { (next : List ℕ) → step places.old.task places.old.state operator ≡ Some next →
        result ≡ Finite cost +ᵈ heuristic_of places.old.task places.old.columns next }
    ensures same { places.new ≡ places.old }
{
    sum(cost, places.h_after(operator))
}

impl<'a, S: Spread + Drop> Space<'a, S> {
    /// Returns the space of a task.
    pub fn new(
        alloc: Global,
        task: &'a FdrTask,
        columns: Columns<'a>,
        spread: S,
        limit: Option<u64>,
        ties: Ties,
    ) -> Result<Space<'a, S>, AllocError>
        requires columns { columns.task ≡ task.now }
        requires spread { S.ranges spread ≡ tasks.ranges task.now }
        ensures { IfOk result (λ s. s ≡ record { task = task.now; columns = columns.entry.columns; spread = spread; limit = limit; ties = ties }) }
    {
        let generator = SuccessorGenerator::new(alloc, task)?;
        let layout = Layout::new(alloc, task)?;
        let masks = TaskMasks::new(alloc, &layout, task)?;
        Ok(Space {
            task,
            columns,
            spread,
            limit,
            ties,
            generator,
            layout,
            masks,
            least_cost: least_cost(task),
            greatest_cost: greatest_cost(task),
        })
    }

    /// Returns the task.
    pub fn task(&self) -> &'a FdrTask
        ensures { result.now ≡ self.now.task }
    {
        self.task
    }

    /// Returns the columns of the heuristic.
    pub fn columns(&self) -> &Columns<'a>
        ensures { result.now ≡ record { task = self.now.task; columns = self.now.columns } }
    {
        &self.columns
    }

    /// Returns the layout of the forms of its states.
    pub fn layout(&self) -> &Layout
        ensures { result.now ≡ tasks.ranges self.now.task }
    {
        &self.layout
    }

    /// Returns the effects of the task's operators, and its goal, as masks over the words of packed states.
    pub fn masks(&self) -> &TaskMasks<'a>
        ensures { result.now ≡ self.now.task }
    {
        &self.masks
    }

    /// Returns the least cost of an operator. Without operators it is the greatest cost there is.
    pub fn least_cost(&self) -> u64
        ensures value { result ≡ costs.least_cost self.now.task }
        ensures bound { result ≤ MAX_COST }
    {
        self.least_cost
    }

    /// Returns the greatest cost of an operator, 0 without operators.
    pub fn greatest_cost(&self) -> u64
        ensures value { result ≡ costs.greatest_cost self.now.task }
        ensures bound { result ≤ MAX_COST }
    {
        self.greatest_cost
    }

    /// Returns the f-value of a state that was reached at this cost, which is at most 2^62: the cost plus the state's
    /// heuristic value, f = g + h.
    pub fn f(&self, state: &[u32], cost: u64) -> Dist
        requires state { IsState (tasks.ranges self.now.task) state.now }
        requires cost { cost ≤ 2 ^ 62 }
        ensures { result ≡ Finite cost +ᵈ heuristic_of self.now.task self.now.columns state.now }
    {
        sum(cost, self.columns.h(state))
    }

    /// Returns the owner of a state, given the number of owners.
    pub fn owner_of(&self, state: &[u32], owners: usize) -> usize
        requires owners { 0 < owners }
        requires state { IsState (tasks.ranges self.now.task) state.now }
        ensures value { result ≡ S.owner self.now.spread state.now owners }
        ensures below { result < owners }
    {
        self.spread.owner_of(state, owners)
    }

    /// Returns the hash of a state that `owner_after` takes.
    pub fn hash_of(&self, state: &[u32]) -> u64
        requires { IsState (tasks.ranges self.now.task) state.now }
        ensures { result ≡ S.state_hash self.now.spread state.now }
    {
        self.spread.hash_of(state)
    }

    /// Returns the owner, given the number of owners, of the state in which the variables of these facts have the
    /// facts' values, and all others their value in `state`; `hash` is the result of `hash_of` for `state`.
    pub fn owner_after(&self, state: &[u32], hash: u64, facts: &[Fact], owners: usize) -> usize
        requires owners { 0 < owners }
        requires state { IsState (tasks.ranges self.now.task) state.now }
        requires hash { hash ≡ S.state_hash self.now.spread state.now }
        requires facts { IsAssignment (tasks.ranges self.now.task) facts.now }
        ensures value { result ≡ S.owner self.now.spread (with_values facts.now state.now) owners }
        ensures below { result < owners }
    {
        self.spread.owner_after(state, hash, facts, owners)
    }

    /// Replaces the content of `found` by the numbers of the operators that apply in the state, in increasing order. On
    /// failure `found` is empty.
    pub fn applicable(&self, state: &[u32], found: &mut Vec<usize>) -> Result<(), AllocError>
        requires { length state.now ≡ length self.now.task.value_names }
        ensures found { OnOk result (found.new.items ≡ applicable_operators self.now.task state.now) }
        ensures none { OnErr result (found.new.items ≡ []) }
    {
        self.generator.applicable(state, found)
    }

    /// Proves the type's invariant: the task is a finite-domain task, and the heuristic of a state is at most the cost
    /// of any operators from it to a goal state. Only for the proof.
    pub fn recall(&self)
        ensures task { IsTask self.now.task }
        ensures lower { IsLowerBound self.now.task (heuristic_of self.now.task self.now.columns) }
    {
        self.task.recall();
        self.columns.recall();
    }

    /// Returns the greatest number of nodes that each owner may expand, if there is a limit.
    pub fn limit(&self) -> Option<u64>
        ensures { result ≡ self.now.limit }
    {
        self.limit
    }

    /// Returns the tie-breaking rule among nodes of the same f-value.
    pub fn ties(&self) -> Ties
        ensures { result ≡ self.now.ties }
    {
        self.ties
    }
}
