//! Abstractions whose transitions are listed.

ghost use Rattle.std.specs.Prelude.{◌≡◌, ℕ, ◌<◌, IfOk};
ghost use Rattle.abstraction_groups.specs.Factors.{groups_of};
ghost use Rattle.abstraction_groups.specs.Entrances.{AreEntering};
ghost use Rattle.abstraction_groups.specs.Lists as spec;

use crate::backward::{BackwardAbstraction, BackwardTransitions, Transition};
use crate::factored::FactoredAbstraction;
use crate::groups::Groups;
use crate::pairs::append_pairs;
use abstraction::Abstraction;
use keyed_lists::{Keyed, Lists};
use std::alloc::{AllocError, Global};
use std::marker::Model;

/// An abstraction with all its transitions by groups of operators, listed by the abstract state that they enter. In
/// contracts its value is the abstraction.
#[derive(Drop)]
pub struct Listed<'a, A: FactoredAbstraction> {
    groups: Groups<'a, A>,
    lists: Lists<Transition>,
    /// Whether each abstract state is an abstract goal, in order; empty if that is not stored.
    goals: Vec<bool>,
}

impl<'a, A: FactoredAbstraction> Model for Listed<'a, A> {
    ghost use Rattle.abstraction_groups.specs.Factors.{groups_of};
    ghost use Rattle.abstraction_groups.specs.Lists as spec;

    ghost Value = { A };

    ghost view = { λ l. l.groups };

    ghost invariant = { λ l.
        spec.AreLists (A.abstraction l.groups) (groups_of (A.task l.groups) (A.factors l.groups)) l.lists ×
        spec.AreGoals (A.abstraction l.groups) l.goals.items };
}

/// Returns the transitions of all groups, each with the abstract state that it enters as its key.
fn entries_of<A: FactoredAbstraction>(
    alloc: Global,
    groups: &Groups<'_, A>,
) -> Result<Vec<Keyed<Transition>>, AllocError>
    ensures { IfOk result (λ entries.
        spec.AreEntries (A.abstraction groups.now) (groups_of (A.task groups.now) (A.factors groups.now)) entries.items) }
{
    // only for the proof: an operator's number fits, so that of a group does
    groups.abstraction().task().recall();
    let digits = groups.abstraction().digits();
    let mut entries = Vec::with_capacity(alloc, groups.transition_count() as usize)?;
    for group in 0..groups.len() {
        append_pairs(digits, groups.changes_of(group), group as u32, &mut entries)?;
    }
    Ok(entries)
}

/// Returns for each abstract state the transitions into it.
fn lists_of<A: FactoredAbstraction>(
    alloc: Global,
    groups: &Groups<'_, A>,
) -> Result<Lists<Transition>, AllocError>
    ensures { IfOk result (λ lists.
        spec.AreLists (A.abstraction groups.now) (groups_of (A.task groups.now) (A.factors groups.now)) lists) }
{
    let entries = entries_of(alloc, groups)?;
    let size = groups.abstraction().size();
    let lists = Lists::new(alloc, size, &entries)?;
    Ok(lists)
}

/// Returns for each abstract state whether it is an abstract goal.
fn goals_of<A: Abstraction>(alloc: Global, abstraction: &A) -> Result<Vec<bool>, AllocError>
    ensures { IfOk result (λ goals. spec.AreGoals (A.abstraction abstraction.now) goals.items) }
{
    let mut goals = Vec::with_capacity(alloc, abstraction.size())?;
    for state in 0..abstraction.size() {
        goals.push(abstraction.is_goal(state))?;
    }
    Ok(goals)
}

impl<'a, A: FactoredAbstraction> Listed<'a, A> {
    /// Lists the transitions of the groups. Time and memory are linear in the number of transitions and of abstract
    /// states.
    pub fn new(alloc: Global, groups: Groups<'a, A>) -> Result<Listed<'a, A>, AllocError>
        ensures { IfOk result (λ l. l ≡ groups.entry) }
    {
        let lists = lists_of(alloc, &groups)?;
        Ok(Listed {
            groups,
            lists,
            goals: Vec::new(alloc),
        })
    }

    /// Lists the transitions of the groups as `new` does, and stores which abstract states are goals, a byte for each:
    /// for an abstraction that is searched many times.
    pub fn with_goals(alloc: Global, groups: Groups<'a, A>) -> Result<Listed<'a, A>, AllocError>
        ensures { IfOk result (λ l. l ≡ groups.entry) }
    {
        let lists = lists_of(alloc, &groups)?;
        let goals = goals_of(alloc, groups.abstraction())?;
        Ok(Listed {
            groups,
            lists,
            goals,
        })
    }

    /// Returns the groups.
    pub fn groups(&self) -> &Groups<'a, A>
        ensures { result.now ≡ self.now }
    {
        &self.groups
    }

    /// Returns the transitions into an abstract state, one of all operators of a group once.
    pub fn entering_list(&self, abstract_state: usize) -> &[Transition]
        requires { abstract_state < (A.abstraction self.now).size }
        ensures { AreEntering (A.abstraction self.now) (groups_of (A.task self.now) (A.factors self.now)) abstract_state result.now }
    {
        self.lists.get(abstract_state)
    }
}

impl<'a, A: FactoredAbstraction> Abstraction for Listed<'a, A> {
    ghost task = { λ l. A.task l };

    ghost abstraction = { λ l. A.abstraction l };

    ghost abstracts = { λ l. A.abstracts l };

    ghost is_small = { λ l. A.is_small l };

    fn size(&self) -> usize {
        self.groups.abstraction().size()
    }

    fn index(&self, state: &[u32]) -> usize {
        self.groups.abstraction().index(state)
    }

    fn transition(&self, abstract_state: usize, operator: usize) -> Option<usize> {
        self.groups
            .abstraction()
            .transition(abstract_state, operator)
    }

    fn touches(&self, operator: usize) -> bool {
        self.groups.abstraction().touches(operator)
    }

    fn is_goal(&self, abstract_state: usize) -> bool {
        match self.goals.get(abstract_state) {
            Some(is_goal) => *is_goal,
            None => self.groups.abstraction().is_goal(abstract_state),
        }
    }
}

impl<'a, A: FactoredAbstraction> BackwardTransitions for Listed<'a, A> {
    ghost use Rattle.abstraction_groups.specs.Factors.{groups_of};
    ghost use Rattle.abstraction_groups.specs.GroupLaws.{factored_grouped};

    ghost abstraction = { λ l. A.abstraction l };

    ghost classes = { λ l. groups_of (A.task l) (A.factors l) };

    ghost grouped = { λ l. factored_grouped (A.task l) (A.abstraction l) (A.factors l) (A.factored l) };

    fn class_count(&self) -> usize {
        self.groups.len()
    }

    fn operators_of(&self, class: usize) -> &[u32] {
        self.groups.operators_of(class)
    }

    fn stored(&self, abstract_state: usize) -> Option<&[Transition]> {
        Some(self.lists.get(abstract_state))
    }

    fn entering(
        &self,
        abstract_state: usize,
        _: &mut Vec<u32>,
        transitions: &mut Vec<Transition>,
    ) -> Result<(), AllocError> {
        transitions.clear();
        transitions.extend_from_slice(self.lists.get(abstract_state))?;
        Ok(())
    }
}

impl<'a, A: FactoredAbstraction> BackwardAbstraction for Listed<'a, A> {
    type Transitions = Listed<'a, A>;

    fn transitions(&self) -> &Listed<'a, A> {
        self
    }
}
