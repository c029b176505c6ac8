//! Abstractions that are given by lists, for tests.

ghost use Rattle.std.specs.Prelude.{◌≡◌, ◌+◌, ◌*◌, ◌^◌, ◌<◌, ◌≤◌, length, Some, ◌↔◌, IsTrue, IfOk, OnOk};
ghost use Rattle.test_walks.specs.Graphs.{target_of, HasEntering};

use crate::members::{Members, members_of_all};
use abstraction::Abstraction;
use abstraction_groups::{BackwardAbstraction, BackwardTransitions, Transition};
use std::alloc::{AllocError, Global};
use std::marker::Model;

/// An abstraction by lists: each operator of a class maps an abstract state to the target of the class there, if it has
/// one, and the other operators map each abstract state to itself. In contracts its value is a `Listing`.
#[derive(Drop)]
pub struct Graph {
    /// For each abstract state, whether it is an abstract goal.
    goals: Vec<bool>,
    /// The number of classes.
    count: usize,
    /// For each operator its class, or a number that is none.
    kinds: Vec<u32>,
    /// For each class and each abstract state the target, or a number that is no abstract state.
    targets: Vec<u32>,
    /// The operators of each class.
    members: Vec<Members>,
    ghost some: { 0 < length goals.items },
    ghost small: { length goals.items ≤ 2 ^ 24 },
}

impl Model for Graph {
    ghost use Rattle.std.specs.Prelude.{◌≡◌, ◌*◌, ◌^◌, ◌≤◌, length};
    ghost use Rattle.test_walks.specs.Graphs.{Listing, AreListed};

    ghost Value = { Listing };

    ghost view = { λ g. record {
      goals = g.goals.items;
      count = g.count;
      kinds = g.kinds.items;
      targets = g.targets.items;
      some = g.some;
      small = g.small;
    } };

    ghost invariant = { λ g.
        (length g.targets.items ≡ g.count * length g.goals.items) ×
        (g.count ≤ 2 ^ 24) ×
        AreListed g.count g.kinds.items g.count g.members.items };
}

impl Graph {
    /// Returns the abstraction with these abstract goals, classes of operators and targets.
    pub fn new(
        alloc: Global,
        goals: Vec<bool>,
        count: usize,
        kinds: Vec<u32>,
        targets: Vec<u32>,
    ) -> Result<Graph, AllocError>
        requires some { 0 < length goals.items }
        requires small { length goals.items ≤ 2 ^ 24 }
        requires full { length targets.items ≡ count * length goals.items }
        requires few { count ≤ 2 ^ 24 }
        requires operators { length kinds.items < 2 ^ 32 }
        ensures { IfOk result (λ graph. (graph.goals ≡ goals.items) × (graph.count ≡ count) ×
            (graph.kinds ≡ kinds.items) × (graph.targets ≡ targets.items)) }
    {
        let members = members_of_all(alloc, &kinds, count)?;
        Ok(Graph {
            goals,
            count,
            kinds,
            targets,
            members,
        })
    }

    /// Returns the number of operators.
    pub fn operator_count(&self) -> usize
        ensures { result ≡ length self.now.kinds }
    {
        self.kinds.len()
    }

    /// Returns the target of a class at an abstract state.
    pub fn target(&self, class: usize, state: usize) -> Option<usize>
        requires class { class < self.now.count }
        requires state { state < length self.now.goals }
        ensures { result ≡ target_of (length self.now.goals) self.now.targets class state }
    {
        let target = self.targets[class * self.goals.len() + state] as usize;
        if target < self.goals.len() {
            Some(target)
        } else {
            None
        }
    }

    /// Returns whether the class has a transition from the source to the abstract state.
    fn leads_to(&self, class: usize, source: usize, abstract_state: usize) -> bool
        requires class { class < self.now.count }
        requires source { source < length self.now.goals }
        ensures { IsTrue result ↔ (target_of (length self.now.goals) self.now.targets class source ≡ Some abstract_state) }
    {
        match self.target(class, source) {
            Some(target) => target == abstract_state,
            None => false,
        }
    }

    /// Appends the transitions of a class into an abstract state. On failure the content is not specified.
    fn add_entering(
        &self,
        class: usize,
        abstract_state: usize,
        transitions: &mut Vec<Transition>,
    ) -> Result<(), AllocError>
        requires { class < self.now.count }
        ensures { OnOk result (HasEntering self.now class (length self.now.goals) abstract_state
            transitions.old.items transitions.new.items) }
    {
        for source in 0..self.goals.len() {
            if self.leads_to(class, source, abstract_state) {
                transitions.push(Transition {
                    class: class as u32,
                    source: source as u32,
                })?;
            }
        }
        Ok(())
    }
}

impl Abstraction for Graph {
    ghost use Rattle.test_walks.specs.Graphs.{graph_task, abstraction_by, graph_abstracts};

    ghost task = { λ g. graph_task (length g.kinds) };

    ghost abstraction = { abstraction_by };

    ghost abstracts = { λ g. graph_abstracts g.goals g.count g.kinds g.targets g.some };

    ghost is_small = { λ g. g.small };

    fn size(&self) -> usize {
        self.goals.len()
    }

    fn index(&self, _: &[u32]) -> usize {
        0
    }

    fn transition(&self, abstract_state: usize, operator: usize) -> Option<usize> {
        let kind = *self.kinds.get(operator)? as usize;
        if kind < self.count {
            self.target(kind, abstract_state)
        } else {
            Some(abstract_state)
        }
    }

    fn touches(&self, operator: usize) -> bool {
        match self.kinds.get(operator) {
            Some(kind) => (*kind as usize) < self.count,
            None => false,
        }
    }

    fn is_goal(&self, abstract_state: usize) -> bool {
        self.goals[abstract_state]
    }
}

impl BackwardTransitions for Graph {
    ghost use Rattle.test_walks.specs.Graphs.{abstraction_by, classes_by, graph_grouped};

    ghost abstraction = { abstraction_by };

    ghost classes = { classes_by };

    ghost grouped = { λ g. graph_grouped g.goals g.count g.kinds g.targets };

    fn class_count(&self) -> usize {
        self.count
    }

    fn operators_of(&self, class: usize) -> &[u32] {
        &self.members[class].operators
    }

    fn stored(&self, _: usize) -> Option<&[Transition]> {
        None
    }

    fn entering(
        &self,
        abstract_state: usize,
        _: &mut Vec<u32>,
        transitions: &mut Vec<Transition>,
    ) -> Result<(), AllocError> {
        transitions.clear();
        for class in 0..self.count {
            let operators = self.operators_of(class);
            if !operators.is_empty() {
                self.add_entering(class, abstract_state, transitions)?;
            }
        }
        Ok(())
    }
}

impl BackwardAbstraction for Graph {
    type Transitions = Graph;

    fn transitions(&self) -> &Graph {
        self
    }
}
