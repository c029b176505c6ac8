//! Abstractions whose transitions are listed.

ghost use Rattle.std.specs.Prelude.{◌≡◌, ◌<◌, ◌^◌, length, IfOk};

use crate::entries::{affecting_operators, entries_of};
use abstraction::Abstraction;
use abstraction_groups::{BackwardAbstraction, BackwardTransitions, Transition};
use keyed_lists::Lists;
use std::alloc::{AllocError, Global};
use std::marker::Model;

/// An abstraction with all of its transitions listed by the abstract state that they enter, so that they can be
/// followed backwards. Each operator that affects the abstraction is a class of its own. For a `FactoredAbstraction`,
/// `abstraction_groups::Listed` is faster and has fewer classes. In contracts its value is the abstraction.
#[derive(Drop)]
pub struct Listed<'a, A: Abstraction> {
    abstraction: &'a A,
    /// For each class its operator.
    operators: Vec<u32>,
    lists: Lists<Transition>,
}

impl<'a, A: Abstraction> Model for Listed<'a, A> {
    ghost use Rattle.std.specs.Prelude.{◌≡◌};
    ghost use Rattle.abstraction_groups.specs.Lists.{AreLists};
    ghost use Rattle.abstraction_listed.specs.Affecting.{affecting, single_classes};

    ghost Value = { A };

    ghost view = { λ l. l.abstraction.now };

    ghost invariant = { λ l.
        (l.operators.items ≡ affecting (A.task l.abstraction.now) (A.abstraction l.abstraction.now)) ×
        AreLists (A.abstraction l.abstraction.now)
        (single_classes (A.task l.abstraction.now) (A.abstraction l.abstraction.now)) l.lists };
}

impl<'a, A: Abstraction> Listed<'a, A> {
    /// Lists the transitions of the operators that affect the abstraction. `operators` is the number of operators of its
    /// task.
    ///
    /// Each of these operators is tried once at each abstract state. Memory is linear in the number of their transitions
    /// and of abstract states.
    pub fn new(
        alloc: Global,
        abstraction: &'a A,
        operators: usize,
    ) -> Result<Listed<'a, A>, AllocError>
        requires operators { operators ≡ length (A.task abstraction.now).operators }
        requires few { operators < 2 ^ 32 }
        ensures { IfOk result (λ l. l ≡ abstraction.now) }
    {
        let operators = affecting_operators(alloc, abstraction, operators)?;
        let entries = entries_of(alloc, abstraction, &operators)?;
        let lists = Lists::new(alloc, abstraction.size(), &entries)?;
        Ok(Listed {
            abstraction,
            operators,
            lists,
        })
    }
}

impl<'a, A: Abstraction> Abstraction for Listed<'a, A> {
    ghost task = { λ l. A.task l };

    ghost abstraction = { λ l. A.abstraction l };

    ghost abstracts = { λ l. A.abstracts l };

    ghost is_small = { λ l. A.is_small l };

    fn size(&self) -> usize {
        self.abstraction.size()
    }

    fn index(&self, state: &[u32]) -> usize {
        self.abstraction.index(state)
    }

    fn transition(&self, abstract_state: usize, operator: usize) -> Option<usize> {
        self.abstraction.transition(abstract_state, operator)
    }

    fn touches(&self, operator: usize) -> bool {
        self.abstraction.touches(operator)
    }

    fn is_goal(&self, abstract_state: usize) -> bool {
        self.abstraction.is_goal(abstract_state)
    }
}

impl<'a, A: Abstraction> BackwardTransitions for Listed<'a, A> {
    ghost use Rattle.abstraction_listed.specs.Affecting.{single_classes};
    ghost use Rattle.abstraction_listed.specs.AffectingLaws.{single_grouped};

    ghost abstraction = { λ l. A.abstraction l };

    ghost classes = { λ l. single_classes (A.task l) (A.abstraction l) };

    ghost grouped = { λ l. single_grouped (A.task l) (A.abstraction l) (A.abstracts l) };

    fn class_count(&self) -> usize {
        self.operators.len()
    }

    fn operators_of(&self, class: usize) -> &[u32] {
        &self.operators[class..class + 1]
    }

    fn stored(&self, abstract_state: usize) -> Option<&[Transition]> {
        Some(self.lists.get(abstract_state))
    }

    fn entering(
        &self,
        abstract_state: usize,
        _: &mut Vec<u32>,
        transitions: &mut Vec<Transition>,
    ) -> Result<(), AllocError> {
        transitions.clear();
        transitions.extend_from_slice(self.lists.get(abstract_state))?;
        Ok(())
    }
}

impl<'a, A: Abstraction> BackwardAbstraction for Listed<'a, A> {
    type Transitions = Listed<'a, A>;

    fn transitions(&self) -> &Listed<'a, A> {
        self
    }
}
