//! Abstractions whose transitions can be followed backwards (regression).

use abstraction::Abstraction;
use std::alloc::AllocError;

/// A transition into an abstract state, which each operator of one class has.
#[derive(Clone, Copy)]
pub struct Transition {
    /// The class of the operators, by its number.
    pub class: u32,
    /// The abstract state from which it starts.
    pub source: u32,
}

/// The transitions of an abstraction, listed by the abstract state that they enter. Operators that have the same
/// transitions can share a class, so that a transition of all of them is listed once. The classes are the numbers below
/// `class_count`.
pub trait BackwardTransitions {
    ghost use Rattle.std.specs.Prelude.{◌≡◌, ℕ, ◌<◌, ◌↔◌, Some, IfSome, OnOk, Contains};
    ghost use Rattle.std.specs.List.Sorted.{IsStrictlyIncreasing};
    ghost use Rattle.abstraction.specs.Abstractions as abstractions;
    ghost use Rattle.abstraction_groups.specs.Entrances as spec;

    /// The abstraction.
    ghost abstraction: { Self → abstractions.Abstraction };

    /// The classes of its operators.
    ghost classes: { Self → spec.Classes };

    /// Returns the number of classes.
    fn class_count(&self) -> usize
        ensures { result ≡ (classes self.now).count };

    /// Returns the operators of a class, by strictly increasing numbers.
    fn operators_of(&self, class: usize) -> &[u32]
        requires { class < (classes self.now).count }
        ensures increasing { IsStrictlyIncreasing result.now }
        ensures operators { (o : ℕ) → Contains result.now o ↔ ((classes self.now).class o ≡ Some class) };

    /// Returns the transitions into this abstract state of all operators that have a class, if they are stored as a
    /// list. The order is not specified, and a transition may occur more than once.
    fn stored(&self, abstract_state: usize) -> Option<&[Transition]>
        requires { abstract_state < (abstraction self.now).size }
        ensures { IfSome result (λ transitions.
            spec.AreEntering (abstraction self.now) (classes self.now) abstract_state transitions.now) };

    /// Replaces the content of `transitions` by the transitions into this abstract state of all operators that have a
    /// class. The order is not specified, and a transition may occur more than once. `digits` is a buffer. On failure
    /// the content of `transitions` is not specified.
    fn entering(
        &self,
        abstract_state: usize,
        digits: &mut Vec<u32>,
        transitions: &mut Vec<Transition>,
    ) -> Result<(), AllocError>
        requires { abstract_state < (abstraction self.now).size }
        ensures { OnOk result
            (spec.AreEntering (abstraction self.now) (classes self.now) abstract_state transitions.new.items) };

    /// Operators of one class have the same transitions, and those without a class have transitions only from an
    /// abstract state to itself.
    ghost grouped: { (t : Self) → spec.AreClasses (abstraction t) (classes t) };
}

/// An abstraction whose transitions can be followed backwards.
pub trait BackwardAbstraction: Abstraction {
    ghost use Rattle.std.specs.Prelude.{◌≡◌};

    /// The type of its transitions.
    type Transitions: BackwardTransitions;

    /// Returns the transitions of the abstraction.
    fn transitions(&self) -> &Self::Transitions
        ensures { Self.Transitions.abstraction result.now ≡ Self.abstraction self.now };
}
