//! Reads of an abstraction that allow every variable, value and number.

ghost use Rattle.std.specs.Prelude.{◌<◌, ◌≤◌, length, IfSome};

use abstraction::Digit;
use abstraction_groups::FactoredAbstraction;
use fdr::Fact;

/// Returns the position of a variable among those of the abstraction.
pub(crate) fn place_of<A: FactoredAbstraction>(abstraction: &A, variable: usize) -> Option<usize>
    ensures { IfSome result (λ place. place < length (A.factors abstraction.now).variables) }
{
    let variables = abstraction.variables();
    variables.iter().position(|other| *other == variable)
}

/// Returns the class of a value of the variable at a position, and 0 if there is none.
pub(crate) fn class_of<A: FactoredAbstraction>(abstraction: &A, place: usize, value: u32) -> u32 {
    let task = abstraction.task();
    let variables = abstraction.variables();
    if place >= variables.len() {
        return 0;
    }
    let variable = variables[place];
    if variable >= task.variable_count() || value as usize >= task.range(variable) {
        return 0;
    }
    abstraction.class_of(place, value)
}

/// Returns the number of classes of the variable at a position, and 1 if there is none.
pub(crate) fn class_count<A: FactoredAbstraction>(abstraction: &A, place: usize) -> usize
    ensures { 1 ≤ result }
{
    match abstraction.digits().get(place) {
        Some(digit) => digit.range.max(1),
        None => 1,
    }
}

/// A class that an abstract state must have for a variable.
#[derive(Clone, Copy)]
pub(crate) struct Condition {
    /// The position of the variable's class in an abstract state.
    digit: Digit,
    class: usize,
}

impl Condition {
    /// Returns whether an abstract state meets the condition.
    pub(crate) fn is_met(&self, abstract_state: usize) -> bool {
        abstract_state / self.digit.weight.max(1) % self.digit.range.max(1) == self.class
    }
}

/// Returns the condition that a fact is on abstract states, if its variable is one of the abstraction.
pub(crate) fn condition_of<A: FactoredAbstraction>(
    abstraction: &A,
    fact: &Fact,
) -> Option<Condition> {
    let place = place_of(abstraction, fact.variable)?;
    let digit = *abstraction.digits().get(place)?;
    let class = class_of(abstraction, place, fact.value) as usize;
    Some(Condition { digit, class })
}
