//! The changes of one operator.

ghost use Rattle.std.specs.Prelude.{◌≡◌, ℕ, [], ◌<◌, All, length, slice_index, slice_index_or, IfSome, IfNone};
ghost use Rattle.std.specs.List.Sorted.{IsStrictlyIncreasing};
ghost use Rattle.fdr.specs.Tasks.{ranges, IsInRange, IsOperator};
ghost use Rattle.abstraction_groups.specs.declared.change.Change.{Change};
ghost use Rattle.abstraction_groups.specs.Changes.{plain_all};
ghost use Rattle.abstraction_groups.specs.Factors.{changes_by, changes_of};

use crate::change::Change;
use crate::factored::FactoredAbstraction;
use abstraction::Digit;
use fdr::{Fact, Operator};

/// Returns the index of a variable in strictly increasing variables, if it is there.
fn place_of(variables: &[usize], variable: usize) -> Option<usize>
    requires { IsStrictlyIncreasing variables.now }
    ensures found { IfSome result (λ k. (k < length variables.now) × (slice_index variables.now k ≡ variable)) }
    ensures absent { IfNone result (All (λ v. v ≡ variable → ⊥) variables.now) }
{
    match variables.binary_search(&variable) {
        Ok(place) => Some(place),
        Err(_) => None,
    }
}

/// Replaces each change by `Kept`.
fn clear(changes: &mut [Change])
    ensures { (k : ℕ) (d : Change) → k < length changes.old → slice_index_or changes.new k d ≡ Change.Kept }
{
    for place in 0..changes.len() {
        changes[place] = Change::Kept;
    }
}

/// Adds the conditions to the changes, which have none.
fn add_conditions<A: FactoredAbstraction>(abstraction: &A, facts: &[Fact], changes: &mut [Change])
    requires facts { All (IsInRange (ranges (A.task abstraction.now))) facts.now }
    requires changes { changes.old ≡ changes_by (A.factors abstraction.now) [] [] }
    ensures { changes.new ≡ changes_by (A.factors abstraction.now) facts.now [] }
{
    let variables = abstraction.variables();
    for fact in facts {
        if let Some(place) = place_of(variables, fact.variable) {
            let class = abstraction.class_of(place, fact.value);
            changes[place] = changes[place].with_condition(class);
        }
    }
}

/// Adds the effects to the changes, which have these conditions.
fn add_effects<A: FactoredAbstraction>(
    abstraction: &A,
    conditions: &[Fact],
    effects: &[Fact],
    changes: &mut [Change],
)
    requires facts { All (IsInRange (ranges (A.task abstraction.now))) effects.now }
    requires changes { changes.old ≡ changes_by (A.factors abstraction.now) conditions.now [] }
    ensures { changes.new ≡ changes_by (A.factors abstraction.now) conditions.now effects.now }
{
    let _ = conditions;
    let variables = abstraction.variables();
    for fact in effects {
        if let Some(place) = place_of(variables, fact.variable) {
            let class = abstraction.class_of(place, fact.value);
            changes[place] = changes[place].with_effect(class);
        }
    }
}

/// Makes each change plain.
fn make_plain(digits: &[Digit], changes: &mut [Change])
    requires { length digits.now ≡ length changes.old }
    ensures { changes.new ≡ plain_all digits.now changes.old }
{
    for place in 0..changes.len() {
        changes[place] = changes[place].plain(digits[place].range);
    }
}

/// Replaces the changes by those that the operator makes at the digits of the abstraction.
pub(crate) fn read_changes<A: FactoredAbstraction>(
    abstraction: &A,
    operator: &Operator,
    changes: &mut [Change],
)
    requires operator { IsOperator (ranges (A.task abstraction.now)) operator.now }
    requires room { length changes.old ≡ length (A.factors abstraction.now).variables }
    ensures { changes.new ≡ changes_of (A.factors abstraction.now) operator.now }
{
    let conditions: &[Fact] = &operator.precondition;
    let effects: &[Fact] = &operator.effect;
    clear(changes);
    add_conditions(abstraction, conditions, changes);
    add_effects(abstraction, conditions, effects, changes);
    make_plain(abstraction.digits(), changes);
}
