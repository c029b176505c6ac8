//! Operators that can change a state.

ghost use Rattle.std.specs.Prelude.{◌≡◌, IfOk};
ghost use Rattle.std.specs.List.{list_all};
ghost use Rattle.checker_tables.specs.Changes as spec;

use fdr::{Fact, FdrTask, Operator};
use std::alloc::{AllocError, Global};

/// The greatest number of effects that are looked up among the conditions. An operator with more counts as one that can
/// change a state, so that the time is linear in the number of facts.
const MOST_EFFECTS: usize = 64;

/// Returns whether the fact is one of these.
fn is_among(facts: &[Fact], fact: Fact) -> bool
    ensures { result ≡ spec.is_among facts.now fact }
{
    facts.iter().any(|other| fact.variable == other.variable && fact.value == other.value)
}

/// Returns whether each of the facts is one of the others.
fn are_among(others: &[Fact], facts: &[Fact]) -> bool
    ensures { result ≡ list_all (spec.is_among others.now) facts.now }
{
    facts.iter().all(|fact| is_among(others, *fact))
}

/// Returns whether the operator has at most `MOST_EFFECTS` effects, each of which is one of its conditions.
fn leaves_states(operator: &Operator) -> bool
    ensures { result ≡ spec.leaves_states operator.now }
{
    operator.effect.len() <= MOST_EFFECTS && are_among(&operator.precondition, &operator.effect)
}

/// Returns for each operator of the task whether it can change a state. That is so unless it has at most `MOST_EFFECTS`
/// effects, each of which is one of its conditions: then a state to which it applies is its own successor, so that the
/// clauses C4 and C8 hold for the operator in every certificate. In a reduced task the operators of what was left out
/// cannot change a state. Takes time linear in the size of the task.
pub fn changes_of(alloc: Global, task: &FdrTask) -> Result<Vec<bool>, AllocError>
    ensures { IfOk result (λ changes. changes.items ≡ spec.changes_of task.now) }
{
    let mut changes = Vec::with_capacity(alloc, task.operator_count())?;
    for operator in task.operators() {
        changes.push(!leaves_states(operator))?;
    }
    Ok(changes)
}
