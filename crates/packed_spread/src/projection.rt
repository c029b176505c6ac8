//! The variables by which the spread of a projection distinguishes states.

ghost use Rattle.std.specs.List.{range_with_len};
ghost use Rattle.std.specs.Prelude.{◌≡◌, ◌<◌, length, All, IfOk, OnOk, IfSome};
ghost use Rattle.fdr.specs.Tasks.{IsOperator, ranges};
ghost use Rattle.packed_spread.specs.Projections as spec;

use fdr::{Fact, FdrTask, Operator};
use std::alloc::{AllocError, Global};

/// The number of states over which the frequency of an operator is counted.
const STATES: u64 = 1 << 32;

/// The number of states that the projection distinguishes in large tasks: enough for each of 64 owners to have about
/// the same share of the states that are reached.
const CLASSES: u64 = 1 << 20;

/// In a small task the projection has to distinguish one `PART`-th of all states.
const PART: u64 = 4;

/// The greatest number of variables of the projection, each of which has two values or more.
const MOST_VARIABLES: usize = 20;

/// Returns in how many of 2^32 states an operator applies if each variable has each of its values equally often,
/// independently of the others. Each quotient is rounded down.
fn frequency(task: &FdrTask, operator: &Operator) -> u64
    requires { IsOperator (ranges task.now) operator.now }
    ensures { result ≡ spec.frequency (ranges task.now) operator.now }
{
    let mut states = STATES;
    for fact in &operator.precondition {
        states /= task.range(fact.variable) as u64;
    }
    states
}

/// Adds `states` to the number of each variable that one of the facts is on. Sums are capped at 2^64 - 1.
fn add_changes(facts: &[Fact], states: u64, changes: &mut [u64])
    requires { All (λ f. f.variable < length changes.old) facts.now }
    ensures { changes.new ≡ spec.with_changes states changes.old facts.now }
{
    for fact in facts {
        changes[fact.variable] = changes[fact.variable].saturating_add(states);
    }
}

/// Returns for each variable the sum of the frequencies of the operators that change it.
fn changes_of(alloc: Global, task: &FdrTask) -> Result<Vec<u64>, AllocError>
    ensures changes { IfOk result (λ changes. changes.items ≡ spec.changes task.now) }
    ensures long { IfOk result (λ changes. length changes.items ≡ length task.now.value_names) }
{
    let mut changes = vec![in alloc; 0; task.variable_count()]?;
    for operator in task.operators() {
        add_changes(&operator.effect, frequency(task, operator), &mut changes);
    }
    Ok(changes)
}

/// Returns whether a variable changes less often than the best one so far.
fn is_better(changes: &[u64], variable: usize, best: Option<usize>) -> bool
    requires variable { variable < length changes.now }
    requires best { IfSome best (λ b. b < length changes.now) }
    ensures { result ≡ spec.is_better changes.now variable best }
{
    match best {
        Some(best) => changes[variable] < changes[best],
        None => true,
    }
}

/// Returns the better one of the best variable so far and `variable`, which is no candidate if it has been chosen or
/// has only one value.
fn better_of(
    task: &FdrTask,
    changes: &[u64],
    chosen: &[usize],
    best: Option<usize>,
    variable: usize,
) -> Option<usize>
    requires long { length changes.now ≡ length task.now.value_names }
    requires variable { variable < length task.now.value_names }
    requires best { IfSome best (λ b. b < length task.now.value_names) }
    ensures better { result ≡ spec.better_of (ranges task.now) changes.now chosen.now best variable }
    ensures below { IfSome result (λ b. b < length task.now.value_names) }
{
    if !chosen.contains(&variable)
        && task.range(variable) > 1
        && is_better(changes, variable, best)
    {
        return Some(variable);
    }
    best
}

/// Returns the first of those variables that change least often, among the variables with several values that have not
/// been chosen.
fn next_variable(task: &FdrTask, changes: &[u64], chosen: &[usize]) -> Option<usize>
    requires { length changes.now ≡ length task.now.value_names }
    ensures next { result ≡ spec.next_variable (ranges task.now) changes.now chosen.now }
    ensures below { IfSome result (λ b. b < length task.now.value_names) }
{
    let mut best = None;
    for variable in 0..task.variable_count() {
        best = better_of(task, changes, chosen, best, variable);
    }
    best
}

/// Returns the number of states that the values of the chosen variables distinguish, capped at 2^64 - 1.
fn class_count(task: &FdrTask, chosen: &[usize]) -> u64
    requires { All (λ v. v < length task.now.value_names) chosen.now }
    ensures { result ≡ spec.classes (ranges task.now) chosen.now }
{
    let mut classes = 1u64;
    for variable in chosen {
        classes = classes.saturating_mul(task.range(*variable) as u64);
    }
    classes
}

/// Returns the number of states that the values of all variables distinguish, capped at 2^64 - 1.
fn state_count(task: &FdrTask) -> u64
    ensures { result ≡ spec.classes (ranges task.now) (range_with_len 0 (length task.now.value_names)) }
{
    let mut classes = 1u64;
    for variable in 0..task.variable_count() {
        classes = classes.saturating_mul(task.range(variable) as u64);
    }
    classes
}

/// Chooses one more variable if the chosen ones distinguish fewer states than `wanted`.
fn choose_next(
    task: &FdrTask,
    changes: &[u64],
    wanted: u64,
    chosen: &mut Vec<usize>,
) -> Result<(), AllocError>
    requires wanted { wanted ≡ spec.wanted (ranges task.now) }
    requires long { length changes.now ≡ length task.now.value_names }
    requires chosen { All (λ v. v < length task.now.value_names) chosen.old.items }
    ensures chosen { OnOk result (chosen.new.items ≡ spec.one_more (ranges task.now) changes.now chosen.old.items) }
    ensures below { OnOk result (All (λ v. v < length task.now.value_names) chosen.new.items) }
{
    if class_count(task, chosen) >= wanted {
        return Ok(());
    }
    if let Some(variable) = next_variable(task, changes, chosen) {
        chosen.push(variable)?;
    }
    Ok(())
}

/// Returns the variables of the projection of a task, in time proportional to its operators and variables.
pub(crate) fn projection_of(alloc: Global, task: &FdrTask) -> Result<Vec<usize>, AllocError>
    ensures { IfOk result (λ projection. projection.items ≡ spec.projection task.now) }
{
    let changes = changes_of(alloc, task)?;
    let wanted = CLASSES.min(state_count(task) / PART);
    let mut chosen = Vec::new(alloc);
    for _ in 0..MOST_VARIABLES {
        choose_next(task, &changes, wanted, &mut chosen)?;
    }
    Ok(chosen)
}
