//! The growth of one pattern.

ghost use Rattle.std.specs.Prelude.{◌≡◌, ◌<◌, ◌≤◌, ◌*◌, length, slice_index, IfOk, IfSome};
ghost use Rattle.fdr.specs.Tasks.{ranges};
ghost use Rattle.pdb_patterns.specs.Patterns.{IsPattern};

use crate::effects::Effect;
use fdr::{FdrTask, Operator};
use std::alloc::{AllocError, Global};

/// The status of a variable while a pattern grows.
#[derive(Clone, Copy, PartialEq, Eq)]
enum Standing {
    /// No operator with an effect on the pattern has a precondition on it.
    Unnamed,
    /// An operator with an effect on the pattern has a precondition on it, and it has not been decided whether it fits.
    Named,
    /// It does not fit. It never will, since a pattern only grows.
    LeftOut,
    /// It is in the pattern.
    Taken,
}

/// Marks the variables of the operator's precondition as named, and lowers `least` to the least of them that was
/// unnamed.
fn name_conditions(standings: &mut [Standing], operator: &Operator, least: &mut usize) {
    for fact in &operator.precondition {
        if standings.get(fact.variable) == Some(&Standing::Unnamed) {
            standings[fact.variable] = Standing::Named;
            *least = fact.variable.min(*least);
        }
    }
}

/// Marks the variables in the preconditions of all operators with an effect on the variable. Returns the least of them
/// that was unnamed, or the variable itself if that is less.
fn name_causes(
    task: &FdrTask,
    effects: &[Effect],
    variable: usize,
    standings: &mut [Standing],
) -> usize {
    let mut least = variable;
    let first = effects.partition_point(|effect| effect.variable < variable);
    for effect in &effects[first..] {
        if effect.variable != variable {
            break;
        }
        if let Some(operator) = task.operators().get(effect.operator) {
            name_conditions(standings, operator, &mut least);
        }
    }
    least
}

/// Returns the first named variable from `from` on.
fn next_named(standings: &[Standing], from: usize) -> Option<usize>
    ensures { IfSome result (λ v. v < length standings.now) }
{
    for place in from..standings.len() {
        if standings[place] == Standing::Named {
            return Some(place);
        }
    }
    None
}

/// Returns the number of abstract states with one more variable, if it is within the limit.
fn larger_size(task: &FdrTask, variable: usize, size: usize, limit: usize) -> Option<usize>
    requires { variable < length task.now.value_names }
    ensures { IfSome result (λ larger. (larger ≡ slice_index (ranges task.now) variable * size) × (larger ≤ limit)) }
{
    match task.range(variable).checked_mul(size) {
        Some(larger) if larger <= limit => Some(larger),
        _ => None,
    }
}

/// Returns the variables that were taken, in order, as long as they have at most `limit` abstract states.
#[tactic(auto, using(crate::proofs::Longer::pattern_longer, crate::proofs::Longer::below_longer, crate::proofs::Longer::size_longer))]
fn taken(
    alloc: Global,
    task: &FdrTask,
    standings: &[Standing],
    limit: usize,
) -> Result<Vec<u32>, AllocError>
    requires { 1 ≤ limit }
    ensures { IfOk result (λ pattern. IsPattern task.now limit pattern.items) }
{
    task.recall(); // there are fewer than 2^32 variables
    let mut pattern = Vec::new(alloc);
    let mut size = 1;
    for variable in 0..task.variable_count() {
        if standings.get(variable) != Some(&Standing::Taken) {
            continue;
        }
        if let Some(larger) = larger_size(task, variable, size, limit) {
            pattern.push(variable as u32)?;
            size = larger;
        }
    }
    Ok(pattern)
}

/// Returns the pattern that starts with a variable whose range is within the limit. The least variable is added that
/// occurs in a precondition of an operator with an effect on the pattern and keeps the number of abstract states within
/// the limit, until there is none.
pub(crate) fn grow(
    alloc: Global,
    task: &FdrTask,
    effects: &[Effect],
    first: usize,
    limit: usize,
) -> Result<Vec<u32>, AllocError>
    requires first { first < length task.now.value_names }
    requires limit { 1 ≤ limit }
    ensures { IfOk result (λ pattern. IsPattern task.now limit pattern.items) }
{
    let mut standings = vec![in alloc; Standing::Unnamed; task.variable_count()]?;
    standings[first] = Standing::Named;
    let mut size: usize = 1;
    let mut from = first;
    for _ in 0..task.variable_count() {
        let Some(variable) = next_named(&standings, from) else {
            break;
        };
        match larger_size(task, variable, size, limit) {
            Some(larger) => {
                standings[variable] = Standing::Taken;
                size = larger;
                from = name_causes(task, effects, variable, &mut standings);
            }
            None => {
                standings[variable] = Standing::LeftOut;
                from = variable;
            }
        }
    }
    taken(alloc, task, &standings, limit)
}
