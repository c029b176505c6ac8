//! The choice of mappings.

ghost use Rattle.std.specs.Prelude.{◌≡◌, ◌≢◌, ◌≤◌, ◌<◌, ◌==◌, ◌^◌, ℕ, Bool, true, false, length, map, slice_index, slice_index_or, is_some, None, All, IfOk, IfSome, IfNone, OnOk};
ghost use Rattle.std.specs.List.{list_any};
ghost use Rattle.fdr.specs.Tasks.{FiniteDomainTask, ranges};
ghost use Rattle.abstraction_mapping.specs.Mappings.{Mapping as MappingOf};
ghost use Rattle.abstraction_mapping.specs.Views.{mapping_of};
ghost use Rattle.pdb_patterns.specs.Patterns.{IsPattern};
ghost use Rattle.pdb_patterns.specs.Choices.{IsMappingWithin, AreMappings, KeepGoal, keeps};

use crate::domains::goal_row;
use crate::effects::{Effect, effects_of};
use crate::growth::grow;
use abstraction_mapping::Mapping;
use fdr::FdrTask;
use std::alloc::{AllocError, Global};

/// The greatest number of chosen mappings.
pub const MAX_MAPPINGS: usize = 64;

/// Returns for each variable the value that the goal requires, if the goal names the variable.
fn goal_values(alloc: Global, task: &FdrTask) -> Result<Vec<Option<u32>>, AllocError>
    ensures as_many { IfOk result (λ values. length values.items ≡ length task.now.value_names) }
    ensures named { IfOk result (λ values. All (λ f. is_some (slice_index_or values.items f.variable None) ≡ true) task.now.goal) }
{
    let mut values = vec![in alloc; None; task.variable_count()]?;
    for fact in task.goal() {
        values[fact.variable] = Some(fact.value);
    }
    Ok(values)
}

/// Returns whether one of the mappings is the same as this one.
pub fn has_mapping(mappings: &[Mapping], mapping: &Mapping) -> bool
    ensures none { result ≡ false → All (λ m. mapping_of m ≢ mapping_of mapping.now) mappings.now }
    ensures one { result ≡ true → (p : MappingOf → Bool) → p (mapping_of mapping.now) ≡ true → list_any p (map mapping_of mappings.now) ≡ true }
{
    for other in mappings {
        if other.is_same(mapping) {
            return true;
        }
    }
    false
}

/// Appends the mapping, unless it is one of the mappings.
fn push_mapping(mappings: &mut Vec<Mapping>, mapping: Mapping) -> Result<(), AllocError>
    ensures mappings { OnOk result ((task : FiniteDomainTask) (limit : ℕ) → AreMappings task limit (map mapping_of mappings.old.items) →
        IsMappingWithin task limit (mapping_of mapping) → length mappings.old.items < 64 →
        AreMappings task limit (map mapping_of mappings.new.items)) }
    ensures others { OnOk result ((p : MappingOf → Bool) → list_any p (map mapping_of mappings.old.items) ≡ true →
        list_any p (map mapping_of mappings.new.items) ≡ true) }
    ensures listed { OnOk result ((p : MappingOf → Bool) → p (mapping_of mapping) ≡ true → list_any p (map mapping_of mappings.new.items) ≡ true) }
    ensures longer { OnOk result (length mappings.old.items ≤ length mappings.new.items) }
{
    if !has_mapping(mappings, &mapping) {
        mappings.push(mapping)?;
    }
    Ok(())
}

/// Returns the pattern of this variable alone.
fn alone(
    alloc: Global,
    task: &FdrTask,
    variable: usize,
    limit: usize,
) -> Result<Vec<u32>, AllocError>
    requires exists { variable < length task.now.value_names }
    requires within { slice_index (ranges task.now) variable ≤ limit }
    ensures pattern { IfOk result (λ pattern. IsPattern task.now limit pattern.items) }
    ensures kept { IfOk result (λ pattern. list_any (λ v. v == variable) pattern.items ≡ true) }
{
    task.recall(); // there are fewer than 2^32 variables
    let mut pattern = Vec::with_capacity(alloc, 1)?;
    pattern.push(variable as u32)?;
    Ok(pattern)
}

/// Returns the pattern that grows from a variable whose range is within the limit. It contains that variable.
fn pattern_from(
    alloc: Global,
    task: &FdrTask,
    effects: &[Effect],
    first: usize,
    limit: usize,
) -> Result<Vec<u32>, AllocError>
    requires first { first < length task.now.value_names }
    requires some { 1 ≤ limit }
    requires within { slice_index (ranges task.now) first ≤ limit }
    ensures pattern { IfOk result (λ pattern. IsPattern task.now limit pattern.items) }
    ensures kept { IfOk result (λ pattern. list_any (λ v. v == first) pattern.items ≡ true) }
{
    let pattern = grow(alloc, task, effects, first, limit)?;
    if pattern.iter().any(|variable| *variable as usize == first) {
        return Ok(pattern);
    }
    // only for the proof: growth retains the variable that it starts with, but its contract does not say so
    alone(alloc, task, first, limit)
}

/// Returns the mapping that begins with a variable for which the goal requires the value `goal`: a pattern that grows
/// from it if its range is within the limit, otherwise classes of its values, or `None` if the limit is 1.
pub(crate) fn mapping_from(
    alloc: Global,
    task: &FdrTask,
    effects: &[Effect],
    first: usize,
    goal: usize,
    limit: usize,
) -> Result<Option<Mapping>, AllocError>
    requires first { first < length task.now.value_names }
    requires some { 1 ≤ limit }
    requires small { limit ≤ 2 ^ 24 }
    ensures within { IfOk result (λ found. IfSome found (λ mapping. IsMappingWithin task.now limit (mapping_of mapping))) }
    ensures kept { IfOk result (λ found. IfSome found (λ mapping. keeps first (mapping_of mapping) ≡ true)) }
    ensures none { IfOk result (λ found. IfNone found ((limit < 2) × (limit < slice_index (ranges task.now) first))) }
{
    let range = task.range(first);
    if range <= limit {
        let pattern = pattern_from(alloc, task, effects, first, limit)?;
        return Ok(Some(Mapping::Pattern(pattern)));
    }
    if limit < 2 {
        return Ok(None);
    }
    let row = goal_row(alloc, first, range, goal, limit)?;
    let mut rows = Vec::with_capacity(alloc, 1)?;
    rows.push(row)?;
    Ok(Some(Mapping::Domains(rows)))
}

/// Chooses the mappings whose tables guide the search, each with at most `limit` abstract states. The limit must be
/// from 1 to 2^24. There are at most 64 mappings, each has at least one variable, and no two are the same.
///
/// For each variable of the goal, in order, whose range is within the limit, a pattern starts with it and grows along
/// the causal graph (Helmert 2006): the least variable is added that occurs in a precondition of an operator with an
/// effect on the pattern and leaves the pattern within the limit, until there is none. For a variable whose range
/// exceeds the limit there is a domain abstraction of that variable alone, if the limit is at least 2: the goal's value
/// and the first `limit-2` other values have classes of their own, and all the rest share one. The contract specifies
/// that each variable of the goal is in a mapping, if the limit is at least 2 or the variable has one value, unless
/// there are 64 mappings; it does not specify which other variables a pattern has.
pub fn choose_mappings(
    alloc: Global,
    task: &FdrTask,
    limit: usize,
) -> Result<Vec<Mapping>, AllocError>
    requires some { 1 ≤ limit }
    requires small { limit ≤ 2 ^ 24 }
    ensures mappings { IfOk result (λ mappings. AreMappings task.now limit (map mapping_of mappings.items)) }
    ensures goal { IfOk result (λ mappings. length mappings.items < 64 → KeepGoal task.now limit (map mapping_of mappings.items)) }
{
    let effects = effects_of(alloc, task)?;
    let goals = goal_values(alloc, task)?;
    let mut mappings = Vec::new(alloc);
    for first in 0..task.variable_count() {
        let Some(goal) = goals[first] else {
            continue;
        };
        if mappings.len() >= MAX_MAPPINGS {
            continue; // no more are chosen
        }
        if let Some(mapping) = mapping_from(alloc, task, &effects, first, goal as usize, limit)? {
            push_mapping(&mut mappings, mapping)?;
        }
    }
    Ok(mappings)
}
