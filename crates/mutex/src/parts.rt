//! The parts of candidates: fluent predicates with one argument bound to the parameter, or with no bound argument.

ghost use Rattle.std.specs.Prelude.{◌≡◌, ℕ, ◌++◌, ◌<◌, ◌==◌, ◌||◌, true, false, length, slice_index_or, IfOk, OnOk};
ghost use Rattle.std.specs.List.{list_any};
ghost use Rattle.mutex.specs.Candidates.{bound_object, is_fluent, bound_parts_of, free_parts_of, fluent_parts};

use pddl_task::{GroundAtom, LiftedEffect, Task};
use std::alloc::{AllocError, Global};

/// A part of a candidate: a predicate, of which one argument may be bound to the candidate's parameter.
#[derive(Debug, Clone, Copy)]
pub struct Part {
    /// The number of the predicate.
    pub predicate: usize,
    /// The position of the argument that is bound, counted from 0, or `None` if no argument is bound.
    pub position: Option<usize>,
}

impl Part {
    /// Returns the object that the part binds to the parameter in the atom, or 0 if no argument is bound.
    pub(crate) fn object(self, atom: &GroundAtom) -> usize
        ensures { result ≡ bound_object self atom.now }
    {
        match self.position {
            Some(position) => atom.objects.get(position).copied().unwrap_or(0),
            None => 0,
        }
    }
}

/// Sets the flag of the predicate, if it has one.
fn mark_one(fluent: &mut [bool], predicate: usize)
    ensures { (q : ℕ) → q < length fluent.old →
        slice_index_or fluent.new q false ≡ (slice_index_or fluent.old q false || predicate == q) }
{
    if predicate < fluent.len() {
        fluent[predicate] = true;
    }
}

/// Sets the flags of the predicates of the effects.
fn mark_effects(fluent: &mut [bool], effects: &[LiftedEffect])
    ensures { (q : ℕ) → q < length fluent.old →
        slice_index_or fluent.new q false
        ≡ (slice_index_or fluent.old q false || list_any (λ e. e.atom.predicate == q) effects.now) }
{
    for effect in effects {
        mark_one(fluent, effect.atom.predicate);
    }
}

/// Returns for each predicate whether it occurs in an effect of a schema.
pub(crate) fn fluent_flags(alloc: Global, task: &Task) -> Result<Vec<bool>, AllocError>
    ensures { IfOk result (λ flags. (q : ℕ) → q < length task.now.arities →
        slice_index_or flags.items q false ≡ is_fluent task.now q) }
{
    let mut fluent = vec![in alloc; false; task.arities.len()]?;
    for schema in &task.schemas {
        mark_effects(&mut fluent, &schema.effect);
    }
    Ok(fluent)
}

/// Appends the parts with a parameter of a predicate with this arity.
fn push_bound(parts: &mut Vec<Part>, predicate: usize, arity: usize) -> Result<(), AllocError>
    ensures { OnOk result (parts.new.items ≡ parts.old.items ++ bound_parts_of predicate arity) }
{
    if arity == 1 || arity == 2 {
        parts.push(Part {
            predicate,
            position: Some(0),
        })?;
    }
    if arity == 2 {
        parts.push(Part {
            predicate,
            position: Some(1),
        })?;
    }
    Ok(())
}

/// Appends the part without a parameter of a predicate with this arity, if there is one.
fn push_free(parts: &mut Vec<Part>, predicate: usize, arity: usize) -> Result<(), AllocError>
    ensures { OnOk result (parts.new.items ≡ parts.old.items ++ free_parts_of predicate arity) }
{
    if arity <= 1 {
        parts.push(Part {
            predicate,
            position: None,
        })?;
    }
    Ok(())
}

/// Returns the parts with a parameter, by predicate and then by the position of the argument that is bound.
pub(crate) fn bound_parts(
    alloc: Global,
    task: &Task,
    fluent: &[bool],
) -> Result<Vec<Part>, AllocError>
    requires { (q : ℕ) → q < length task.now.arities → slice_index_or fluent.now q false ≡ is_fluent task.now q }
    ensures { IfOk result (λ parts. parts.items ≡ fluent_parts bound_parts_of task.now) }
{
    let mut parts = Vec::new(alloc);
    for (predicate, arity) in task.arities.iter().enumerate() {
        if is_marked(fluent, predicate) {
            push_bound(&mut parts, predicate, *arity)?;
        }
    }
    Ok(parts)
}

/// Returns the parts without a parameter, by predicate.
pub(crate) fn free_parts(
    alloc: Global,
    task: &Task,
    fluent: &[bool],
) -> Result<Vec<Part>, AllocError>
    requires { (q : ℕ) → q < length task.now.arities → slice_index_or fluent.now q false ≡ is_fluent task.now q }
    ensures { IfOk result (λ parts. parts.items ≡ fluent_parts free_parts_of task.now) }
{
    let mut parts = Vec::new(alloc);
    for (predicate, arity) in task.arities.iter().enumerate() {
        if is_marked(fluent, predicate) {
            push_free(&mut parts, predicate, *arity)?;
        }
    }
    Ok(parts)
}

fn is_marked(flags: &[bool], number: usize) -> bool
    ensures { result ≡ slice_index_or flags.now number false }
{
    flags.get(number).copied().unwrap_or(false)
}
