//! The types that lie on a cycle of supertypes.

ghost use Rattle.std.specs.Prelude.{◌≡◌, ◌==◌, ◌<◌, ◌≤◌, ◌↔◌, IsTrue, IfOk, ℕ, List, map, length, slice_index};
ghost use Rattle.std.specs.List.{All, list_any, range_with_len};
ghost use Rattle.pddl_domain.specs.Cycles.{ancestor, lies_on_cycle, LiesOnCycle};

use std::alloc::{AllocError, Global};

/// Returns for each type the ancestor of its ancestor, which is twice as many steps above it.
fn doubled(alloc: Global, ancestors: &[usize]) -> Result<Vec<usize>, AllocError>
    requires { All (λ a. a < length ancestors.now) ancestors.now }
    ensures { IfOk result (λ twice. twice.items ≡ map (slice_index ancestors.now) ancestors.now) }
{
    let mut twice = Vec::with_capacity(alloc, ancestors.len())?;
    for ancestor in ancestors {
        twice.push(ancestors[*ancestor])?;
    }
    Ok(twice)
}

/// Returns for each type its ancestor after a number of steps that is at least the number of types.
fn far_ancestors(alloc: Global, supertypes: &[usize]) -> Result<Vec<usize>, AllocError>
    requires { All (λ s. s < length supertypes.now) supertypes.now }
    ensures { IfOk result (λ far. (steps : ℕ) × (length supertypes.now ≤ steps)
        × (far.items ≡ map (ancestor supertypes.now steps) (range_with_len 0 (length supertypes.now)))) }
{
    let mut ancestors = Vec::from_slice(alloc, supertypes)?;
    let mut steps = 1;
    while steps < supertypes.len() {
        ancestors = doubled(alloc, &ancestors)?;
        steps *= 2;
    }
    Ok(ancestors)
}

/// Returns for each of `count` types whether it is among `types`.
fn marked(alloc: Global, types: &[usize], count: usize) -> Result<Vec<bool>, AllocError>
    requires { All (λ t. t < count) types.now }
    ensures { IfOk result (λ marks. marks.items ≡ map (λ n. list_any (λ t. t == n) types.now) (range_with_len 0 count)) }
{
    let mut marks = vec![in alloc; false; count]?;
    for place in types {
        marks[*place] = true;
    }
    Ok(marks)
}

/// Returns for each type whether it lies on a cycle of supertypes; each type has one supertype.
///
/// A walk from supertype to supertype reaches a cycle and stays on it. So the types on cycles are those that are
/// reached, from any type, after at least as many steps as there are types.
pub fn types_on_cycles(alloc: Global, supertypes: &[usize]) -> Result<Vec<bool>, AllocError>
    requires { All (λ s. s < length supertypes.now) supertypes.now }
    ensures { IfOk result (λ marks. marks.items ≡ map (lies_on_cycle supertypes.now) (range_with_len 0 (length supertypes.now))) }
{
    let far = far_ancestors(alloc, supertypes)?;
    marked(alloc, &far, supertypes.len())
}

/// Proves that the test for a cycle, which takes at most as many steps as there are types, holds exactly for the types
/// on cycles.
pub fn cycles_are_found()
    ensures { (supertypes : List ℕ) (n : ℕ) → All (λ s. s < length supertypes) supertypes → n < length supertypes
        → (IsTrue (lies_on_cycle supertypes n) ↔ LiesOnCycle supertypes n) }
{}
