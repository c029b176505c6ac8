//! The transitions of a table, tested operator by operator.

ghost use Rattle.std.specs.Prelude.{◌≡◌, ◌<◌, ◌≤◌, [], ◌∷◌, map, length, slice_index, IfOk};
ghost use Rattle.cost.specs.Distances.{Finite};
ghost use Rattle.abstraction_mapping.specs.Views.{abstraction_in};
ghost use Rattle.checker_tables.specs.Changes as spec;
ghost use Rattle.checker_tables.specs.Moves.{AreGoals, IsLeastFailing};
ghost use Rattle.checker_tables.specs.TableFaults.{IsFirstGoal, IsFirstFall, falls_within, touching_from, spender_of};

use crate::falls::FallTest;
use crate::moves::Moves;
use crate::shares::ShareSums;
use abstraction::Abstraction;
use abstraction_mapping::TableAbstraction;
use cert_value::Values;
use cost::Dist;
use std::alloc::{AllocError, Global};

/// An operator whose transitions are tested, by its number, with its share.
#[derive(Clone, Copy)]
pub(crate) struct Spender {
    pub(crate) operator: usize,
    pub(crate) share: u64,
}

/// Returns whether the operator can change a state and affects the abstraction.
fn is_tried<A: Abstraction>(abstraction: &A, changes: &[bool], operator: usize) -> bool
    requires { operator < length changes.now }
    ensures { result ≡ spec.is_tried changes.now (A.abstraction abstraction.now).touches operator }
{
    changes[operator] && abstraction.touches(operator)
}

/// Returns the operators that can change a state and affect the abstraction, with their shares. `changes` says for each
/// operator whether it can change a state.
pub(crate) fn spenders<A: Abstraction>(
    alloc: Global,
    abstraction: &A,
    shares: &ShareSums,
    changes: &[bool],
) -> Result<Vec<Spender>, AllocError>
    requires { length shares.now.sums ≡ length changes.now }
    ensures { IfOk result (λ made. made.items ≡ map (spender_of (slice_index shares.now.sums))
        (touching_from (spec.is_tried changes.now (A.abstraction abstraction.now).touches) 0 (length changes.now))) }
{
    let mut made = Vec::new(alloc);
    for operator in 0..changes.len() {
        if is_tried(abstraction, changes, operator) {
            let share = shares.sum(operator);
            made.push(Spender { operator, share })?;
        }
    }
    Ok(made)
}

/// Returns the abstract goals as the sources of transitions to abstract state 0.
fn goal_moves(alloc: Global, abstraction: &TableAbstraction<'_>) -> Result<Moves, AllocError>
    ensures { IfOk result (AreGoals (abstraction_in abstraction.now)) }
{
    let goals = Moves::new(alloc, abstraction, abstraction.task().goal(), &[])?;
    goals.gathered(alloc)
}

/// Returns the values of a table whose only state is a goal: the value 0.
fn goal_values(alloc: Global) -> Result<Values, AllocError>
    ensures { IfOk result (λ values. values ≡ Finite 0 ∷ []) }
{
    let mut values = Values::new(alloc);
    values.push(Dist::ZERO)?;
    Ok(values)
}

/// Returns the first abstract goal with a value other than 0.
///
/// Each abstract goal is tested as a transition at no cost to a goal state.
pub(crate) fn first_goal(
    alloc: Global,
    abstraction: &TableAbstraction<'_>,
    values: &Values,
) -> Result<Option<usize>, AllocError>
    requires { length values.now ≡ (abstraction_in abstraction.now).size }
    ensures { IfOk result (IsFirstGoal (abstraction_in abstraction.now) values.now) }
{
    let goals = goal_moves(alloc, abstraction)?;
    let zero = goal_values(alloc)?;
    let test = FallTest {
        values,
        nexts: &zero,
        share: 0,
    };
    let least = test.least(&goals.free, goals.source, goals.target, values.len());
    if least < values.len() {
        Ok(Some(least))
    } else {
        Ok(None)
    }
}

/// Returns the first abstract state below `limit` whose value the operator lowers by more than its share, or `limit`.
fn least_fall(
    alloc: Global,
    abstraction: &TableAbstraction<'_>,
    values: &Values,
    spender: Spender,
    limit: usize,
) -> Result<usize, AllocError>
    requires size { length values.now ≡ (abstraction_in abstraction.now).size }
    requires limit { limit ≤ length values.now }
    ensures { IfOk result (IsLeastFailing
        (λ a. falls_within (abstraction_in abstraction.now) values.now a spender.operator spender.share) limit) }
{
    let Some(operator) = abstraction.task().operators().get(spender.operator) else {
        return Ok(limit);
    };
    let moves = Moves::new(alloc, abstraction, &operator.precondition, &operator.effect)?;
    let test = FallTest {
        values,
        nexts: values,
        share: spender.share,
    };
    Ok(test.least(&moves.free, moves.source, moves.target, limit))
}

/// Returns the first abstract state whose value some operator lowers by more than its share, with the first operator
/// that does.
///
/// For each operator the sources of its transitions are enumerated, up to the least abstract state that has failed so
/// far. Their number is at most the product of the numbers of operators and abstract states.
pub(crate) fn first_fall(
    alloc: Global,
    abstraction: &TableAbstraction<'_>,
    values: &Values,
    spenders: &[Spender],
) -> Result<Option<(usize, usize)>, AllocError>
    requires { length values.now ≡ (abstraction_in abstraction.now).size }
    ensures { IfOk result (IsFirstFall (abstraction_in abstraction.now) values.now spenders.now) }
{
    let mut limit = values.len();
    let mut found = None;
    for spender in spenders {
        let state = least_fall(alloc, abstraction, values, *spender, limit)?;
        if state < limit {
            limit = state;
            found = Some((state, spender.operator));
        }
    }
    Ok(found)
}
