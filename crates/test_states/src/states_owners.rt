//! Owners of states, worked out from the published definition of SplitMix64.

ghost use Rattle.fdr.specs.Tasks.{IsState, IsAssignment};

use fdr::{Fact, Operator};
use packed_spread::{ByValue, Spread, Zobrist};
use std::alloc::{AllocError, Global};
use std::process::Abort;
use std::test::Fail;
use testing_tasks::{fact, operator, states, task};

/// Returns the owner of the state among seven.
fn owner_of_seven<S: Spread>(spread: &S, state: &[u32]) -> usize
    requires { IsState (S.ranges spread.now) state.now }
{
    spread.owner_of(state, 7)
}

/// Returns the owner among seven of the state with the facts' values instead of its own.
fn owner_of_seven_after<S: Spread>(spread: &S, state: &[u32], facts: &[Fact]) -> usize
    requires state { IsState (S.ranges spread.now) state.now }
    requires facts { IsAssignment (S.ranges spread.now) facts.now }
{
    spread.owner_after(state, spread.hash_of(state), facts, 7)
}

/// Checks that the state has this owner among seven by its hash, and this one by its first value.
fn owned(
    rt: &impl Abort,
    alloc: Global,
    ranges: &[usize],
    state: &[u32],
    by_hash: usize,
    by_value: usize,
) -> Result<(), Fail> {
    let task = states(alloc, ranges, state)?.ok_or("a task")?;
    let zobrist = Zobrist::new(alloc, &task)?;
    assert_eq!(rt;
        owner_of_seven(&zobrist, task.initial()),
        by_hash,
        "by its hash"
    );
    assert_eq!(rt;
        owner_of_seven(&ByValue::new(&task), task.initial()),
        by_value,
        "by its value"
    );
    Ok(())
}

#[test]
fn owners_of_states(rt: HostRuntime) -> Result<(), Fail> {
    owned(&rt, rt.alloc(), &[2, 3], &[0, 0], 5, 0)?;
    owned(&rt, rt.alloc(), &[2, 3], &[1, 2], 0, 1)?;
    owned(&rt, rt.alloc(), &[1, 2, 3], &[0, 1, 2], 2, 0)?;
    owned(&rt, rt.alloc(), &[3], &[2], 1, 2)?;
    owned(&rt, rt.alloc(), &[], &[], 0, 0)
}

/// Checks that the state in which these facts hold, and otherwise the values of `state`, has this owner among seven by
/// its hash, and this one by its first value.
fn owned_after(
    rt: &impl Abort,
    alloc: Global,
    state: &[u32],
    facts: &[Fact],
    by_hash: usize,
    by_value: usize,
) -> Result<(), Fail> {
    // the facts are the goal, which shows that there is at most one for each variable
    let task = task(alloc, &[2, 3], state, facts, Vec::new(alloc))?.ok_or("a task")?;
    let zobrist = Zobrist::new(alloc, &task)?;
    assert_eq!(rt;
        owner_of_seven_after(&zobrist, task.initial(), task.goal()),
        by_hash,
        "by its hash"
    );
    assert_eq!(rt;
        owner_of_seven_after(&ByValue::new(&task), task.initial(), task.goal()),
        by_value,
        "by its value"
    );
    Ok(())
}

#[test]
fn owners_of_changed_states(rt: HostRuntime) -> Result<(), Fail> {
    owned_after(&rt, rt.alloc(), &[0, 0], &[fact(0, 1), fact(1, 2)], 0, 1)?;
    owned_after(&rt, rt.alloc(), &[0, 2], &[fact(0, 1)], 0, 1)?;
    owned_after(&rt, rt.alloc(), &[1, 0], &[fact(1, 2)], 0, 1)?;
    owned_after(&rt, rt.alloc(), &[1, 2], &[fact(1, 0), fact(0, 0)], 5, 0)?;
    owned_after(&rt, rt.alloc(), &[0, 0], &[], 5, 0)
}

/// Returns operators most of which change the last of three variables, some the one before, and none the first.
fn last_changes_most(alloc: Global) -> Result<Vec<Operator>, AllocError> {
    let mut operators = Vec::new(alloc);
    operators.push(operator(alloc, &[fact(2, 0)], &[fact(2, 1)])?)?;
    operators.push(operator(alloc, &[fact(2, 1), fact(0, 0)], &[fact(2, 0)])?)?;
    operators.push(operator(alloc, &[fact(1, 0)], &[fact(1, 1)])?)?;
    Ok(operators)
}

/// Returns an operator that changes the first variable, and applies in all states; and one that changes the last, and
/// applies in a quarter.
fn first_changes_most(alloc: Global) -> Result<Vec<Operator>, AllocError> {
    let mut operators = Vec::new(alloc);
    operators.push(operator(alloc, &[], &[fact(0, 1)])?)?;
    operators.push(operator(alloc, &[fact(2, 0)], &[fact(2, 3)])?)?;
    Ok(operators)
}

/// Checks that the state has this owner among seven by a hash of the variables that these operators seldom change, with
/// three variables of 2, 3 and 4 values: as many variables as distinguish 6 of the 24 states.
fn owned_by_projection(
    rt: &impl Abort,
    alloc: Global,
    operators: Vec<Operator>,
    state: &[u32],
    owner: usize,
) -> Result<(), Fail> {
    let task = task(alloc, &[2, 3, 4], state, &[], operators)?.ok_or("a task")?;
    let spread = Zobrist::projected(alloc, &task)?;
    assert_eq!(rt;
        owner_of_seven(&spread, task.initial()),
        owner,
        "by the projection"
    );
    Ok(())
}

#[test]
fn owners_by_projections(rt: HostRuntime) -> Result<(), Fail> {
    let alloc = rt.alloc();
    owned_by_projection(&rt, alloc, last_changes_most(alloc)?, &[0, 0, 0], 5)?;
    owned_by_projection(&rt, alloc, last_changes_most(alloc)?, &[0, 0, 3], 5)?;
    owned_by_projection(&rt, alloc, last_changes_most(alloc)?, &[1, 2, 1], 0)?;
    owned_by_projection(&rt, alloc, first_changes_most(alloc)?, &[0, 0, 0], 2)?;
    owned_by_projection(&rt, alloc, first_changes_most(alloc)?, &[1, 0, 0], 2)?;
    owned_by_projection(&rt, alloc, first_changes_most(alloc)?, &[1, 2, 1], 0)
}
