//! Needless steps of plans (action elimination: Nakhost and Müller 2010).

ghost use Rattle.std.specs.Prelude.{◌≡◌, ◌≤◌, length};

use fdr::FdrTask;
use std::alloc::{AllocError, Global};

/// Applies those of the operators that apply in turn, and replaces the content of `applied` by them. Returns whether
/// the goal holds then.
fn apply_all(
    task: &FdrTask,
    operators: &[usize],
    state: &mut [u32],
    applied: &mut Vec<usize>,
) -> Result<bool, AllocError>
    requires { length state.old ≡ length task.now.value_names }
{
    applied.clear();
    for operator in operators {
        if task.apply(*operator, state) {
            applied.push(*operator)?;
        }
    }
    Ok(task.is_goal(state))
}

/// Returns the operators of a plan without needless ones: each in turn is left out, with those after it that then do
/// not apply, if the others still reach the goal. At most `most` applications of operators are tried.
pub(crate) fn without_needless(
    alloc: Global,
    task: &FdrTask,
    operators: &[usize],
    most: usize,
) -> Result<Vec<usize>, AllocError> {
    let mut kept = Vec::from_slice(alloc, operators)?;
    let mut state = Vec::from_slice(alloc, task.initial())?; // after the first `position` operators
    let mut trial = Vec::from_slice(alloc, task.initial())?;
    let mut applied = Vec::new(alloc);
    let mut position = 0;
    let mut left = most;
    for _ in 0..operators.len() {
        let Some(operator) = kept.get(position).copied() else {
            break;
        };
        let rest = &kept[position + 1..];
        if left < rest.len() {
            break;
        }
        left -= rest.len();
        trial.copy_from_slice(&state);
        if apply_all(task, rest, &mut trial, &mut applied)? {
            kept.truncate(position);
            kept.extend_from_slice(&applied)?;
        } else {
            task.apply(operator, &mut state);
            position += 1;
        }
    }
    Ok(kept)
}
