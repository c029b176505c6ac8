//! Classes of the values of a variable that the goal names.

ghost use Rattle.std.specs.Prelude.{◌≡◌, ◌<◌, ◌≤◌, ◌^◌, map, IfOk};
ghost use Rattle.std.specs.List.{range_with_len};
ghost use Rattle.abstraction_domain.specs.Rows.{class_count};
ghost use Rattle.pdb_patterns.specs.GoalClasses.{AreGoalClasses, goal_class};

use abstraction_domain::ClassRow;
use std::alloc::{AllocError, Global};

/// Returns the class of a value of a variable for which the goal requires the value `goal`.
fn class_of(limit: usize, goal: usize, value: usize) -> u32
    requires some { 2 ≤ limit }
    requires small { limit ≤ 2 ^ 24 }
    ensures { result ≡ goal_class limit goal value }
{
    let last = limit - 1;
    let class = if goal < last {
        value.min(last)
    } else if value == goal {
        last
    } else {
        value.min(last - 1)
    };
    class as u32
}

/// Returns the classes of `range` values.
fn classes_of(
    alloc: Global,
    limit: usize,
    goal: usize,
    range: usize,
) -> Result<Vec<u32>, AllocError>
    requires some { 2 ≤ limit }
    requires small { limit ≤ 2 ^ 24 }
    ensures { IfOk result (λ classes. classes.items ≡ map (goal_class limit goal) (range_with_len 0 range)) }
{
    let mut classes = Vec::with_capacity(alloc, range)?;
    for value in 0..range {
        classes.push(class_of(limit, goal, value))?;
    }
    Ok(classes)
}

/// Returns the row of a variable with `range` values, for which the goal requires the value `goal`: the first `limit -
/// 2` values other than the goal's value, and the goal's value, have classes of their own, and all the rest share one.
pub(crate) fn goal_row(
    alloc: Global,
    variable: usize,
    range: usize,
    goal: usize,
    limit: usize,
) -> Result<ClassRow, AllocError>
    requires some { 2 ≤ limit }
    requires small { limit ≤ 2 ^ 24 }
    ensures variable { IfOk result (λ row. row.variable ≡ variable) }
    ensures classes { IfOk result (λ row. AreGoalClasses limit goal range row.classes) }
    ensures few { IfOk result (λ row. class_count row.classes ≤ limit) }
{
    let classes = classes_of(alloc, limit, goal, range)?;
    match ClassRow::new(variable, classes) {
        Ok(row) => Ok(row),
        Err(_) => unreachable!(),
    }
}
