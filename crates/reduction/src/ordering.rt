//! The order of the retained operators.

ghost use Rattle.std.specs.Prelude.{◌≡◌, ◌<◌, ◌≤◌, All, length, map, slice_index, IfOk};
ghost use Rattle.std.specs.List.Sorted.{IsPermutation};
ghost use Rattle.fdr.specs.Limits.{max_operators};
ghost use Rattle.fdr.specs.Tasks.{ranges};
ghost use Rattle.reduction_classes.specs.Classes.{AreClassesFor};

use fdr::FdrTask;
use fdr_successors::walk_order;
use reduction_classes::Classes;
use std::alloc::{AllocError, Global};

/// Returns the numbers at these indices, in the order of the indices.
fn numbers_at(alloc: Global, numbers: &[usize], indices: &[usize]) -> Result<Vec<usize>, AllocError>
    requires { All (λ i. i < length numbers.now) indices.now }
    ensures { IfOk result (λ chosen. chosen.items ≡ map (slice_index numbers.now) indices.now) }
{
    let mut chosen = Vec::with_capacity(alloc, indices.len())?;
    for index in indices {
        chosen.push(numbers[*index])?;
    }
    Ok(chosen)
}

/// Returns the numbers of operators in the order in which a successor generator of the reduced task over these
/// operators lists them. That it is this order is not proved: nothing but speed depends on it.
pub(crate) fn in_walk_order(
    alloc: Global,
    task: &FdrTask,
    classes: &Classes,
    numbers: &[usize],
) -> Result<Vec<usize>, AllocError>
    requires fit { AreClassesFor (ranges task.now) classes.now }
    requires exist { All (λ o. o < length task.now.operators) numbers.now }
    requires few { length numbers.now ≤ max_operators }
    ensures { IfOk result (λ ordered. IsPermutation numbers.now ordered.items) }
{
    let reduced = classes.task_with(alloc, task, numbers)?;
    let order = walk_order(alloc, &reduced)?;
    numbers_at(alloc, numbers, &order)
}
