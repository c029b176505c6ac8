//! The spread of the states of a multi-threaded search over its owners.

ghost use Rattle.std.specs.Prelude.{◌≡◌, IfOk};
ghost use Rattle.optplan_solver.specs.ThreadedSearches.{has_few_values, threaded_words};

use fdr::FdrTask;
use packed_spread::Zobrist;
use std::alloc::{AllocError, Global};

/// The greatest number of values, of all variables together, of a task in which all variables are hashed. Such a task
/// has fewer than 2,000 states, and a hash of some variables may leave most owners without any.
const FEW_VALUES: usize = 20;

/// Returns whether the variables of a task have at most `FEW_VALUES` values together.
fn has_few_values(task: &FdrTask) -> bool
    ensures { result ≡ has_few_values task.now }
{
    let mut left = FEW_VALUES;
    for variable in 0..task.variable_count() {
        let values = task.range(variable);
        if left < values {
            return false;
        }
        left -= values;
    }
    true
}

/// Returns the spread of the states of a task by a hash of the variables that seldom change, so that few messages are
/// sent; of all variables if these have few values.
pub(crate) fn threaded_spread<'a>(
    alloc: Global,
    task: &'a FdrTask,
) -> Result<Zobrist<'a>, AllocError>
    ensures task { IfOk result (λ z. z.task ≡ task.now) }
    ensures words { IfOk result (λ z. z.words ≡ threaded_words task.now) }
{
    if has_few_values(task) {
        Zobrist::new(alloc, task)
    } else {
        Zobrist::projected(alloc, task)
    }
}
