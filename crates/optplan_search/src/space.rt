//! Search spaces.

ghost use Rattle.std.specs.Prelude.{◌≡◌, IfOk};
ghost use Rattle.optplan_search.specs.Searches.{IsSpaceFor};

use fdr::FdrTask;
use optplan_options::Options;
use owner::Space;
use packed_spread::Zobrist;
use scp::Columns;
use std::alloc::{AllocError, Global};

/// Returns the search space for a task, with these columns and this spread of the states.
pub fn space_for<'a>(
    alloc: Global,
    task: &'a FdrTask,
    columns: Columns<'a>,
    options: &Options,
    spread: Zobrist<'a>,
) -> Result<Space<'a, Zobrist<'a>>, AllocError>
    requires columns { columns.task ≡ task.now }
    requires spread { spread.task ≡ task.now }
    ensures { IfOk result (IsSpaceFor task.now options.now spread.entry.words) }
{
    columns.recall(); // they partition the costs of the operators
    let (limit, ties) = (options.limit(), options.ties());
    Space::new(alloc, task, columns, spread, limit, ties)
}
