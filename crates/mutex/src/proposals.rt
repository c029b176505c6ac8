//! Proposed mutex groups of a task.

ghost use Rattle.std.specs.Prelude.{◌≡◌, ℕ, ◌≤◌, ◌<◌, [], length, filter, max, slice_index_or, All, IfOk, OnOk};
ghost use Rattle.std.specs.List.{fold};
ghost use Rattle.mutex.specs.Candidates.{instance, instances, count_of_instances, is_proposal, proposed_groups};
ghost use Rattle.mutex.specs.Proposals.{IsProposal, with_group};
ghost use Rattle.mutex.specs.Steps.{AreRows};

use crate::candidates::{Candidate, propose};
use crate::group_list::Groups;
use crate::instances::{collect, rows_by_predicate};
use index_rows::{Row, empty_rows};
use mutex_index::ActionIndex;
use std::alloc::{AllocError, Global};

/// Offers the instances of the candidate, which are the first lists of `lists`, to `groups`.
fn offer_instances(
    alloc: Global,
    index: &ActionIndex<'_>,
    candidate: &Candidate,
    lists: &[Row],
    groups: &mut Groups,
) -> Result<(), AllocError>
    requires enough { count_of_instances index.now.task candidate.now ≤ length lists.now }
    requires instances { (object : ℕ) → object < length lists.now →
        slice_index_or lists.now object [] ≡ instance index.now candidate.now object }
    ensures { OnOk result (groups.new ≡ fold with_group groups.old (filter (is_proposal index.now) (instances index.now candidate.now))) }
{
    for object in 0..candidate.count_of_instances(index.task()) {
        groups.offer(alloc, index, lists[object].as_slice())?;
    }
    Ok(())
}

/// Returns proposed mutex groups of the index's atoms. Each is a usable group of two or more atoms, none of them
/// constant or excluded, represented by their indices in increasing order. The groups are distinct.
///
/// The candidates are those that `propose` returns. A candidate has one instance for each object of the task: the atoms
/// of its parts whose bound argument is that object, without those that are constant or excluded. A candidate without a
/// bound argument has one instance. Every instance that is a usable group of two or more atoms is returned, in order.
pub fn groups(alloc: Global, index: &ActionIndex<'_>) -> Result<Groups, AllocError>
    ensures proposals { IfOk result (λ groups. All (IsProposal index.now) groups) }
    ensures groups { IfOk result (λ groups. groups ≡ proposed_groups index.now) }
{
    let rows = rows_by_predicate(alloc, index)?;
    let candidates = propose(alloc, index.task())?;
    let mut lists = empty_rows(alloc, index.task().object_types.len().max(1))?;
    let mut groups = Groups::new(alloc);
    for candidate in &candidates {
        collect(index, &rows, candidate, &mut lists)?;
        offer_instances(alloc, index, candidate, &lists, &mut groups)?;
    }
    Ok(groups)
}
