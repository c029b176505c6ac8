//! The groups that have an atom, by the atom's index.

ghost use Rattle.std.specs.Prelude.{◌≡◌, ◌<◌, ◌==◌, ◌&&◌, ◌||◌, ◌++◌, ℕ, [], ◌∷◌, true, length, replicate, slice_index_or, IfOk, OnOk};
ghost use Rattle.index_rows.specs.Numbers.{has, AreSameSet, row, IsTranspose};
ghost use Rattle.translate_choice.specs.Greedy.{HasEach};

use index_rows::{Rows, transpose};
use mutex::Group;
use std::alloc::{AllocError, Global};
use std::marker::Model;

/// For each atom, by its index, the numbers of the groups that have it.
#[derive(Drop)]
pub(crate) struct GroupsAt {
    rows: Rows,
}

impl Model for GroupsAt {
    ghost use Rattle.std.specs.Prelude.{ℕ, List};

    ghost Value = { List (List ℕ) };

    ghost view = { λ at. at.rows };
}

impl GroupsAt {
    /// Returns the groups of each index below `count`.
    pub(crate) fn new(alloc: Global, count: usize, groups: &[Group]) -> Result<GroupsAt, AllocError>
        ensures { IfOk result (IsTranspose count groups.now) }
    {
        let rows = transpose(alloc, count, &rows_of(alloc, groups)?)?;
        Ok(GroupsAt { rows })
    }

    /// Returns the groups that have one of the atoms at the indices `places`, in increasing order.
    pub(crate) fn groups_with(
        &self,
        alloc: Global,
        places: &[usize],
    ) -> Result<Vec<usize>, AllocError>
        ensures { IfOk result (λ groups. HasEach self.now places.now groups.items) }
    {
        let mut groups = self.listed_with(alloc, places)?;
        groups.sort_unstable();
        groups.dedup();
        Ok(groups)
    }

    /// Returns the groups of `groups_with` with duplicates, in no particular order.
    fn listed_with(&self, alloc: Global, places: &[usize]) -> Result<Vec<usize>, AllocError>
        ensures { IfOk result (λ groups. HasEach self.now places.now groups.items) }
    {
        let mut groups = Vec::new(alloc);
        for place in places {
            groups.extend_from_slice(self.row(*place))?;
        }
        Ok(groups)
    }

    /// Returns the groups that have the atom at index `place`, or none if there is no such index.
    fn row(&self, place: usize) -> &[usize]
        ensures { result.now ≡ row self.now place }
    {
        self.rows.row(place)
    }
}

/// Returns the groups as rows of the indices of their atoms.
fn rows_of(alloc: Global, groups: &[Group]) -> Result<Rows, AllocError>
    ensures { IfOk result (λ rows. rows ≡ groups.now) }
{
    let mut rows = Rows::new(alloc);
    for group in groups {
        rows.push(group.places())?;
    }
    Ok(rows)
}
