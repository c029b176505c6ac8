//! The instances of candidates: lists of atom indices, one list for each object.

ghost use Rattle.std.specs.Prelude.{◌≡◌, ℕ, ◌<◌, ◌++◌, [], ◌∷◌, ◌==◌, ◌&&◌, ◌||◌, length, replicate, slice_index_or, All, IfOk, OnOk};
ghost use Rattle.std.specs.List.{list_any};
ghost use Rattle.std.specs.List.Sorted.{IsStrictlyIncreasing};
ghost use Rattle.index_rows.specs.Numbers.{has, AreSameSet};
ghost use Rattle.mutex.specs.Candidates.{instance};
ghost use Rattle.mutex.specs.Proposals.{is_movable};
ghost use Rattle.mutex.specs.Steps.{AreRows, binds, is_row_place};

use crate::candidates::Candidate;
use crate::group_list::is_movable;
use crate::parts::Part;
use index_rows::{Row, empty_rows, put};
use mutex_index::ActionIndex;
use pddl_task::GroundAtom;
use std::alloc::{AllocError, Global};

/// Appends the index of the atom to the row of its predicate, if the atom is neither constant nor excluded.
fn put_movable(
    index: &ActionIndex<'_>,
    place: usize,
    atom: &GroundAtom,
    rows: &mut [Row],
) -> Result<(), AllocError>
    ensures { OnOk result ((q k : ℕ) → q < length rows.old →
        has (slice_index_or rows.new q []) k
        ≡ (has (slice_index_or rows.old q []) k || (is_movable index.now place && (place == k && atom.now.predicate == q)))) }
{
    if is_movable(index, place) {
        put(rows, atom.predicate, place)?;
    }
    Ok(())
}

/// Returns for each predicate of the task the indices of its atoms that are neither constant nor excluded.
pub(crate) fn rows_by_predicate(
    alloc: Global,
    index: &ActionIndex<'_>,
) -> Result<Vec<Row>, AllocError>
    ensures { IfOk result (λ rows. AreRows index.now rows.items) }
{
    let mut rows = empty_rows(alloc, index.task().arities.len())?;
    for (place, atom) in index.atoms().as_slice().iter().enumerate() {
        put_movable(index, place, atom, &mut rows)?;
    }
    Ok(rows)
}

/// Appends the index of each of these atoms to the list of the object that the part binds in it. An index without an
/// atom is ignored.
fn put_part(
    index: &ActionIndex<'_>,
    part: Part,
    places: &[usize],
    lists: &mut [Row],
) -> Result<(), AllocError>
    ensures { OnOk result ((object k : ℕ) → object < length lists.old →
        has (slice_index_or lists.new object []) k
        ≡ (has (slice_index_or lists.old object []) k || (has places.now k && binds index.now part object k))) }
{
    for place in places {
        if let Some(atom) = index.atoms().get(*place) {
            put(lists, part.object(atom), *place)?;
        }
    }
    Ok(())
}

/// Appends the indices of each part's row, each to the list of the object that the part binds.
fn put_parts(
    index: &ActionIndex<'_>,
    rows: &[Row],
    parts: &[Part],
    lists: &mut [Row],
) -> Result<(), AllocError>
    requires rows { AreRows index.now rows.now }
    requires known { All (λ part. part.predicate < length index.now.task.arities) parts.now }
    ensures { OnOk result ((object k : ℕ) → object < length lists.old →
        has (slice_index_or lists.new object []) k
        ≡ (has (slice_index_or lists.old object []) k
        || list_any (λ part. is_row_place index.now part.predicate k && binds index.now part object k) parts.now)) }
{
    for part in parts {
        if let Some(row) = rows.get(part.predicate) {
            put_part(index, *part, row.as_slice(), lists)?;
        }
    }
    Ok(())
}

fn clear_all(lists: &mut [Row])
    ensures { (n : ℕ) → n < length lists.old → slice_index_or lists.new n [] ≡ [] }
{
    for list in lists.iter_mut() {
        list.clear();
    }
}

fn sort_all(lists: &mut [Row])
    ensures rising { (n : ℕ) → n < length lists.old → IsStrictlyIncreasing (slice_index_or lists.new n []) }
    ensures same { (n : ℕ) → n < length lists.old → AreSameSet (slice_index_or lists.new n []) (slice_index_or lists.old n []) }
{
    for list in lists.iter_mut() {
        list.sort();
    }
}

/// Turns each list into the candidate's instance for the object with the list's number.
pub(crate) fn collect(
    index: &ActionIndex<'_>,
    rows: &[Row],
    candidate: &Candidate,
    lists: &mut [Row],
) -> Result<(), AllocError>
    requires rows { AreRows index.now rows.now }
    requires known { All (λ part. part.predicate < length index.now.task.arities) candidate.now }
    ensures { OnOk result ((object : ℕ) → object < length lists.old →
        slice_index_or lists.new object [] ≡ instance index.now candidate.now object) }
{
    clear_all(lists);
    put_parts(index, rows, candidate.parts(), lists)?;
    sort_all(lists);
    Ok(())
}
