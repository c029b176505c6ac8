//! The array of buckets: index i has the entries of f-value i.

ghost use Rattle.std.specs.Prelude.{◌≡◌, ◌≢◌, ℕ, ◌+◌, max, ◌<◌, ◌≤◌, List, [], ◌∷◌, length, slice_index_or, vec_len, IsOk, IsPermutation, IfSome, IfNone, OnOk, OnErr};
ghost use Rattle.openlist.specs.BucketLists.{far_count, HasBuckets, HasRoomNear, HasSameEntries, KeepsRoom, row_entries, row_of, spares_of};

use crate::bucket::Bucket;
use crate::entry::OpenEntry;
use std::alloc::{AllocError, Global};

/// The least f-value without a bucket: entries of this f-value or of a greater one are in one heap.
pub const FAR: u64 = 65_536;

/// Returns the index of this f-value's bucket, or `None` if it has none.
pub fn bucket_of(f: u64) -> Option<usize>
    ensures near { IfSome result (λ place. place ≡ f) }
    ensures below { IfSome result (λ place. place < FAR) }
    ensures far { IfNone result (FAR ≤ f) }
{
    if f < FAR { Some(f as usize) } else { None }
}

/// Returns the number of these f-values without a bucket.
pub fn count_far(fs: &[u64]) -> usize
    ensures { result ≡ far_count fs.now }
{
    fs.iter().filter(|f| **f >= FAR).count()
}

/// Returns the least index, `from` or higher, whose bucket has an entry, or an index at or above the array's length if
/// there is none.
pub fn first_filled(row: &[Bucket], from: usize) -> usize
    ensures above { from ≤ result }
    ensures empty { (place : ℕ) → from ≤ place → place < result →
        slice_index_or (row_of row.now) place [] ≡ [] }
    ensures filled { result < length row.now → slice_index_or (row_of row.now) result [] ≢ [] }
{
    let mut place = from;
    while place < row.len() && row[place].is_empty() {
        place += 1;
    }
    place
}

/// Appends empty buckets until there is one at the index. On failure some of them may have been added. Each new bucket
/// takes constant time on average, because a `Vec` doubles its capacity.
pub fn grow(row: &mut Vec<Bucket>, alloc: Global, place: usize) -> Result<(), AllocError>
    ensures entries { HasSameEntries (row_of row.old.items) (row_of row.new.items) }
    ensures room { KeepsRoom (spares_of row.old.items) (spares_of row.new.items) }
    ensures long { OnOk result (place < vec_len row.new) }
    ensures succeeds { place < vec_len row.old → IsOk result }
    ensures len { vec_len row.old ≤ vec_len row.new }
    ensures bound { vec_len row.new ≤ max (vec_len row.old) (place + 1) }
{
    while row.len() <= place {
        row.push(Bucket::new(alloc))?;
    }
    Ok(())
}

/// Adds the entry to the bucket at the index, which is that of the entry's f-value, after creating missing buckets.
pub fn push_near(
    row: &mut Vec<Bucket>,
    alloc: Global,
    place: usize,
    entry: OpenEntry,
) -> Result<(), AllocError>
    requires value { place ≡ entry.f }
    requires near { place < FAR }
    ensures pushed { OnOk result (IsPermutation (entry ∷ row_entries 0 (row_of row.old.items))
        (row_entries 0 (row_of row.new.items))) }
    ensures below { (f : ℕ) → f < place →
        slice_index_or (row_of row.new.items) f [] ≡ slice_index_or (row_of row.old.items) f [] }
    ensures unchanged { OnErr result (HasSameEntries (row_of row.old.items) (row_of row.new.items)) }
    ensures bound { vec_len row.new ≤ max (vec_len row.old) (place + 1) }
    ensures succeeds { (fs : List ℕ) → HasRoomNear (spares_of row.old.items) (entry.f ∷ fs) → IsOk result }
    ensures room { (fs : List ℕ) → HasRoomNear (spares_of row.old.items) (entry.f ∷ fs) →
        HasRoomNear (spares_of row.new.items) fs }
{
    grow(row, alloc, place)?;
    row[place].push(entry)
}

/// Creates missing buckets for those of the f-values that have one, and resets their requested room.
pub fn begin_reserve(row: &mut Vec<Bucket>, alloc: Global, fs: &[u64]) -> Result<(), AllocError>
    requires { vec_len row.old ≤ FAR }
    ensures entries { HasSameEntries (row_of row.old.items) (row_of row.new.items) }
    ensures bound { vec_len row.new ≤ FAR }
    ensures long { OnOk result (HasBuckets fs.now (vec_len row.new)) }
{
    for f in fs {
        if let Some(place) = bucket_of(*f) {
            grow(row, alloc, place)?;
            row[place].begin_reserve();
        }
    }
    Ok(())
}

/// Makes room in each bucket for as many entries as `fs` has occurrences of its f-value.
///
/// Each occurrence requests room for one entry more than those before it, so that the total time is linear and the
/// total room is that of the entries in `fs`; room for `fs.len()` entries in each bucket could be quadratic.
pub fn reserve_near(row: &mut Vec<Bucket>, fs: &[u64]) -> Result<(), AllocError>
    requires { HasBuckets fs.now (vec_len row.old) }
    ensures entries { HasSameEntries (row_of row.old.items) (row_of row.new.items) }
    ensures len { vec_len row.new ≡ vec_len row.old }
    ensures room { OnOk result (HasRoomNear (spares_of row.new.items) fs.now) }
{
    for f in fs {
        if let Some(place) = bucket_of(*f) {
            row[place].reserve_one_more()?;
        }
    }
    Ok(())
}
