//! The priority queue of abstract states.

ghost use Rattle.std.specs.Prelude.{◌≡◌, ◌<◌, [], ◌∷◌, ◌++◌, length, IfSome, IfNone, IfOk, OnOk, IsPermutation};
ghost use Rattle.pdb.specs.Queues.{entries_of, IsFilled};

use std::alloc::{AllocError, Global};
use std::marker::Model;
use std::mem;

/// An entry of the queue: an abstract state with the value that it had when it was added.
#[derive(Clone, Copy)]
pub(crate) struct Entry {
    pub(crate) value: u64,
    pub(crate) state: u32,
}

/// The number of buckets: one for each position of the highest bit in which two values can differ, and one for values
/// that do not differ.
const BUCKETS: usize = 65;

/// A priority queue of abstract states: a radix heap (Ahuja, Mehlhorn, Orlin and Tarjan 1990). Entries are taken by
/// increasing values, provided that no entry is added with a lesser value than the last one taken; this order is not
/// proved. An entry cannot be changed: after the value of a state has decreased, the state is added once more. In
/// contracts the value of a queue is the list of its entries, in no particular order.
///
/// An entry takes 16 bytes and is moved at most 64 times. Memory of earlier entries is reused.
#[derive(Drop)]
pub(crate) struct Queue {
    /// Bucket 0 has the entries with the value `last`, and bucket b those whose value differs from it in bit b - 1,
    /// counted from 0, and in none above.
    buckets: Vec<Vec<Entry>>,
    /// The least value of the entries that were last moved to other buckets.
    last: u64,
    /// A buffer.
    moved: Vec<Entry>,
}

impl Model for Queue {
    ghost use Rattle.std.specs.Prelude.{◌≡◌, List, length};
    ghost use Rattle.pdb.specs.declared.queue.Entry.{Entry};
    ghost use Rattle.pdb.specs.declared.queue.TheConstants.{BUCKETS};
    ghost use Rattle.pdb.specs.Queues.{entries_of};

    ghost Value = { List Entry };

    ghost view = { λ q. entries_of q.buckets.items };

    ghost invariant = { λ q. length q.buckets.items ≡ BUCKETS };
}

/// Returns the bucket for a value.
fn bucket_of(value: u64, last: u64) -> usize
    ensures { result < BUCKETS }
{
    64usize.saturating_sub((value ^ last).leading_zeros() as usize)
}

/// Adds an entry to its bucket.
fn put(buckets: &mut [Vec<Entry>], last: u64, entry: Entry) -> Result<(), AllocError>
    requires { length buckets.old ≡ BUCKETS }
    ensures { OnOk result (IsPermutation (entry ∷ entries_of buckets.old) (entries_of buckets.new)) }
{
    let bucket = bucket_of(entry.value, last);
    buckets[bucket].push(entry)?;
    Ok(())
}

/// Returns the first bucket that has an entry.
fn first_filled(buckets: &[Vec<Entry>]) -> Option<usize>
    ensures some { IfSome result (λ bucket. IsFilled buckets.now bucket) }
    ensures none { IfNone result (entries_of buckets.now ≡ []) }
{
    for bucket in 0..buckets.len() {
        if !buckets[bucket].is_empty() {
            return Some(bucket);
        }
    }
    None
}

/// Returns the index of an entry with the least value.
fn least_index(entries: &[Entry]) -> usize
    requires { 0 < length entries.now }
    ensures { result < length entries.now }
{
    let mut least = 0;
    for index in 1..entries.len() {
        if entries[index].value < entries[least].value {
            least = index;
        }
    }
    least
}

/// Adds entries to their buckets.
fn put_all(buckets: &mut [Vec<Entry>], last: u64, entries: &[Entry]) -> Result<(), AllocError>
    requires { length buckets.old ≡ BUCKETS }
    ensures { OnOk result (IsPermutation (entries.now ++ entries_of buckets.old) (entries_of buckets.new)) }
{
    for entry in entries {
        put(buckets, last, *entry)?;
    }
    Ok(())
}

/// Removes an entry with the least value of a bucket and returns it. The other entries of the bucket move to their
/// buckets relative to that value. `moved` is a buffer.
fn take_from(
    buckets: &mut [Vec<Entry>],
    moved: &mut Vec<Entry>,
    bucket: usize,
) -> Result<Entry, AllocError>
    requires len { length buckets.old ≡ BUCKETS }
    requires filled { IsFilled buckets.old bucket }
    ensures { IfOk result (λ entry. IsPermutation (entries_of buckets.old) (entry ∷ entries_of buckets.new)) }
{
    moved.clear();
    mem::swap(moved, &mut buckets[bucket]);
    let least = least_index(moved);
    let entry = moved.swap_remove(least);
    put_all(buckets, entry.value, moved)?;
    Ok(entry)
}

impl Queue {
    /// Returns an empty queue.
    pub(crate) fn new(alloc: Global) -> Result<Queue, AllocError>
        ensures { IfOk result (λ queue. queue ≡ []) }
    {
        let mut buckets = Vec::with_capacity(alloc, BUCKETS)?;
        for _ in 0..BUCKETS {
            buckets.push(Vec::new(alloc))?;
        }
        Ok(Queue {
            buckets,
            last: 0,
            moved: Vec::new(alloc),
        })
    }

    /// Removes all entries. The next entry may have any value.
    pub(crate) fn clear(&mut self)
        ensures { self.new ≡ [] }
    {
        for bucket in 0..self.buckets.len() {
            self.buckets[bucket].clear();
        }
        self.last = 0;
    }

    /// Adds an entry. On failure the content of the queue is not specified.
    pub(crate) fn add(&mut self, value: u64, state: u32) -> Result<(), AllocError>
        ensures { OnOk result (IsPermutation (record { value = value; state = state } ∷ self.old) self.new) }
    {
        put(&mut self.buckets, self.last, Entry { value, state })
    }

    /// Removes an entry with the least value and returns it, or returns `None` if the queue is empty. On failure the
    /// content of the queue is not specified.
    pub(crate) fn take(&mut self) -> Result<Option<Entry>, AllocError>
        ensures none { IfOk result (λ taken. IfNone taken (self.old ≡ [])) }
        ensures empty { IfOk result (λ taken. IfNone taken (self.new ≡ [])) }
        ensures some { IfOk result (λ taken. IfSome taken (λ entry. IsPermutation self.old (entry ∷ self.new))) }
    {
        if let Some(entry) = self.buckets[0].pop() {
            return Ok(Some(entry));
        }
        let Some(bucket) = first_filled(&self.buckets) else {
            return Ok(None);
        };
        let entry = take_from(&mut self.buckets, &mut self.moved, bucket)?;
        self.last = entry.value;
        Ok(Some(entry))
    }
}
