//! An open list as an array of buckets by f.

ghost use Rattle.std.specs.Prelude.{◌≡◌, []};

use crate::bucket::Bucket;
use crate::entry::OpenEntry;
use crate::heap::Heap;
use crate::open_list::OpenList;
use crate::row::{begin_reserve, bucket_of, count_far, first_filled, push_near, reserve_near};
use std::alloc::{AllocError, Global};
use std::marker::Model;

/// An open list as an array of buckets by f (Dial 1969), each of groups by rank and a binary heap, with one heap for
/// all entries with f 65536 and above.
///
/// A push or a pop takes constant time on average for an entry of a group, and time logarithmic in the number of the
/// heap's entries otherwise. An entry takes 4 bytes in a group, 24 in a bucket's heap and 32 in the last heap. A pop
/// also scans empty buckets, from the f-value of the last pop, or of a push below that, to the first bucket that has an
/// entry; `least` does the same without moving the start of the scan. So while no push is below the last f that was
/// popped, all pops together scan each bucket once.
///
/// In contracts its value is the entries of each bucket, the number of entries that still fit in each without an
/// allocation, the start of the scan, and the heap of entries without a bucket.
#[derive(Drop)]
pub struct BucketArray {
    /// The allocator of new buckets.
    alloc: Global,
    /// The buckets: index i has the entries of f-value i. The last f-value with a bucket is below `FAR`.
    row: Vec<Bucket>,
    /// No bucket below this index has an entry.
    least: usize,
    /// The entries of f-values that have no bucket.
    far: Heap,
}

impl Model for BucketArray {
    ghost use Rattle.openlist.specs.BucketLists.{BucketsHeld, IsInOrder, held_of};

    ghost Value = { BucketsHeld };

    ghost view = { λ it. held_of it.row.items it.least it.far };

    ghost invariant = { λ it. IsInOrder (held_of it.row.items it.least it.far) };
}

impl BucketArray {
    ghost use Rattle.openlist.specs.BucketLists.{all_entries};

    /// Returns an empty open list.
    pub fn new(alloc: Global) -> BucketArray
        ensures { all_entries result ≡ [] }
    {
        BucketArray {
            alloc,
            row: Vec::new(alloc),
            least: 0,
            far: Heap::new(alloc),
        }
    }
}

impl OpenList for BucketArray {
    ghost use Rattle.openlist.specs.BucketLists.{all_entries, HasRoomIn, has_room_in_fewer};

    ghost entries = { all_entries };

    ghost HasRoom = { HasRoomIn };

    ghost fewer = { has_room_in_fewer };

    fn reserve(&mut self, fs: &[u64]) -> Result<(), AllocError> {
        begin_reserve(&mut self.row, self.alloc, fs)?;
        reserve_near(&mut self.row, fs)?;
        self.far.reserve_more(count_far(fs))
    }

    fn push(&mut self, entry: OpenEntry) -> Result<(), AllocError> {
        let Some(place) = bucket_of(entry.f) else {
            return self.far.push(entry);
        };
        push_near(&mut self.row, self.alloc, place, entry)?;
        self.least = self.least.min(place);
        Ok(())
    }

    fn pop(&mut self) -> Option<OpenEntry> {
        self.least = first_filled(&self.row, self.least);
        if self.least < self.row.len() {
            self.row[self.least].pop(self.least as u64)
        } else {
            self.far.pop()
        }
    }

    fn least(&self) -> Option<OpenEntry> {
        let place = first_filled(&self.row, self.least);
        if place < self.row.len() {
            self.row[place].least(place as u64)
        } else {
            self.far.least()
        }
    }
}
