//! An open list as buckets by f, which stores its first entry.

ghost use Rattle.std.specs.Prelude.{◌≡◌, List, [], ◌∷◌};
ghost use Rattle.openlist.specs.declared.entry.OpenEntry.{OpenEntry};
ghost use Rattle.openlist.specs.OpenLists.{IsFirstOf};

use crate::bucket_array::BucketArray;
use crate::entry::OpenEntry;
use crate::open_list::OpenList;
use std::alloc::{AllocError, Global};
use std::marker::Model;

/// An open list as an array of buckets by f that also stores its first entry, since callers read it several times
/// between two changes.
///
/// `least` takes constant time, and a push the time of a push to the array. A pop takes the time of a pop from the
/// array, and then finds the next first entry: it scans empty buckets from the f-value of the entry that it returns to
/// the first bucket that has an entry, and the next pop scans them again. So while no push is below the f-value of the
/// first entry, all pops together scan each bucket at most twice; after a push below it, the buckets from the pushed
/// f-value to that of the former first entry are scanned again. Memory is that of the array, and one entry.
///
/// In contracts its value is that of the array.
#[derive(Drop)]
pub struct Buckets {
    /// The entries.
    array: BucketArray,
    /// The first entry of the array, or `None` if it has none.
    first: Option<OpenEntry>,
}

impl Model for Buckets {
    ghost use Rattle.openlist.specs.BucketLists.{BucketsHeld, all_entries};
    ghost use Rattle.openlist.specs.OpenLists.{IsFirstOf};

    ghost Value = { BucketsHeld };

    ghost view = { λ it. it.array };

    ghost invariant = { λ it. IsFirstOf it.first (all_entries it.array) };
}

impl Buckets {
    ghost use Rattle.openlist.specs.BucketLists.{all_entries};

    /// Returns an empty open list.
    pub fn new(alloc: Global) -> Buckets
        ensures { all_entries result ≡ [] }
    {
        Buckets {
            array: BucketArray::new(alloc),
            first: None,
        }
    }
}

impl OpenList for Buckets {
    ghost use Rattle.openlist.specs.BucketLists.{all_entries, HasRoomIn, has_room_in_fewer};

    ghost entries = { all_entries };

    ghost HasRoom = { HasRoomIn };

    ghost fewer = { has_room_in_fewer };

    fn reserve(&mut self, fs: &[u64]) -> Result<(), AllocError> {
        self.array.reserve(fs)
    }

    fn push(&mut self, entry: OpenEntry) -> Result<(), AllocError> {
        self.array.push(entry)?;
        self.first = Some(earlier(self.first, entry));
        Ok(())
    }

    fn pop(&mut self) -> Option<OpenEntry> {
        let popped = self.array.pop();
        self.first = self.array.least();
        popped
    }

    fn least(&self) -> Option<OpenEntry> {
        self.first
    }
}

/// Returns the first entry of a list to which an entry was added. `first` is that of the list before.
fn earlier(first: Option<OpenEntry>, added: OpenEntry) -> OpenEntry
    ensures { (entries : List OpenEntry) → IsFirstOf first entries → IsFirstOf (Some result) (added ∷ entries) }
{
    match first {
        Some(first) => first.min(added),
        None => added,
    }
}
