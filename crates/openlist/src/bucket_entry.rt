//! Entries of a bucket, and what those of a group have in common.

ghost use Rattle.std.specs.Prelude.{◌≡◌};
ghost use Rattle.openlist.specs.BucketLists.{with_f};
ghost use Rattle.openlist.specs.Groups.{entry_in, key_of};

use crate::entry::{OpenEntry, Rank};
use crate::halves::{joined, upper_half};

/// An entry of a bucket: an open entry without its f-value, which is the same for all entries of the bucket.
#[derive(Clone, Copy, Debug, PartialEq, Eq, PartialOrd, Ord)]
pub struct BucketEntry {
    /// The rank at which the state was reached.
    pub rank: Rank,
    /// The state's index in its owner's table.
    pub index: usize,
}

/// What the entries of a group have in common. Keys are ordered by rank, then by the upper half.
#[derive(Clone, Copy, Debug, PartialEq, Eq, PartialOrd, Ord)]
pub struct GroupKey {
    /// The rank at which the states were reached.
    pub rank: Rank,
    /// The upper half of the states' indices.
    pub upper: u32,
}

impl BucketEntry {
    /// Returns the open entry with this f-value.
    pub fn with_f(self, f: u64) -> OpenEntry
        ensures { result ≡ with_f f self }
    {
        OpenEntry {
            f,
            rank: self.rank,
            index: self.index,
        }
    }

    /// Returns the key of the entry's group.
    pub fn key(&self) -> GroupKey
        ensures { result ≡ key_of self.now }
    {
        GroupKey {
            rank: self.rank,
            upper: upper_half(self.index),
        }
    }
}

impl GroupKey {
    /// Returns the entry of the group whose index has this lower half.
    pub fn entry(&self, lower: u32) -> BucketEntry
        ensures { result ≡ entry_in self.now lower }
    {
        BucketEntry {
            rank: self.rank,
            index: joined(self.upper, lower),
        }
    }
}
