//! Groups of entries of one bucket.

ghost use Rattle.std.specs.Prelude.{◌≡◌, ◌-◌, ◌<◌, ◌≤◌, ◌↔◌, [], ◌∷◌, take, drop, length, vec_len, slice_index_or, Contains, IsTrue, IsFalse, IfSome, IfNone, IfOk, IfErr};
ghost use Rattle.std.specs.List.Sorted.{IsPermutation};
ghost use Rattle.openlist.specs.Groups.{AreGroups, GroupHeld, HasKeyAt, IsAbove, IsBelow, entry_in, grouped};
ghost use Rattle.openlist.specs.BucketOrder.{IsBefore};

use crate::bucket_entry::{BucketEntry, GroupKey};
use crate::group::Group;
use crate::halves::lower_half;
use std::alloc::Global;
use std::collections::VecDeque;
use std::marker::Model;
use std::mem::replace;

/// The greatest number of groups of a bucket.
const MOST_GROUPS: usize = 256;

/// Entries of a bucket by rank and upper half of the index: at most `MOST_GROUPS` groups, no two with the same key.
///
/// A push takes time logarithmic in the number of groups, and linear in it if it begins a group; a pop takes constant
/// time. A group takes 64 bytes beside the memory of its entries.
///
/// In contracts its value is its entries, in the order of the groups.
#[derive(Drop)]
pub struct Groups {
    /// The allocator of new groups.
    alloc: Global,
    /// The groups that have entries, in descending order of keys, so that the first entry is in the last group.
    groups: Vec<Group>,
    /// The memory of the last group that became empty, for the next new one.
    kept: VecDeque<u32>,
}

impl Model for Groups {
    ghost use Rattle.std.specs.Prelude.{◌≡◌, ◌≤◌, List, [], vec_len};
    ghost use Rattle.openlist.specs.declared.bucket_entry.BucketEntry.{BucketEntry};
    ghost use Rattle.openlist.specs.declared.groups.TheConstants.{MOST_GROUPS};
    ghost use Rattle.openlist.specs.Groups.{AreGroups, grouped};

    ghost Value = { List BucketEntry };

    ghost view = { λ it. grouped it.groups.items };

    ghost invariant = { λ it. AreGroups it.groups.items × (vec_len it.groups ≤ MOST_GROUPS) × (it.kept.items ≡ []) };
}

/// Returns `Ok` with the index of the group that has this key, or `Err` with the index at which it would be inserted,
/// by halving.
fn group_of(groups: &[Group], key: &GroupKey) -> Result<usize, usize>
    requires { AreGroups groups.now }
    ensures found { IfOk result (HasKeyAt key.now groups.now) }
    ensures bound { IfErr result (λ place. place ≤ length groups.now) }
    ensures before { IfErr result (λ place. IsBelow key.now (take place groups.now)) }
    ensures after { IfErr result (λ place. IsAbove key.now (drop place groups.now)) }
{
    let mut low = 0;
    let mut high = groups.len();
    'halving: while low < high {
        let middle = low + (high - low) / 2;
        if groups[middle].key() < key {
            high = middle;
        } else {
            low = middle + 1;
        }
    }
    if low == 0 {
        return Err(low);
    }
    if groups[low - 1].key() == key {
        Ok(low - 1)
    } else {
        Err(low)
    }
}

/// Inserts a group of one entry at the index, if there may be one more and there is memory for it. Returns whether it
/// did; otherwise the groups are unchanged.
fn insert_group(
    groups: &mut Vec<Group>,
    place: usize,
    kept: &mut VecDeque<u32>,
    alloc: Global,
    key: GroupKey,
    lower: u32,
) -> bool
    requires groups { AreGroups groups.old.items }
    requires bound { vec_len groups.old ≤ MOST_GROUPS }
    requires kept { kept.old.items ≡ [] }
    requires place { place ≤ vec_len groups.old }
    requires before { IsBelow key (take place groups.old.items) }
    requires after { IsAbove key (drop place groups.old.items) }
    ensures groups { AreGroups groups.new.items }
    ensures bound { vec_len groups.new ≤ MOST_GROUPS }
    ensures kept { kept.new.items ≡ [] }
    ensures pushed { IsTrue result → IsPermutation (entry_in key lower ∷ grouped groups.old.items) (grouped groups.new.items) }
    ensures unchanged { IsFalse result → groups.new.items ≡ groups.old.items }
{
    if groups.len() >= MOST_GROUPS {
        return false;
    }
    let Ok(()) = kept.push_back(lower) else {
        return false;
    };
    let lowers = replace(kept, VecDeque::new(alloc));
    groups.insert(place, Group::new(key, lowers)).is_ok()
}

/// Removes the last group, whose memory `kept` becomes.
fn remove_last(groups: &mut Vec<Group>, kept: &mut VecDeque<u32>)
    requires { 0 < vec_len groups.old }
    ensures groups { groups.new.items ≡ take (vec_len groups.old - 1) groups.old.items }
    ensures len { vec_len groups.new ≤ vec_len groups.old }
    ensures kept { (g : GroupHeld) → kept.new.items ≡ (slice_index_or groups.old.items (vec_len groups.old - 1) g).lowers }
{
    if let Some(group) = groups.pop() {
        *kept = group.into_lowers();
    }
}

impl Groups {
    /// Returns groups without entries.
    pub fn new(alloc: Global) -> Groups
        ensures { result ≡ [] }
    {
        Groups {
            alloc,
            groups: Vec::new(alloc),
            kept: VecDeque::new(alloc),
        }
    }

    /// Returns whether there is no entry.
    pub fn is_empty(&self) -> bool
        ensures { IsTrue result ↔ (self.now ≡ []) }
    {
        self.groups.is_empty()
    }

    /// Adds an entry, if it fits at an end of the group of its key or there may be a new group for it, and if there is
    /// memory for it. Returns whether it did; otherwise the entries are unchanged.
    pub fn push(&mut self, entry: &BucketEntry) -> bool
        ensures pushed { IsTrue result → IsPermutation (entry.now ∷ self.old) self.new }
        ensures unchanged { IsFalse result → self.new ≡ self.old }
    {
        let key = entry.key();
        let lower = lower_half(entry.index);
        match group_of(&self.groups, &key) {
            Ok(place) => self.groups[place].push(lower),
            Err(place) => insert_group(
                &mut self.groups,
                place,
                &mut self.kept,
                self.alloc,
                key,
                lower,
            ),
        }
    }

    /// Returns the first entry, or `None` if there is none.
    pub fn least(&self) -> Option<BucketEntry>
        ensures member { IfSome result (Contains self.now) }
        ensures first { IfSome result (λ entry. IsBefore entry self.now) }
        ensures none { IfNone result (self.now ≡ []) }
    {
        let place = self.groups.len().checked_sub(1)?;
        self.groups[place].least()
    }

    /// Removes and returns the first entry, or returns `None` if there is none.
    pub fn pop(&mut self) -> Option<BucketEntry>
        ensures first { IfSome result (λ entry. IsBefore entry self.old) }
        ensures rest { IfSome result (λ entry. IsPermutation self.old (entry ∷ self.new)) }
        ensures none { IfNone result (self.old ≡ []) }
        ensures empty { IfNone result (self.new ≡ []) }
    {
        let place = self.groups.len().checked_sub(1)?;
        let entry = self.groups[place].pop()?;
        if self.groups[place].is_empty() {
            remove_last(&mut self.groups, &mut self.kept);
        }
        Some(entry)
    }
}
