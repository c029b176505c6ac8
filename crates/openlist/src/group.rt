//! The entries of a bucket with the same rank and the same upper half of the index.

ghost use Rattle.std.specs.Prelude.{◌≡◌, ◌≤◌, ◌↔◌, [], ◌∷◌, ◌++◌, Contains, IsTrue, IsFalse, IfSome, IfNone};
ghost use Rattle.std.specs.List.Sorted.{IsPermutation};
ghost use Rattle.openlist.specs.Groups.{IsAscending, entries_in, entry_in, key_of};
ghost use Rattle.openlist.specs.BucketOrder.{IsBefore};

use crate::bucket_entry::{BucketEntry, GroupKey};
use std::collections::VecDeque;
use std::marker::Model;

/// Entries of a bucket with the same key. A push or a pop takes constant time on average and accesses adjacent memory.
/// The memory has 4 bytes for each entry, and is doubled when it is full.
///
/// In contracts its value is its key and the lower halves of its entries' indices, in ascending order.
#[derive(Drop)]
pub struct Group {
    /// What the entries have in common.
    key: GroupKey,
    /// The lower halves of the entries' indices, in ascending order.
    lowers: VecDeque<u32>,
}

impl Model for Group {
    ghost use Rattle.openlist.specs.Groups.{GroupHeld, IsAscending};

    ghost Value = { GroupHeld };

    ghost view = { λ it. record { key = it.key; lowers = it.lowers.items } };

    ghost invariant = { λ it. IsAscending it.lowers.items };
}

impl Group {
    /// Returns the group of this key with these lower halves.
    pub fn new(key: GroupKey, lowers: VecDeque<u32>) -> Group
        requires { IsAscending lowers.items }
        ensures key { result.key ≡ key }
        ensures lowers { result.lowers ≡ lowers.items }
    {
        Group { key, lowers }
    }

    /// Returns the group's key.
    pub fn key(&self) -> &GroupKey
        ensures { result.now ≡ self.now.key }
    {
        &self.key
    }

    /// Returns whether the group has no entry.
    pub fn is_empty(&self) -> bool
        ensures { IsTrue result ↔ (self.now.lowers ≡ []) }
    {
        self.lowers.is_empty()
    }

    /// Adds an entry, given by the lower half of its index, if it comes after all others or before all of them and if
    /// there is memory for it. Returns whether it did; otherwise the entries are unchanged.
    pub fn push(&mut self, lower: u32) -> bool
        ensures key { self.new.key ≡ self.old.key }
        ensures pushed { IsTrue result → IsPermutation (lower ∷ self.old.lowers) self.new.lowers }
        ensures unchanged { IsFalse result → self.new.lowers ≡ self.old.lowers }
    {
        if fits_at_back(&self.lowers, lower) {
            self.lowers.push_back(lower).is_ok()
        } else if fits_at_front(&self.lowers, lower) {
            self.lowers.push_front(lower).is_ok()
        } else {
            false
        }
    }

    /// Returns the first entry, or `None` if the group is empty.
    pub fn least(&self) -> Option<BucketEntry>
        ensures key { IfSome result (λ entry. key_of entry ≡ self.now.key) }
        ensures member { IfSome result (Contains (entries_in self.now)) }
        ensures first { IfSome result (λ entry. IsBefore entry (entries_in self.now)) }
        ensures none { IfNone result (self.now.lowers ≡ []) }
    {
        let lower = self.lowers.front()?;
        Some(self.key.entry(*lower))
    }

    /// Removes and returns the first entry, or returns `None` if the group is empty.
    pub fn pop(&mut self) -> Option<BucketEntry>
        ensures same_key { self.new.key ≡ self.old.key }
        ensures key { IfSome result (λ entry. key_of entry ≡ self.old.key) }
        ensures first { IfSome result (λ entry. IsBefore entry (entries_in self.old)) }
        ensures rest { IfSome result (λ entry. entries_in self.old ≡ entry ∷ entries_in self.new) }
        ensures none { IfNone result (self.old.lowers ≡ []) }
        ensures empty { IfNone result (self.new.lowers ≡ []) }
    {
        let lower = self.lowers.pop_front()?;
        Some(self.key.entry(lower))
    }

    /// Takes the group apart and returns its lower halves.
    pub fn into_lowers(self) -> VecDeque<u32>
        ensures { result.items ≡ self.lowers }
    {
        let Group { key: _, lowers } = self;
        lowers
    }
}

/// Returns whether the lower halves are still in order with this one at the back.
fn fits_at_back(lowers: &VecDeque<u32>, lower: u32) -> bool
    requires { IsAscending lowers.now.items }
    ensures { IsTrue result → IsAscending (lowers.now.items ++ lower ∷ []) }
{
    match lowers.back() {
        Some(last) => *last <= lower,
        None => true,
    }
}

/// Returns whether the lower halves are still in order with this one at the front.
fn fits_at_front(lowers: &VecDeque<u32>, lower: u32) -> bool
    requires { IsAscending lowers.now.items }
    ensures { IsTrue result → IsAscending (lower ∷ lowers.now.items) }
{
    match lowers.front() {
        Some(first) => lower <= *first,
        None => true,
    }
}
