//! The entries of one f-value.

ghost use Rattle.std.specs.Prelude.{◌≡◌, ◌≢◌, ◌+◌, ◌-◌, ◌^◌, ◌<◌, ◌≤◌, ◌↔◌, min, [], ◌∷◌, map, Contains, IsTrue, IsFalse, IsOk, IfSome, IfNone, OnOk, OnErr};
ghost use Rattle.std.specs.BinaryHeap.{IsHeap, IsUpperBound, heap_items, heap_len};
ghost use Rattle.std.specs.List.Sorted.{IsPermutation};
ghost use Rattle.std.specs.declared.cmp.Reverse.{Reverse};
ghost use Rattle.openlist.specs.declared.bucket_entry.BucketEntry.{BucketEntry};
ghost use Rattle.openlist.specs.BucketOrder.{IsBefore};
ghost use Rattle.openlist.specs.OpenLists.{IsFirst};

use crate::bucket_entry::BucketEntry;
use crate::entry::OpenEntry;
use crate::groups::Groups;
use std::alloc::{AllocError, Global};
use std::cmp::Reverse;
use std::collections::BinaryHeap;
use std::marker::Model;

/// The entries of one f-value, ordered by rank and then by index. A bucket does not store its f-value: callers pass it.
///
/// A bucket has two parts, groups and a binary heap. An entry goes to the group of its rank and of the upper half of
/// its index if it comes after all entries of that group or before all of them: it takes 4 bytes there, and its push
/// and its pop take constant time on average. Any other entry goes into the heap, in which a push or a pop takes time
/// logarithmic in the number of entries there, as does an entry for whose group there is no memory. The first entry of
/// the bucket is the first of the groups or the first of the heap.
#[derive(Drop)]
pub struct Bucket {
    /// The entries that were pushed in the order of their group, or in the reverse of it.
    groups: Groups,
    /// The other entries, reversed: a binary heap pops its greatest element, and the first entry is the least one.
    heap: BinaryHeap<Reverse<BucketEntry>>,
    /// The number of entries for which the current or last call of `reserve` of the open list has requested room.
    asked: usize,
}

impl Model for Bucket {
    ghost use Rattle.std.specs.Prelude.{◌-◌, ◌++◌, map};
    ghost use Rattle.std.specs.BinaryHeap.{IsHeap, heap_capacity, heap_items, heap_len};
    ghost use Rattle.openlist.specs.BucketLists.{BucketHeld};

    ghost Value = { BucketHeld };

    ghost view = { λ it. record {
      entries = it.groups ++ map (λ r. r.0) (heap_items it.heap);
      spare = heap_capacity it.heap - heap_len it.heap;
      asked = it.asked;
    } };

    ghost invariant = { λ it. IsHeap ⟦<Reverse<BucketEntry> as Ord>⟧.cmp (heap_items it.heap) };
}

impl Bucket {
    ghost use Rattle.openlist.specs.BucketLists.{with_f};

    /// Returns an empty bucket.
    pub fn new(alloc: Global) -> Bucket
        ensures { result.entries ≡ [] }
    {
        Bucket {
            groups: Groups::new(alloc),
            heap: BinaryHeap::new(alloc),
            asked: 0,
        }
    }

    /// Returns whether the bucket has no entry.
    pub fn is_empty(&self) -> bool
        ensures { IsTrue result ↔ (self.now.entries ≡ []) }
    {
        self.groups.is_empty() && self.heap.is_empty()
    }

    /// Resets the number of entries for which `reserve` requests room.
    pub fn begin_reserve(&mut self)
        ensures entries { self.new.entries ≡ self.old.entries }
    {
        self.asked = 0;
    }

    /// Makes room in the heap, to which an entry may always go, for one entry more than requested so far. The entries
    /// are unchanged, also on failure.
    pub fn reserve_one_more(&mut self) -> Result<(), AllocError>
        ensures entries { self.new.entries ≡ self.old.entries }
        ensures asked { self.new.asked ≡ min (self.old.asked + 1) (2 ^ 64 - 1) }
        ensures spare { self.old.spare ≤ self.new.spare }
        ensures room { OnOk result (self.new.asked ≤ self.new.spare) }
    {
        self.asked = self.asked.saturating_add(1);
        self.heap.reserve(self.asked)
    }

    /// Adds an entry of the bucket's f-value. On failure the entries are unchanged.
    pub fn push(&mut self, entry: OpenEntry) -> Result<(), AllocError>
        ensures pushed { OnOk result (IsPermutation (entry ∷ map (with_f entry.f) self.old.entries)
            (map (with_f entry.f) self.new.entries)) }
        ensures unchanged { OnErr result (self.new.entries ≡ self.old.entries) }
        ensures succeeds { 0 < self.old.spare → IsOk result }
        ensures room { self.old.spare ≤ self.new.spare + 1 }
    {
        let added = BucketEntry {
            rank: entry.rank,
            index: entry.index,
        };
        if self.groups.push(&added) {
            Ok(())
        } else {
            Ok(self.heap.push(Reverse(added))?)
        }
    }

    /// Removes and returns the first entry of the bucket of f-value `f`, or returns `None` if it is empty.
    pub fn pop(&mut self, f: u64) -> Option<OpenEntry>
        ensures value { IfSome result (λ e. e.f ≡ f) }
        ensures first { IfSome result (λ e. IsFirst e (map (with_f f) self.old.entries)) }
        ensures rest { IfSome result (λ e. IsPermutation (map (with_f f) self.old.entries)
            (e ∷ map (with_f f) self.new.entries)) }
        ensures none { IfNone result (self.old.entries ≡ []) }
        ensures empty { IfNone result (self.new.entries ≡ []) }
        ensures room { self.old.spare ≤ self.new.spare }
    {
        if is_group_first(&self.groups, &self.heap) {
            let entry = self.groups.pop()?;
            Some(entry.with_f(f))
        } else {
            let Reverse(entry) = self.heap.pop()?;
            Some(entry.with_f(f))
        }
    }

    /// Returns the first entry of the bucket of f-value `f`, or `None` if it is empty.
    pub fn least(&self, f: u64) -> Option<OpenEntry>
        ensures value { IfSome result (λ e. e.f ≡ f) }
        ensures member { IfSome result (Contains (map (with_f f) self.now.entries)) }
        ensures first { IfSome result (λ e. IsFirst e (map (with_f f) self.now.entries)) }
        ensures none { IfNone result (self.now.entries ≡ []) }
    {
        if is_group_first(&self.groups, &self.heap) {
            let entry = self.groups.least()?;
            Some(entry.with_f(f))
        } else {
            let Reverse(entry) = self.heap.peek()?;
            Some(entry.with_f(f))
        }
    }
}

/// Returns whether the groups have an entry and their first one comes before the heap's entries or is equal to the
/// first of them.
fn is_group_first(groups: &Groups, heap: &BinaryHeap<Reverse<BucketEntry>>) -> bool
    requires { IsHeap ⟦<Reverse<BucketEntry> as Ord>⟧.cmp (heap_items heap.now) }
    ensures groups_filled { IsTrue result → groups.now ≢ [] }
    ensures group_first { IsTrue result → (e : BucketEntry) →
        IsBefore e groups.now → IsBefore e (map (λ r. r.0) (heap_items heap.now)) }
    ensures heap_filled { IsFalse result → groups.now ≢ [] → 0 < heap_len heap.now }
    ensures heap_first { IsFalse result → (r : Reverse BucketEntry) →
        IsUpperBound ⟦<Reverse<BucketEntry> as Ord>⟧.cmp r (heap_items heap.now) → IsBefore r.0 groups.now }
{
    let Some(first) = groups.least() else {
        return false;
    };
    match heap.peek() {
        Some(Reverse(least)) => first <= *least,
        None => true,
    }
}
