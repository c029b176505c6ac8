//! An open list as a binary heap.

ghost use Rattle.std.specs.Prelude.{◌≡◌, ◌≤◌, [], OnOk};

use crate::entry::OpenEntry;
use crate::open_list::OpenList;
use std::alloc::{AllocError, Global};
use std::cmp::Reverse;
use std::collections::BinaryHeap;
use std::marker::Model;

/// An open list as a binary heap (Williams 1964): a push or a pop takes time logarithmic in the number of entries,
/// `least` takes constant time. In contracts its value is the entries, in the heap's own order, and the number of
/// entries that still fit without an allocation.
#[derive(Drop)]
pub struct Heap {
    /// The entries, reversed: a binary heap pops its greatest element, and the first entry is the least one.
    heap: BinaryHeap<Reverse<OpenEntry>>,
}

impl Model for Heap {
    ghost use Rattle.std.specs.Prelude.{◌-◌, map};
    ghost use Rattle.std.specs.BinaryHeap.{IsHeap, heap_capacity, heap_items, heap_len};
    ghost use Rattle.openlist.specs.Heaps.{Held};

    ghost Value = { Held };

    ghost view = { λ it. record {
      entries = map (λ r. r.0) (heap_items it.heap);
      spare = heap_capacity it.heap - heap_len it.heap;
    } };

    ghost invariant = { λ it. IsHeap ⟦<Reverse<OpenEntry> as Ord>⟧.cmp (heap_items it.heap) };
}

impl Heap {
    /// Returns an empty open list.
    pub fn new(alloc: Global) -> Heap
        ensures { result.entries ≡ [] }
    {
        Heap {
            heap: BinaryHeap::new(alloc),
        }
    }

    /// Makes room for `count` more entries. The entries are unchanged, also on failure.
    pub(crate) fn reserve_more(&mut self, count: usize) -> Result<(), AllocError>
        ensures entries { self.new.entries ≡ self.old.entries }
        ensures room { OnOk result (count ≤ self.new.spare) }
    {
        self.heap.reserve(count)
    }
}

#[tactic(auto, unfolding(crate::specs::Heaps::HasRoomFor))]
impl OpenList for Heap {
    ghost use Rattle.openlist.specs.Heaps.{HasRoomFor, has_room_for_fewer};

    ghost entries = { λ h. h.entries };

    ghost HasRoom = { HasRoomFor };

    ghost fewer = { has_room_for_fewer };

    fn reserve(&mut self, fs: &[u64]) -> Result<(), AllocError> {
        self.heap.reserve(fs.len())
    }

    fn push(&mut self, entry: OpenEntry) -> Result<(), AllocError> {
        self.heap.push(Reverse(entry))?;
        Ok(())
    }

    fn pop(&mut self) -> Option<OpenEntry> {
        let Reverse(entry) = self.heap.pop()?;
        Some(entry)
    }

    fn least(&self) -> Option<OpenEntry> {
        let Reverse(entry) = self.heap.peek()?;
        Some(*entry)
    }
}
