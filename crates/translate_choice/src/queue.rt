//! The priority queue of the groups.

ghost use Rattle.std.specs.Prelude.{◌≡◌, ◌<◌, ◌∷◌, [], ◌⊎◌, length, All, IfSome, IfNone, OnSome, OnOk};
ghost use Rattle.std.specs.List.Sorted.{IsPermutation};
ghost use Rattle.translate_choice.specs.Greedy.{GoesFirst, IsQueued, Keeps};

use std::alloc::{AllocError, Global};
use std::cmp::Reverse;
use std::collections::BinaryHeap;
use std::marker::Model;

/// A group, by its number, and the number of its atoms that were left when it was queued. The greatest candidate is the
/// largest group, and of several the earliest.
#[derive(Debug, Clone, Copy, PartialEq, Eq, PartialOrd, Ord)]
pub(crate) struct Candidate {
    pub(crate) size: usize,
    pub(crate) group: Reverse<usize>,
}

/// Groups by the number of their untaken atoms. A group is queued again each time that it loses atoms; its outdated
/// candidates remain in the queue.
#[derive(Drop)]
pub(crate) struct Queue {
    heap: BinaryHeap<Candidate>,
}

impl Model for Queue {
    ghost use Rattle.std.specs.Prelude.{List};
    ghost use Rattle.std.specs.BinaryHeap.{IsHeap, heap_items};
    ghost use Rattle.translate_choice.specs.declared.queue.Candidate.{Candidate as Candidates};

    ghost Value = { List Candidates };

    ghost view = { λ q. heap_items q.heap };

    ghost invariant = { λ q. IsHeap ⟦<Candidate as Ord>⟧.cmp (heap_items q.heap) };
}

impl Queue {
    pub(crate) fn new(alloc: Global) -> Queue
        ensures { result ≡ [] }
    {
        Queue {
            heap: BinaryHeap::new(alloc),
        }
    }

    /// Queues the group with this number of atoms.
    pub(crate) fn push(&mut self, size: usize, group: usize) -> Result<(), AllocError>
        ensures keeps { OnOk result (Keeps self.old self.new) }
        ensures queued { OnOk result (IsQueued self.new size group) }
    {
        self.heap.push(Candidate {
            size,
            group: Reverse(group),
        })?;
        Ok(())
    }

    /// Removes the first candidate from the queue and returns it.
    pub(crate) fn pop(&mut self) -> Option<Candidate>
        ensures none { IfNone result (self.old ≡ []) }
        ensures shorter { OnSome result (length self.new < length self.old) }
        ensures rest { IfSome result (λ c. IsPermutation self.old (c ∷ self.new)) }
        ensures first { IfSome result (λ c. All (λ d. GoesFirst c.size c.group.0 d.size d.group.0) self.old) }
    {
        self.heap.pop()
    }
}
