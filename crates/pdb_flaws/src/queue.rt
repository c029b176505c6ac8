//! A monotone priority queue.

use crate::numbers::{NONE, short};
use std::alloc::{AllocError, Global};

/// The number of buckets: one for each position of the highest bit in which a key of 64 bits differs from another,
/// and one for the keys that do not differ.
const BUCKETS: usize = 65;

/// An entry of the queue.
#[derive(Clone, Copy)]
struct Item {
    key: u64,
    state: u32,
    /// The next entry in its bucket, or `NONE`.
    next: u32,
}

/// An entry that was removed: an abstract state, with the key under which it was added.
#[derive(Clone, Copy)]
pub(crate) struct Least {
    pub(crate) key: u64,
    pub(crate) state: u32,
}

/// A priority queue from which keys are removed in increasing order: a radix heap (Ahuja, Mehlhorn, Orlin and Tarjan
/// 1990). A key that is added must be at least the last one that was removed.
#[derive(Drop)]
pub(crate) struct RadixQueue {
    items: Vec<Item>,
    /// The first entry of each bucket, or `NONE`. Bucket 0 has the keys that equal `last`, and bucket b those that
    /// differ from it in bit b - 1, counted from 0, and in none above.
    heads: Vec<u32>,
    last: u64,
}

impl RadixQueue {
    /// Makes an empty queue with memory for this number of entries. It grows if there are more.
    pub(crate) fn new(alloc: Global, entries: usize) -> Result<RadixQueue, AllocError> {
        Ok(RadixQueue {
            items: Vec::with_capacity(alloc, entries)?,
            heads: vec![in alloc; NONE; BUCKETS]?,
            last: 0,
        })
    }

    /// Removes all entries. Keys of any size can be added then.
    pub(crate) fn clear(&mut self) {
        self.items.clear();
        self.last = 0;
        for head in self.heads.iter_mut() {
            *head = NONE;
        }
    }

    /// Makes an entry the first of its bucket.
    fn link(&mut self, position: usize) {
        let Some(item) = self.items.get(position).copied() else {
            return;
        };
        let bucket = 64usize.saturating_sub((item.key ^ self.last).leading_zeros() as usize);
        let Some(head) = self.heads.get(bucket).copied() else {
            return;
        };
        if position < self.items.len() && bucket < self.heads.len() {
            self.items[position] = Item { next: head, ..item };
            self.heads[bucket] = short(position);
        }
    }

    /// Adds a state.
    pub(crate) fn push(&mut self, key: u64, state: u32) -> Result<(), AllocError> {
        let position = self.items.len();
        self.items.push(Item {
            key,
            state,
            next: NONE,
        })?;
        self.link(position);
        Ok(())
    }

    /// Returns the first bucket that is not empty.
    fn first_bucket(&self) -> Option<usize> {
        self.heads.iter().position(|head| *head != NONE)
    }

    /// Returns the least key in the list that begins with an entry.
    fn least_key(&self, head: u32) -> u64 {
        let mut least = u64::MAX;
        let mut position = head;
        for _ in 0..self.items.len() {
            let Some(item) = self.items.get(position as usize) else {
                break;
            };
            least = least.min(item.key);
            position = item.next;
        }
        least
    }

    /// Moves the entries of the list that begins with an entry to their buckets.
    fn spread(&mut self, head: u32) {
        let mut position = head;
        for _ in 0..self.items.len() {
            let Some(item) = self.items.get(position as usize).copied() else {
                break;
            };
            self.link(position as usize);
            position = item.next;
        }
    }

    /// Moves the entries with the least key to bucket 0, if that is empty. Returns whether the queue has an entry.
    fn prepare(&mut self) -> bool {
        let Some(bucket) = self.first_bucket() else {
            return false;
        };
        if bucket > 0 && bucket < self.heads.len() {
            let head = self.heads[bucket];
            self.heads[bucket] = NONE;
            self.last = self.least_key(head);
            self.spread(head);
        }
        true
    }

    /// Removes an entry with the least key.
    pub(crate) fn pop(&mut self) -> Option<Least> {
        if !self.prepare() {
            return None;
        }
        let head = *self.heads.first()?;
        let item = self.items.get(head as usize).copied()?;
        if !self.heads.is_empty() {
            self.heads[0] = item.next;
        }
        Some(Least {
            key: item.key,
            state: item.state,
        })
    }
}
