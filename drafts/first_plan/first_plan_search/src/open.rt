//! Open lists of best-first searches and of beams.

use crate::entry::Entry;
use rand_core::{Rng, SeedableRng};
use rand_xoshiro::SplitMix64;
use std::alloc::{AllocError, Global};
use std::cmp::Reverse;
use std::collections::BinaryHeap;

/// The open list of a beam: the states of the layer that is expanded, and those that were reached from it.
#[derive(Drop)]
pub struct Layers {
    /// The greatest number of states of a layer.
    width: usize,
    /// What is left of the layer, the best entry last.
    layer: Vec<Entry>,
    /// The entries of the states that were reached.
    next: Vec<Entry>,
    /// Whether a state was left out of a layer.
    has_cut: bool,
    /// The source of ties.
    words: SplitMix64,
}

impl Layers {
    /// Makes the best of the states that were reached the layer.
    fn select(&mut self) {
        self.next.sort_unstable();
        if self.width < self.next.len() {
            self.next.truncate(self.width);
            self.has_cut = true;
        }
        self.next.reverse();
        std::mem::swap(&mut self.layer, &mut self.next);
    }

    /// Removes and returns the next state of the layer, or the first of a new one.
    fn pop(&mut self) -> Option<Entry> {
        if self.layer.is_empty() {
            self.select();
        }
        self.layer.pop()
    }
}

/// The open list of a search.
#[derive(Drop)]
pub enum Open {
    /// That of a best-first search: the least entry comes first, and ties are decided by cost.
    Best(BinaryHeap<Reverse<Entry>>),
    /// That of a beam, whose ties are random.
    Layers(Layers),
}

impl Open {
    /// Returns an empty open list of a best-first search.
    pub fn best(alloc: Global) -> Open {
        Open::Best(BinaryHeap::new(alloc))
    }

    /// Returns an empty open list of a beam, with layers of at most `width` states.
    pub fn layers(alloc: Global, width: usize, seed: u64) -> Open {
        Open::Layers(Layers {
            width,
            layer: Vec::new(alloc),
            next: Vec::new(alloc),
            has_cut: false,
            words: SplitMix64::seed_from_u64(seed),
        })
    }

    /// Returns the number of entries, capped at `usize::MAX`.
    pub fn len(&self) -> usize {
        match self {
            Open::Best(heap) => heap.len(),
            Open::Layers(layers) => layers.layer.len().saturating_add(layers.next.len()),
        }
    }

    /// Returns whether a state was left out of a layer.
    pub fn has_cut(&self) -> bool {
        match self {
            Open::Best(_) => false,
            Open::Layers(layers) => layers.has_cut,
        }
    }

    /// Adds a state that was reached.
    pub fn push(&mut self, key: u64, cost: u64, index: usize) -> Result<(), AllocError> {
        match self {
            Open::Best(heap) => {
                let entry = Entry {
                    key,
                    tie: cost,
                    cost,
                    index,
                };
                heap.push(Reverse(entry))?;
            }
            Open::Layers(layers) => {
                let tie = layers.words.next_u64();
                layers.next.push(Entry {
                    key,
                    tie,
                    cost,
                    index,
                })?;
            }
        }
        Ok(())
    }

    /// Removes and returns the next state.
    pub fn pop(&mut self) -> Option<Entry> {
        match self {
            Open::Best(heap) => {
                let Reverse(entry) = heap.pop()?;
                Some(entry)
            }
            Open::Layers(layers) => layers.pop(),
        }
    }
}
