//! Diversification: many orders are evaluated, and those are stored that improve the heuristic value of a sample
//! (Seipp, Keller and Helmert 2020).

use crate::batch::{BATCH, evaluate_all, new_batch};
use crate::candidate::{Candidate, Column, Setting};
use crate::greedy::set_greedy_order;
use crate::scores::score_of;
use rand_xoshiro::SplitMix64;
use scp_samples::{Pool, below};
use std::alloc::{AllocError, Global};
use std::cmp::Reverse;
use std::thread::Threads;

/// The number of samples that Seipp, Keller and Helmert use.
pub const DEFAULT_SAMPLES: usize = 1_000;

/// How much is spent on the choice of orders.
#[derive(Clone, Copy, Debug)]
pub struct Effort {
    /// The number of sampled states, the initial state among them.
    pub samples: usize,
    /// The greatest number of candidates.
    pub candidates: usize,
    /// The number of steps after which no further candidates are evaluated, once there were 4: abstract states and
    /// transitions of each table that is computed.
    pub steps: u64,
}

/// Orders of this many new candidates may have all abstractions with a positive distance. Later ones have only those
/// with a table in a stored column.
const WITH_ALL: usize = 12;

/// Columns that improve the value of a sample.
#[derive(Drop)]
pub(crate) struct Stored {
    pub(crate) columns: Vec<Column>,
    /// The greatest value of each sample in a stored column.
    best: Vec<u64>,
    /// For each entry of the pool, whether it has a table in a stored column.
    is_used: Vec<bool>,
    /// The number of candidates so far.
    count: usize,
    /// The sum of their steps.
    steps: u64,
}

/// Evaluates candidates in batches.
#[derive(Drop)]
pub(crate) struct Diversifier {
    pub(crate) stored: Stored,
    /// The candidates of a batch. Those that are not used have an empty order.
    batch: Vec<Candidate>,
    /// The scored entries of the pool. This is a buffer.
    scored: Vec<(Reverse<u128>, usize)>,
}

/// Raises the greatest values to these values. Returns whether one was raised.
pub(crate) fn raise(best: &mut [u64], values: &[u64]) -> bool {
    let mut is_raised = false;
    for sample in 0..best.len().min(values.len()) {
        if best[sample] < values[sample] {
            best[sample] = values[sample];
            is_raised = true;
        }
    }
    is_raised
}

/// For each entry of the pool, whether a distance under full costs is finite and positive.
pub(crate) fn positive_entries(alloc: Global, pool: &Pool<'_>) -> Result<Vec<bool>, AllocError> {
    let mut positive = Vec::with_capacity(alloc, pool.entries.len())?;
    for entry in &pool.entries {
        positive.push(!entry.shares.is_empty())?;
    }
    Ok(positive)
}

/// Returns the number of the sample for a new candidate: each sample three times, once for each score, and random
/// samples once there is no further one.
fn sample_of(candidate: usize, samples: usize, words: &mut SplitMix64) -> usize {
    let in_turn = candidate / 3;
    if in_turn < samples {
        in_turn
    } else {
        below(words, samples.max(1)) // not 0, only for the proof
    }
}

/// Sets the orders of the candidates, which are empty, to these orders.
fn set_orders(batch: &mut [Candidate], orders: &[Vec<usize>]) -> Result<(), AllocError> {
    for (candidate, order) in batch.iter_mut().zip(orders) {
        candidate.order.extend_from_slice(order)?;
    }
    Ok(())
}

impl Stored {
    /// Stores the column of the candidate if it raises the best value of a sample or is the first with a table.
    fn offer(&mut self, alloc: Global, candidate: &Candidate) -> Result<(), AllocError> {
        let column = candidate.column()?;
        self.count = self.count.saturating_add(1);
        self.steps = self.steps.saturating_add(column.steps);
        let is_first = self.columns.is_empty() && !column.order.is_empty();
        if raise(&mut self.best, &column.values) || is_first {
            for index in &column.order {
                if *index < self.is_used.len() {
                    self.is_used[*index] = true;
                }
            }
            self.columns.push(column.copied(alloc)?)?;
        }
        Ok(())
    }

    /// Returns whether no further candidates are to be evaluated.
    fn is_done(&self, effort: &Effort) -> bool {
        self.count >= effort.candidates || (self.count >= 4 && self.steps > effort.steps)
    }
}

impl Diversifier {
    /// Returns no candidates yet.
    pub(crate) fn new(setting: Setting<'_>) -> Result<Diversifier, AllocError> {
        let alloc = setting.alloc;
        Ok(Diversifier {
            stored: Stored {
                columns: Vec::new(alloc),
                best: vec![in alloc; 0; setting.samples.count]?,
                is_used: vec![in alloc; false; setting.pool.entries.len()]?,
                count: 0,
                steps: 0,
            },
            batch: new_batch(alloc)?,
            scored: Vec::new(alloc),
        })
    }

    /// Evaluates the orders of the batch, and offers the columns of the first `count` of them in turn.
    fn try_batch<R: Threads + Sync>(
        &mut self,
        rt: &R,
        setting: Setting<'_>,
        count: usize,
    ) -> Result<(), AllocError> {
        evaluate_all(rt, setting, &mut self.batch);
        for candidate in self.batch.iter().take(count) {
            self.stored.offer(setting.alloc, candidate)?;
        }
        Ok(())
    }

    /// Evaluates the orders of an earlier stage, which are indices into the pool, until enough is spent.
    pub(crate) fn try_earlier<R: Threads + Sync>(
        &mut self,
        rt: &R,
        setting: Setting<'_>,
        earlier: &[Vec<usize>],
        effort: &Effort,
    ) -> Result<(), AllocError> {
        let most = earlier.len().min(effort.candidates);
        for orders in earlier[..most].chunks(BATCH) {
            if self.stored.is_done(effort) {
                break;
            }
            set_orders(&mut self.batch, orders)?;
            self.try_batch(rt, setting, orders.len())?;
        }
        Ok(())
    }

    /// Sets the orders of the batch to the greedy orders of the new candidates from number `first` to before `end`.
    fn set_greedy(
        &mut self,
        setting: Setting<'_>,
        first: usize,
        end: usize,
        positive: &[bool],
        words: &mut SplitMix64,
    ) -> Result<(), AllocError> {
        for (number, candidate) in (first..end).zip(self.batch.iter_mut()) {
            let sample = sample_of(number, setting.samples.count, words);
            let score = score_of(number);
            let (scored, order) = (&mut self.scored, &mut candidate.order);
            if number < WITH_ALL {
                set_greedy_order(setting, sample, score, positive, scored, order)?;
            } else {
                let used = &self.stored.is_used;
                set_greedy_order(setting, sample, score, used, scored, order)?;
            }
        }
        Ok(())
    }

    /// Evaluates greedy orders until enough is spent.
    pub(crate) fn try_greedy<R: Threads + Sync>(
        &mut self,
        rt: &R,
        setting: Setting<'_>,
        effort: &Effort,
        words: &mut SplitMix64,
    ) -> Result<(), AllocError> {
        let positive = positive_entries(setting.alloc, setting.pool)?;
        let most = effort.candidates.saturating_sub(self.stored.count);
        let mut first = 0;
        while first < most && !self.stored.is_done(effort) {
            let end = first + BATCH.min(most - first);
            self.set_greedy(setting, first, end, &positive, words)?;
            self.try_batch(rt, setting, end - first)?;
            first = end;
        }
        Ok(())
    }
}
