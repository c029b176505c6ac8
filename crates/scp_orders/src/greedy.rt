//! Greedy orders of the pool for a state (Seipp, Keller and Helmert 2020).

use crate::candidate::Setting;
use crate::scores::{Score, excess_bits, score_value};
use std::alloc::AllocError;
use std::cmp::Reverse;

/// Returns the distance of a sample under full costs in the entry with this index, and 0 if there is none.
fn distance_of(setting: Setting<'_>, sample: usize, index: usize) -> u64 {
    let Some(entry) = setting.pool.entries.get(index) else {
        return 0;
    };
    let Some(states) = setting.samples.abstract_states.get(index) else {
        return 0;
    };
    match states.get(sample) {
        Some(state) => entry.height(*state).unwrap_or(0),
        None => 0,
    }
}

/// Returns the greatest distance of a sample under full costs.
fn greatest_distance(setting: Setting<'_>, sample: usize) -> u64 {
    let mut greatest = 0;
    for index in 0..setting.pool.entries.len() {
        greatest = distance_of(setting, sample, index).max(greatest);
    }
    greatest
}

/// Replaces the content of `scored` by the entries that may be in an order, with their scores for a sample.
fn set_scores(
    setting: Setting<'_>,
    sample: usize,
    score: Score,
    may_be_in: &[bool],
    scored: &mut Vec<(Reverse<u128>, usize)>,
) -> Result<(), AllocError> {
    let excess = excess_bits(greatest_distance(setting, sample));
    scored.clear();
    for (index, is_in) in may_be_in.iter().enumerate() {
        if *is_in {
            let distance = distance_of(setting, sample, index);
            let stolen = setting.pool.stolen.get(index).copied().unwrap_or(0);
            let value = score_value(score, distance, stolen, excess);
            scored.push((Reverse(value), index))?;
        }
    }
    Ok(())
}

/// Replaces the content of `order` by the indices of the entries that may be in it, by their scores for a sample: the
/// greatest first, and those of equal score in the order of the pool. `scored` is a buffer.
pub(crate) fn set_greedy_order(
    setting: Setting<'_>,
    sample: usize,
    score: Score,
    may_be_in: &[bool],
    scored: &mut Vec<(Reverse<u128>, usize)>,
    order: &mut Vec<usize>,
) -> Result<(), AllocError> {
    set_scores(setting, sample, score, may_be_in, scored)?;
    scored.sort_unstable();
    order.clear();
    for (_, index) in &*scored {
        order.push(*index)?;
    }
    Ok(())
}
