//! The choice of orders.

ghost use Rattle.std.specs.Prelude.{◌≢◌, ◌≤◌, ◌^◌, [], map, All, IfOk};
ghost use Rattle.abstraction_mapping.specs.Views.{mapping_of};
ghost use Rattle.pdb_patterns.specs.Choices.{IsMappingWithin};
ghost use Rattle.scp_orders.specs.Orders.{AreOrders, IsChoice, mappings_of};

use crate::candidate::{Candidate, Column, Setting};
use crate::diversifier::{Diversifier, Effort, positive_entries, raise};
use crate::greedy::set_greedy_order;
use crate::orders::{MAX_COLUMNS, orders_or_first};
use crate::scores::Score;
use abstraction_mapping::Mapping;
use fdr::FdrTask;
use rand_xoshiro::SplitMix64;
use scp_samples::{Pool, Samples, abstractions_by, append_dead_ends, first_dead_end, plan_length};
use std::alloc::{AllocError, Global};
use std::thread::Threads;

/// Returns the sum of the values.
fn sum_of(values: &[u64]) -> u128 {
    values.iter().fold(0, |sum: u128, value| sum.saturating_add(u128::from(*value)))
}

/// Returns by how much the values raise the sum of the best values.
fn gain_of(values: &[u64], best: &[u64]) -> u128 {
    let mut gain: u128 = 0;
    for sample in 0..values.len().min(best.len()) {
        let more = values[sample].saturating_sub(best[sample]);
        gain = gain.saturating_add(u128::from(more));
    }
    gain
}

/// Returns the first column with the greatest value of the initial state, which is the first sample, and among those
/// with the greatest sum of values.
fn best_initially(stored: &[Column]) -> Option<&Column> {
    let mut best = stored.first()?;
    for column in stored {
        let value = column.values.first().copied().unwrap_or(0);
        let greatest = best.values.first().copied().unwrap_or(0);
        let is_better = value == greatest && sum_of(&column.values) > sum_of(&best.values);
        if value > greatest || is_better {
            best = column;
        }
    }
    Some(best)
}

/// Returns the first column that raises the sum of the best values most, or `None` if none raises it.
fn most_improving<'a>(stored: &'a [Column], best: &[u64]) -> Option<&'a Column> {
    let mut greatest: u128 = 0;
    let mut found = None;
    for column in stored {
        let gain = gain_of(&column.values, best);
        if gain > greatest {
            greatest = gain;
            found = Some(column);
        }
    }
    found
}

/// Returns the orders of the columns that are chosen: the best one for the initial state, and then always the one that
/// improves the values of the samples most, until there are 8 or none improves them.
fn best_orders(
    alloc: Global,
    stored: &[Column],
    samples: usize,
) -> Result<Vec<Vec<usize>>, AllocError> {
    let mut best = vec![in alloc; 0; samples]?;
    let mut orders = Vec::new(alloc);
    for round in 0..MAX_COLUMNS {
        let next = if round == 0 {
            best_initially(stored)
        } else {
            most_improving(stored, &best)
        };
        let Some(column) = next else {
            break;
        };
        raise(&mut best, &column.values);
        orders.push(Vec::from_slice(alloc, &column.order)?)?;
    }
    Ok(orders)
}

/// Returns the estimated number of operators of a plan, from the value of the initial state in the column of its
/// greedy order. The only sample must be the initial state.
fn estimated_length(setting: Setting<'_>) -> Result<usize, AllocError>
    ensures { IfOk result (λ length. length ≤ 10000) }
{
    let positive = positive_entries(setting.alloc, setting.pool)?;
    let mut candidate = Candidate::new(setting.alloc)?;
    let mut scored = Vec::new(setting.alloc);
    let order = &mut candidate.order;
    set_greedy_order(setting, 0, Score::Quotient, &positive, &mut scored, order)?;
    candidate.evaluate(setting);
    let value = candidate.column()?.values.first().copied().unwrap_or(0);
    Ok(plan_length(setting.pool.task, value))
}

/// Returns the orders that are chosen by the samples, as indices into the pool.
fn orders_for<R: Threads + Sync>(
    rt: &R,
    setting: Setting<'_>,
    earlier: &[Vec<usize>],
    effort: &Effort,
    words: &mut SplitMix64,
) -> Result<Vec<Vec<usize>>, AllocError> {
    let mut diversifier = Diversifier::new(setting)?;
    diversifier.try_earlier(rt, setting, earlier, effort)?;
    diversifier.try_greedy(rt, setting, effort, words)?;
    let columns = &diversifier.stored.columns;
    let mut orders = best_orders(setting.alloc, columns, setting.samples.count)?;
    append_dead_ends(setting.alloc, &mut orders, &setting.samples.has_dead_end)?;
    Ok(orders)
}

/// Returns the chosen orders as indices into the pool.
fn chosen_indices<R: Threads + Sync>(
    rt: &R,
    alloc: Global,
    pool: &Pool<'_>,
    earlier: &[Vec<usize>],
    effort: &Effort,
    words: &mut SplitMix64,
) -> Result<Vec<Vec<usize>>, AllocError> {
    let entries = pool.entries.len();
    if entries == 0 {
        return Ok(Vec::new(alloc));
    }
    let mut samples = Samples::new(alloc, entries, effort.samples)?;
    let mut abstract_states = Vec::new(alloc);
    samples.add(pool, pool.task.initial(), &mut abstract_states)?;
    if samples.count == 0 {
        return first_dead_end(alloc, &samples.has_dead_end);
    }
    let length = estimated_length(Setting {
        alloc,
        pool: &*pool,
        samples: &samples,
    })?;
    let walks = effort.samples.saturating_sub(1);
    samples.add_walks(rt, alloc, pool, walks, length, words)?;
    let setting = Setting {
        alloc,
        pool: &*pool,
        samples: &samples,
    };
    orders_for(rt, setting, earlier, effort, words)
}

/// Chooses at most 8 orders of mappings of the pool, of at most 64 each, for columns by saturated cost partitioning
/// (Seipp, Keller and Helmert 2020); there is one unless the pool is empty. The mappings must be those of the task that
/// retain something of a variable, with at most 2^24 abstract states. `earlier` has orders as indices into the pool,
/// which are evaluated first; other indices and repetitions in them are passed over.
///
/// Orders are compared by the initial state and the ends of random walks; for each of these states there are greedy
/// orders by three scores. An order is stored if its column improves the value of a state. Of these the one with the
/// greatest value of the initial state is chosen, and then always the one that raises the sum of the values most. An
/// order has no abstraction without a positive distance under the remaining costs, but abstractions in which the end of
/// a walk has an infinite distance are appended. If the initial state has an infinite distance in an abstraction, the
/// only order is that abstraction alone. The contract does not specify which mappings are chosen.
///
/// The result does not depend on the number of threads of `rt`. It takes 17 bytes for each abstract state of the pool,
/// 8 for each transition, and 4 for each abstraction and sampled state, besides the memory of 8 tables.
pub fn choose_orders<R: Threads + Sync>(
    rt: &R,
    alloc: Global,
    task: &FdrTask,
    pool: &[Mapping],
    earlier: &[Vec<usize>],
    effort: &Effort,
    words: &mut SplitMix64,
) -> Result<Vec<Vec<Mapping>>, AllocError>
    requires { All (λ m. IsMappingWithin task.now (2 ^ 24) (mapping_of m)) pool.now }
    ensures orders { IfOk result (λ orders. AreOrders task.now (map mappings_of orders.items)) }
    ensures choices { IfOk result (λ orders. All (IsChoice (map mapping_of pool.now)) (map mappings_of orders.items)) }
    ensures some { IfOk result (λ orders. pool.now ≢ [] → orders.items ≢ []) }
{
    let abstractions = abstractions_by(alloc, task, pool)?;
    let prepared = Pool::new(rt, alloc, task, &abstractions)?;
    let indices = chosen_indices(rt, alloc, &prepared, earlier, effort, words)?;
    orders_or_first(alloc, pool, &indices)
}
