//! Searches a task with threads, for the benchmark of the engine: `bench_engine TASK WORKERS RING TABLE LIMIT
//! ORDER`, with the order `fresh`, `shallow` or `deep` among states of the same f-value.
#![tactic(auto)]

mod report;
mod searching;
mod sums;

ghost use Rattle.std.specs.Prelude.{◌≤◌, ◌^◌};

use crate::report::Report;
use crate::searching::searched_in_smallest_form;
use bench_input::{MAX_TABLE, columns_within, status_of, task_in, ties_of, words_of_call};
use engine::EngineFault;
use fdr::FdrTask;
use optplan_device::{Device, ProcessDevice};
use owner::{Space, Ties};
use packed_spread::Zobrist;
use std::alloc::Global;
use std::process::ExitCode;
use std::sync::Wait;
use std::thread::Threads;
use std::time::Clock;

/// The greatest number of workers.
const MAX_WORKERS: usize = 64;

/// The size of a search: the number of workers, the capacity of a link in messages, the greatest number of abstract
/// states of a table, and the greatest number of nodes that each worker expands.
#[derive(Clone, Copy)]
struct Amounts {
    workers: usize,
    ring: usize,
    table: usize,
    limit: u64,
}

/// Returns the report of the search of a task.
fn searched<'a, R: Threads + Wait + Clock + Sync>(
    rt: &R,
    alloc: Global,
    task: &'a FdrTask,
    amounts: Amounts,
    ties: Ties,
) -> Result<Report, EngineFault>
    requires table { amounts.table ≤ 2 ^ 24 }
    requires workers { 1 ≤ amounts.workers }
{
    let columns = columns_within(rt, alloc, task, amounts.table)?;
    let spread = Zobrist::projected(alloc, task)?;
    let space: Space<'a, Zobrist<'a>> = Space::new(
        alloc,
        task,
        columns,
        spread,
        Some(amounts.limit),
        ties,
    )?;
    searched_in_smallest_form(rt, alloc, &space, amounts.workers, amounts.ring)
}

/// Returns the report that the program prints. `None` if an amount is out of range.
fn answer<R: Threads + Wait + Clock + Sync>(
    rt: &R,
    alloc: Global,
    task: &FdrTask,
    amounts: Amounts,
    ties: Ties,
) -> Result<Option<Report>, EngineFault> {
    if amounts.workers < 1 || amounts.workers > MAX_WORKERS || amounts.table > MAX_TABLE {
        return Ok(None);
    }
    Ok(Some(searched(rt, alloc, task, amounts, ties)?))
}

/// Returns the four amounts of the command line.
fn amounts_of(workers: &str, ring: &str, table: &str, limit: &str) -> Option<Amounts> {
    let (Ok(workers), Ok(ring)) = (workers.parse(), ring.parse()) else {
        return None;
    };
    let (Ok(table), Ok(limit)) = (table.parse(), limit.parse()) else {
        return None;
    };
    Some(Amounts {
        workers,
        ring,
        table,
        limit,
    })
}

/// Prints the report for a file, four numbers and an order, and returns whether it did.
fn put_answer<D: Device, R: Threads + Wait + Clock + Sync>(
    rt: &R,
    alloc: Global,
    device: &mut D,
    words: &[String],
) -> bool {
    let [_, task, workers, ring, table, limit, order] = words else {
        return false;
    };
    let Some(amounts) = amounts_of(
        workers.as_str(),
        ring.as_str(),
        table.as_str(),
        limit.as_str(),
    ) else {
        return false;
    };
    let Some(ties) = ties_of(order.as_str()) else {
        return false;
    };
    let Some(task) = task_in(alloc, device, task.as_str()) else {
        return false;
    };
    match answer(rt, alloc, &task, amounts, ties) {
        Ok(Some(report)) => report.put(device),
        _ => false,
    }
}

fn main(rt: HostRuntime) -> ExitCode {
    let Some(words) = words_of_call(&rt) else {
        return ExitCode::from(6);
    };
    let mut device = ProcessDevice::new(&rt);
    status_of(put_answer(&rt, rt.alloc(), &mut device, &words))
}
