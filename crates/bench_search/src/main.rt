//! Searches a task for a given number of steps, for the benchmark of searches: `bench_search TASK OWNERS STEPS TABLE`.
#![tactic(auto)]

mod alone;
mod together;

ghost use Rattle.std.specs.Prelude.{◌≤◌, ◌^◌};

use crate::alone::alone_in_smallest_form;
use crate::together::together_in_smallest_form;
use bench_input::{MAX_TABLE, columns_within, status_of, task_in, words_of_call};
use fdr::FdrTask;
use optplan_device::{Device, ProcessDevice};
use owner::{OwnerFault, Space, Ties};
use packed_spread::Zobrist;
use std::alloc::Global;
use std::process::ExitCode;
use std::thread::Threads;

/// The greatest number of owners.
const MAX_OWNERS: usize = 64;

/// The size of a search: the number of owners, the number of steps, and the greatest number of abstract states of a
/// table.
#[derive(Clone, Copy)]
struct Amounts {
    owners: usize,
    steps: u64,
    table: usize,
}

/// Returns the line for the search of a task.
fn searched<'a, R: Threads + Sync>(
    rt: &R,
    alloc: Global,
    task: &'a FdrTask,
    amounts: Amounts,
) -> Result<String, OwnerFault>
    requires table { amounts.table ≤ 2 ^ 24 }
    requires owners { 1 ≤ amounts.owners }
{
    let columns = columns_within(rt, alloc, task, amounts.table)?;
    let spread = Zobrist::new(alloc, task)?;
    let space: Space<'a, Zobrist<'a>> = Space::new(
        alloc,
        task,
        columns,
        spread,
        None,
        Ties::Shallow,
    )?;
    if amounts.owners == 1 {
        alone_in_smallest_form(alloc, &space, amounts.steps)
    } else {
        together_in_smallest_form(alloc, &space, amounts.owners, amounts.steps)
    }
}

/// Returns the line that the program prints. `None` if an amount is out of range.
fn answer<R: Threads + Sync>(
    rt: &R,
    alloc: Global,
    task: &FdrTask,
    amounts: Amounts,
) -> Result<Option<String>, OwnerFault> {
    if amounts.owners < 1 || amounts.owners > MAX_OWNERS || amounts.table > MAX_TABLE {
        return Ok(None);
    }
    Ok(Some(searched(rt, alloc, task, amounts)?))
}

/// Returns the three amounts of the command line.
fn amounts_of(owners: &str, steps: &str, table: &str) -> Option<Amounts> {
    let (Ok(owners), Ok(steps), Ok(table)) = (owners.parse(), steps.parse(), table.parse()) else {
        return None;
    };
    Some(Amounts {
        owners,
        steps,
        table,
    })
}

/// Prints the answer for a file and three numbers, and returns whether it did.
fn put_answer<D: Device, R: Threads + Sync>(
    rt: &R,
    alloc: Global,
    device: &mut D,
    words: &[String],
) -> bool {
    let [_, task, owners, steps, table] = words else {
        return false;
    };
    let Some(amounts) = amounts_of(owners.as_str(), steps.as_str(), table.as_str()) else {
        return false;
    };
    let Some(task) = task_in(alloc, device, task.as_str()) else {
        return false;
    };
    match answer(rt, alloc, &task, amounts) {
        Ok(Some(line)) => device.out(line.as_bytes()).is_ok(),
        _ => false,
    }
}

fn main(rt: HostRuntime) -> ExitCode {
    let Some(words) = words_of_call(&rt) else {
        return ExitCode::from(6);
    };
    let mut device = ProcessDevice::new(&rt);
    status_of(put_answer(&rt, rt.alloc(), &mut device, &words))
}
