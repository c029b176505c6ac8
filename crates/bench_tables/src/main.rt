//! Computes the tables of a task and evaluates lower bounds, for the benchmark of tables:
//! `bench_tables TASK LIMIT TIMES`.
#![tactic(auto)]

mod states;

ghost use Rattle.std.specs.Prelude.{◌<◌, length, All};
ghost use Rattle.fdr.specs.Tasks.{ranges, IsState};

use crate::states::draw_states;
use bench_input::{MAX_TABLE, status_of, task_in, words_of_call};
use cost::Dist;
use fdr::FdrTask;
use optplan_device::{Device, ProcessDevice};
use scp::{Columns, choose_columns};
use std::alloc::{AllocError, Global};
use std::process::ExitCode;
use std::thread::Threads;

/// Returns the greatest of `times` lower bounds, for one state after the other and then again from the first.
fn greatest_bound(columns: &Columns<'_>, states: &[Vec<u32>], times: usize) -> Dist
    requires some { 0 < length states.now }
    requires states { All (λ state. IsState (ranges columns.now.task) state.items) states.now }
{
    let mut greatest = Dist::ZERO;
    for time in 0..times {
        greatest = greatest.max(columns.h(&states[time % states.len()]));
    }
    greatest
}

/// Returns the number of tables in all columns, capped at `usize::MAX`.
fn table_count(columns: &Columns<'_>) -> usize {
    let mut count: usize = 0;
    for column in columns.tables() {
        count = count.saturating_add(column.len());
    }
    count
}

/// Returns the line that the program prints. `None` if the limit is out of range.
fn answer<R: Threads + Sync>(
    rt: &R,
    alloc: Global,
    task: &FdrTask,
    limit: usize,
    times: usize,
) -> Result<Option<String>, AllocError> {
    if limit < 1 || limit > MAX_TABLE {
        return Ok(None);
    }
    let columns = choose_columns(rt, alloc, task, limit)?;
    let states = draw_states(alloc, task)?;
    let tables = table_count(&columns);
    let initial = columns.h(task.initial());
    let greatest = greatest_bound(&columns, &states, times);
    let line = format!(in alloc;
        "{tables} tables, {initial} from the initial state, {greatest} at most\n"
    )?;
    Ok(Some(line))
}

/// Prints the answer for a file and two numbers, and returns whether it did.
fn put_answer<D: Device, R: Threads + Sync>(
    rt: &R,
    alloc: Global,
    device: &mut D,
    words: &[String],
) -> bool {
    let [_, task, limit, times] = words else {
        return false;
    };
    let (Ok(limit), Ok(times)) = (limit.parse::<usize>(), times.parse::<usize>()) else {
        return false;
    };
    let Some(task) = task_in(alloc, device, task.as_str()) else {
        return false;
    };
    match answer(rt, alloc, &task, limit, times) {
        Ok(Some(line)) => device.out(line.as_bytes()).is_ok(),
        _ => false,
    }
}

fn main(rt: HostRuntime) -> ExitCode {
    let Some(words) = words_of_call(&rt) else {
        return ExitCode::from(6);
    };
    let mut device = ProcessDevice::new(&rt);
    status_of(put_answer(&rt, rt.alloc(), &mut device, &words))
}
