//! Searches a task with threads, for the benchmarks of stages and of the reduction: `bench_stages TASK WORKERS TABLES
//! TIES REDUCE`, with tables `goal` or `staged`, the order `fresh`, `shallow` or `deep`, and a reduction `on` or `off`.
#![tactic(auto)]

mod counting;

use crate::counting::Counting;
use bench_input::{status_of, task_in, ties_of, words_of_call};
use cert_value::CertificateKind;
use fdr::FdrTask;
use optplan_device::{Device, ProcessDevice};
use optplan_solver::{Answer, Found, MAX_WORKERS, Options, SearchFault, Tables, found_by_threads};
use std::alloc::{AllocError, Global};
use std::process::ExitCode;
use std::sync::Wait;
use std::thread::Threads;
use std::time::Clock;

/// Returns the line for what a search has found.
fn line_of(alloc: Global, found: &Found) -> Result<String, AllocError> {
    match found {
        Answer::Solved(solution) => format!(in alloc; "settled {}\n", solution.found.cost),
        Answer::Unsolvable(_) => String::from_str(alloc, "settled infinite\n"),
        Answer::Limit(known) => format!(in alloc; "at least {}\n", known.bound),
    }
}

/// Searches, and prints the answer on standard output and the figures of the stages on standard error. Returns whether
/// it did.
fn put_search<D: Device, R: Threads + Wait + Clock + Sync>(
    rt: &R,
    alloc: Global,
    device: &mut D,
    task: &FdrTask,
    options: &Options,
) -> bool {
    let counting = Counting::new(rt);
    let found: Result<Found, SearchFault> = found_by_threads(
        rt,
        alloc,
        task,
        options,
        Some(CertificateKind::Sas),
        &counting,
    );
    let Ok(found) = found else {
        return false;
    };
    let (Ok(line), Ok(figures)) = (line_of(alloc, &found), counting.figures(alloc)) else {
        return false;
    };
    device.out(line.as_bytes()).is_ok() && device.err(figures.as_bytes()).is_ok()
}

/// Returns the tables of this name.
fn tables_of(name: &str) -> Option<Tables> {
    match name {
        "goal" => Some(Tables::Goal),
        "staged" => Some(Tables::Staged),
        _ => None,
    }
}

/// Returns whether a reduction of this name is one.
fn reduction_of(name: &str) -> Option<bool> {
    match name {
        "on" => Some(true),
        "off" => Some(false),
        _ => None,
    }
}

/// Returns the options that the last four arguments request.
fn options_of(workers: &str, tables: &str, ties: &str, reduction: &str) -> Option<Options> {
    let workers = workers.parse::<usize>().ok()?;
    let tables = tables_of(tables)?;
    let ties = ties_of(ties)?;
    let reduction = reduction_of(reduction)?;
    if workers < 1 || workers > MAX_WORKERS {
        return None;
    }
    let options = Options::new().with_workers(workers).with_tables(tables);
    Some(options.with_ties(ties).with_reduction(reduction))
}

/// Searches as the arguments request, and returns whether it printed what it found.
fn put_answer<D: Device, R: Threads + Wait + Clock + Sync>(
    rt: &R,
    alloc: Global,
    device: &mut D,
    words: &[String],
) -> bool {
    let [_, task, workers, tables, ties, reduction] = words else {
        return false;
    };
    let Some(options) = options_of(
        workers.as_str(),
        tables.as_str(),
        ties.as_str(),
        reduction.as_str(),
    ) else {
        return false;
    };
    let Some(task) = task_in(alloc, device, task.as_str()) else {
        return false;
    };
    put_search(rt, alloc, device, &task, &options)
}

fn main(rt: HostRuntime) -> ExitCode {
    let Some(words) = words_of_call(&rt) else {
        return ExitCode::from(6);
    };
    let mut device = ProcessDevice::new(&rt);
    status_of(put_answer(&rt, rt.alloc(), &mut device, &words))
}
