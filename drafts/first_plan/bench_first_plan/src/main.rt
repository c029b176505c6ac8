//! Finds a first plan of a task, for the benchmark of first plans: `bench_first_plan TASK MOST TABLE SEED`.
#![tactic(auto)]

ghost use Rattle.std.specs.Prelude.{◌≤◌, ◌^◌};

use bench_input::{MAX_TABLE, columns_within, status_of, task_in, words_of_call};
use cost::Dist;
use fdr::FdrTask;
use first_plan::{FirstPlan, find_plan};
use optplan_device::{Device, ProcessDevice};
use std::alloc::{AllocError, Global};
use std::process::ExitCode;
use std::thread::Threads;

/// The greatest number of expansions, of abstract states of a table, and the seed.
#[derive(Clone, Copy)]
struct Amounts {
    most: usize,
    table: usize,
    seed: u64,
}

/// Returns the line for a result: the cost and the number of operators of the plan, and the expansions of each part of
/// the search.
fn line_of(alloc: Global, h: Dist, found: &FirstPlan) -> Result<String, AllocError> {
    let effort = found.effort;
    let (greedy, windows) = (effort.greedy, effort.windows);
    let (star, beams) = (effort.star, effort.beams);
    let spent = format!(in alloc;
        "{greedy} greedy, {windows} in windows, {star} by A*, {beams} in beams"
    )?;
    let all = found.expansions;
    match &found.plan {
        Some(plan) => {
            let (cost, steps) = (plan.cost, plan.operators.len());
            format!(in alloc; "cost {cost}, {steps} steps, h {h}, {all} expansions: {spent}\n")
        }
        None => format!(in alloc; "no plan, h {h}, {all} expansions: {spent}\n"),
    }
}

/// Returns the line for a task.
fn answer<R: Threads + Sync>(
    rt: &R,
    alloc: Global,
    task: &FdrTask,
    amounts: Amounts,
) -> Result<String, AllocError>
    requires { amounts.table ≤ 2 ^ 24 }
{
    let columns = columns_within(rt, alloc, task, amounts.table)?;
    let found = find_plan(alloc, &columns, amounts.most, amounts.seed)?;
    line_of(alloc, columns.h(task.initial()), &found)
}

/// Returns the amounts of the command line, if they are in range.
fn amounts_of(most: &str, table: &str, seed: &str) -> Option<Amounts> {
    let (Ok(most), Ok(table), Ok(seed)) = (most.parse(), table.parse(), seed.parse()) else {
        return None;
    };
    Some(Amounts { most, table, seed })
}

/// Prints the answer for a file and three numbers, and returns whether it did.
fn put_answer<D: Device, R: Threads + Sync>(
    rt: &R,
    alloc: Global,
    device: &mut D,
    words: &[String],
) -> bool {
    let [_, task, most, table, seed] = words else {
        return false;
    };
    let Some(amounts) = amounts_of(most.as_str(), table.as_str(), seed.as_str()) else {
        return false;
    };
    if amounts.table > MAX_TABLE {
        return false;
    }
    let Some(task) = task_in(alloc, device, task.as_str()) else {
        return false;
    };
    match answer(rt, alloc, &task, amounts) {
        Ok(line) => device.out(line.as_bytes()).is_ok(),
        Err(_) => false,
    }
}

fn main(rt: HostRuntime) -> ExitCode {
    let Some(words) = words_of_call(&rt) else {
        return ExitCode::from(6);
    };
    let mut device = ProcessDevice::new(&rt);
    status_of(put_answer(&rt, rt.alloc(), &mut device, &words))
}
