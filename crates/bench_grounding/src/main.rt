//! Counts the relaxed reachable atoms and the ground actions of a task, for the benchmark of grounding:
//! `bench_grounding DOMAIN PROBLEM`.
#![tactic(auto)]

use bench_input::{status_of, words_of_call};
use ground::ground;
use optplan_device::{Device, ProcessDevice};
use pddl::read_task;
use std::alloc::{AllocError, Global};
use std::process::ExitCode;

/// Returns the number of atoms in the least closed set of a task's atoms, and the number of actions over it. `None` if
/// the texts spell no task, or a limit is exceeded.
fn counts(
    alloc: Global,
    domain: &[u8],
    problem: &[u8],
) -> Result<Option<(usize, usize)>, AllocError> {
    let Ok(task) = read_task(alloc, domain, problem) else {
        return Ok(None);
    };
    match ground(alloc, &task) {
        Ok(grounded) => Ok(Some((grounded.atoms.len(), grounded.actions.len()))),
        Err(_) => Ok(None),
    }
}

/// Prints the counts for two files, and returns whether it did.
fn put_counts<D: Device>(alloc: Global, device: &mut D, words: &[String]) -> bool {
    let [_, domain, problem] = words else {
        return false;
    };
    let Ok(domain) = device.read(alloc, domain.as_str()) else {
        return false;
    };
    let Ok(problem) = device.read(alloc, problem.as_str()) else {
        return false;
    };
    let Ok(Some((atoms, actions))) = counts(alloc, &domain, &problem) else {
        return false;
    };
    match format!(in alloc; "{atoms} atoms, {actions} actions\n") {
        Ok(line) => device.out(line.as_bytes()).is_ok(),
        Err(_) => false,
    }
}

fn main(rt: HostRuntime) -> ExitCode {
    let Some(words) = words_of_call(&rt) else {
        return ExitCode::from(6);
    };
    let mut device = ProcessDevice::new(&rt);
    status_of(put_counts(rt.alloc(), &mut device, &words))
}
