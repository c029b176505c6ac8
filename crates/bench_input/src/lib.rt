//! Common parts of the benchmark programs: their arguments, the tasks and columns that these request, and their
//! statuses.
#![tactic(auto)]

ghost use Rattle.std.specs.Prelude.{◌≡◌, ◌≤◌, ◌^◌, IfOk};

use fdr::FdrTask;
use optplan_device::Device;
use owner_space::Ties;
use sasfile::read_sas;
use scp::{Columns, choose_columns, make_columns};
use std::alloc::{Alloc, AllocError, Global};
use std::env::Env;
use std::process::ExitCode;
use std::thread::Threads;

/// The greatest number of abstract states of a table.
pub const MAX_TABLE: usize = 16_777_216;

/// Returns the arguments of the call, the program's own name first, or `None` if one of them is not UTF-8, or if
/// allocation fails.
pub fn words_of_call<R: Env + Alloc<A = Global>>(rt: &R) -> Option<Vec<String>> {
    std::env::args(rt).ok()?.collect(rt.alloc()).ok()
}

/// Returns the task that a file in the form of `output.sas` spells, or `None` if the file cannot be read or spells no
/// task, or if allocation fails.
pub fn task_in<D: Device>(alloc: Global, device: &mut D, path: &str) -> Option<FdrTask> {
    let text = device.read(alloc, path).ok()?;
    read_sas(alloc, &text).ok()
}

/// Returns the order of this name among states of the same f-value.
pub fn ties_of(name: &str) -> Option<Ties> {
    match name {
        "fresh" => Some(Ties::Fresh),
        "shallow" => Some(Ties::Shallow),
        "deep" => Some(Ties::Deep),
        _ => None,
    }
}

/// Returns columns with tables of at most `table` abstract states, and no column if that is 0.
pub fn columns_within<'a, R: Threads + Sync>(
    rt: &R,
    alloc: Global,
    task: &'a FdrTask,
    table: usize,
) -> Result<Columns<'a>, AllocError>
    requires { table ≤ 2 ^ 24 }
    ensures { IfOk result (λ columns. columns.task ≡ task.now) }
{
    if table == 0 {
        return make_columns(rt, alloc, task, &[]);
    }
    choose_columns(rt, alloc, task, table)
}

/// Returns the status of a program: 0 if it completed its request, otherwise 1.
pub fn status_of(did: bool) -> ExitCode {
    if did {
        ExitCode::from(0)
    } else {
        ExitCode::from(1)
    }
}
