//! Writing a whole text.
#![tactic(auto, using(crate::proofs::Appends::appending))]

ghost use Rattle.std.specs.Prelude.{◌≡◌, ◌++◌, IfOk, OnOk};
ghost use Rattle.sasfile_writer.specs.Written.{text_of_lines, metric_lines, written};

use crate::facts::{push_goal, push_state};
use crate::groups::push_group_list;
use crate::operators::push_operator_list;
use crate::variables::push_variable_list;
use fdr::FdrTask;
use std::alloc::{AllocError, Global};

/// Appends the metric: whether operators have costs of their own.
fn push_metric(out: &mut Vec<u8>, metric: bool) -> Result<(), AllocError>
    ensures { OnOk result (out.new.items ≡ out.old.items ++ text_of_lines (metric_lines metric)) }
{
    if metric {
        out.extend_from_slice(b"begin_metric\n1\nend_metric\n")
    } else {
        out.extend_from_slice(b"begin_metric\n0\nend_metric\n")
    }
}

/// Returns the text of the task: `output.sas`, version 3, each line with its line feed (Helmert 2006). The first
/// `sizes[v]` values of the variable `v` are its atoms; at most one of them is true, and if there are at least two,
/// they are written as a mutex group.
///
/// The text is written in one pass, into one buffer that grows.
pub fn write_sas(alloc: Global, task: &FdrTask, sizes: &[usize]) -> Result<Vec<u8>, AllocError>
    ensures { IfOk result (λ text. text.items ≡ written task.now sizes.now) }
{
    let mut out = Vec::from_slice(alloc, b"begin_version\n3\nend_version\n")?;
    push_metric(&mut out, task.has_metric())?;
    push_variable_list(&mut out, task.value_names())?;
    push_group_list(&mut out, sizes)?;
    push_state(&mut out, task.initial())?;
    push_goal(&mut out, task.goal())?;
    push_operator_list(&mut out, task.operators())?;
    out.extend_from_slice(b"0\n")?;
    Ok(out)
}
