//! The reduction of a task.

ghost use Rattle.std.specs.Prelude.{◌≡◌, IfOk};
ghost use Rattle.reduction.specs.Retained.{AreListedOnce};
ghost use Rattle.reduction.specs.Represented.{AreRepresented};
ghost use Rattle.reduction.specs.Reductions.{IsReduction, IsExact, retained_task};

use crate::asked::asked_of;
use crate::retained::retained_of;
use crate::rows::rows_by;
use fdr::FdrTask;
use reduction_classes::Classes;
use std::alloc::{AllocError, Global};

/// A task without what its goal does not need (Helmert 2006, "The Fast Downward planning system"): values that nobody
/// asks for are one class, variables with one class are left out, and so are operators that change no class. Of equal
/// operators the first of the least cost is retained.
#[derive(Drop)]
pub struct Reduction {
    /// The classes of the values of the task.
    pub classes: Classes,
    /// The numbers in the task of the retained operators, each once, in the order in which the successor generator of
    /// the reduced task lists them, those with equal conditions in increasing order. The order serves speed alone, and
    /// that it is this one is not proved.
    pub retained: Vec<usize>,
    /// For each operator of the task the index in `retained` of the operator that is equal to it in the reduced task and
    /// costs at most as much; `None` for an operator that changes no class.
    pub representatives: Vec<Option<usize>>,
    /// The reduced task over the retained operators.
    pub task: FdrTask,
}

/// Returns the reduction of a task. The operators of the reduced task are numbered in the order in which its successor
/// generator lists them, those with equal conditions as in the task: so it finds applicable operators in the order of
/// their numbers, and those of a state are near each other in memory. The order serves speed alone, and that it is this
/// one is not proved.
///
/// Takes time linear in the size of the task, but for sorting the facts of each operator and the operators by these.
pub fn reduce(alloc: Global, task: &FdrTask) -> Result<Reduction, AllocError>
    ensures reduction { IfOk result (λ r. IsReduction task.now r.classes r.retained.items) }
    ensures once { IfOk result (λ r. AreListedOnce r.retained.items) }
    ensures represented { IfOk result (λ r. AreRepresented task.now r.classes r.retained.items r.representatives.items) }
    ensures task { IfOk result (λ r. r.task ≡ retained_task task.now r.classes r.retained.items) }
    ensures exact { IfOk result (λ r. IsExact task.now r.task r.retained.items) }
{
    // only for the proof: the task is well-formed
    task.recall();
    let asked = asked_of(alloc, task)?;
    let classes = rows_by(alloc, task, &asked.facts)?;
    let (retained, representatives) = retained_of(alloc, task, &classes, &asked.changing)?;
    let reduced = classes.task_with(alloc, task, &retained)?;
    Ok(Reduction {
        classes,
        retained,
        representatives,
        task: reduced,
    })
}
