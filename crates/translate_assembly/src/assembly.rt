//! The finite-domain task of a translation.

ghost use Rattle.std.specs.Prelude.{◌≡◌, ◌≤◌, All, IfOk, IfErr, OnOk, length};
ghost use Rattle.std.specs.List.{list_any};
ghost use Rattle.fdr.specs.declared.task.TaskLimit.{TaskLimit as Limits};
ghost use Rattle.fdr.specs.Tasks.{IsPastLimit};
ghost use Rattle.ground_theory.specs.Grounding.{AreListedAtoms, AreListedActions};
ghost use Rattle.translate_theory.specs.Translations.{AreVariables, translation};
ghost use Rattle.translate_theory.specs.Variables.{IsPlaced, variables_at};
ghost use Rattle.translate_assembly.specs.Carried.{AreCarriedAt};
ghost use Rattle.translate_assembly.specs.Limits.{is_long, IsPastLimitAt};
ghost use Rattle.translate_assembly.specs.declared.assembly.AssemblyFault.TheVariants.{OutOfMemory, Limit};
ghost use Rattle.pddl_task.specs.Limits.{max_cost};
ghost use Rattle.fdr.specs.Limits.{max_values};

use crate::parts::parts_of;
use fdr::{FdrTask, MAX_VALUES, MAX_VARIABLES, TaskLimit};
use ground_atoms::Atoms;
use pddl_task::{GroundAction, Task};
use std::alloc::{AllocError, AllocFailed, Global};
use translate_theory::ListedVariable;

/// The reason why no task was made.
#[derive(Clone, Copy, Debug, PartialEq, Eq)]
pub enum AssemblyFault {
    /// Allocation failed.
    OutOfMemory,
    /// F18: the task would have more variables, values of a variable or operators than the limits of a task allow.
    Limit(TaskLimit),
}

impl From<AllocError> for AssemblyFault {
    ghost from_gives = { λ _ e. e ≡ OutOfMemory };

    fn from(_e: AllocError) -> AssemblyFault {
        AssemblyFault::OutOfMemory
    }
}

impl<T: Drop> From<AllocFailed<T>> for AssemblyFault {
    ghost from_gives = { λ _ e. e ≡ OutOfMemory };

    fn from(_e: AllocFailed<T>) -> AssemblyFault {
        AssemblyFault::OutOfMemory
    }
}

impl From<TaskLimit> for AssemblyFault {
    ghost from_gives = { λ l e. e ≡ Limit l };

    fn from(limit: TaskLimit) -> AssemblyFault {
        AssemblyFault::Limit(limit)
    }
}

/// A finite-domain task, and the indices of its operators' actions in the list of actions.
#[derive(Drop)]
pub struct Assembled {
    /// The finite-domain task.
    pub task: FdrTask,
    /// For each operator the index of its action, strictly increasing. There are as many indices as operators.
    pub places: Vec<usize>,
}

/// Returns the finite-domain task over the atoms, with these variables and an operator for each action that can have
/// one: each action whose precondition is not contradictory and requires at most one atom of each variable to be true
/// (Helmert 2009).
///
/// For each literal of an action it looks up the atom by hash and its fact by binary search; a new fact is inserted in
/// the order of the variables. Fails with the first limit that the task would exceed, or if allocation fails.
pub fn assemble(
    alloc: Global,
    task: &Task,
    atoms: &Atoms,
    actions: &[GroundAction],
    variables: &[ListedVariable],
) -> Result<Assembled, AssemblyFault>
    requires placed { All (IsPlaced (length atoms.now)) variables.now }
    requires listed { AreListedAtoms task.now atoms.now }
    requires complete { AreListedActions task.now atoms.now actions.now }
    requires fit { AreVariables task.now atoms.now actions.now (variables_at atoms.now variables.now) }
    requires costs { All (λ a. a.cost ≤ max_cost) actions.now }
    ensures task { IfOk result (λ t. t.task ≡ translation task.now (variables_at atoms.now variables.now) actions.now) }
    ensures count { IfOk result (λ t. length t.places.items ≡ length t.task.operators) }
    ensures carried { IfOk result (λ t. AreCarriedAt (variables_at atoms.now variables.now) actions.now t.places.items) }
    ensures limit { (l : Limits) → IfErr result (λ e. e ≡ Limit l →
        IsPastLimit (translation task.now (variables_at atoms.now variables.now) actions.now) l) }
{
    check_limits(variables)?;
    let parts = parts_of(alloc, task, atoms, actions, variables)?;
    let task = FdrTask::new(
        task.metric,
        parts.value_names,
        parts.initial,
        parts.goal,
        parts.operators,
    )?;
    Ok(Assembled {
        task,
        places: parts.carried,
    })
}

/// Checks the limits on variables and on the values of a variable. Fails with the first one that is exceeded.
fn check_limits(variables: &[ListedVariable]) -> Result<(), TaskLimit>
    ensures short { OnOk result (All (λ v. length v.places ≤ max_values) variables.now) }
    ensures past { IfErr result (IsPastLimitAt variables.now) }
{
    if variables.len() > MAX_VARIABLES {
        return Err(TaskLimit::Variables);
    }
    if has_long_range(variables) {
        return Err(TaskLimit::Values);
    }
    Ok(())
}

/// Returns whether a variable has more values than it may have.
fn has_long_range(variables: &[ListedVariable]) -> bool
    ensures { result ≡ list_any is_long variables.now }
{
    variables.iter().any(|variable| is_long(variable))
}

fn is_long(variable: &ListedVariable) -> bool
    ensures { result ≡ is_long variable.now }
{
    let room = if variable.has_none {
        MAX_VALUES - 1
    } else {
        MAX_VALUES
    };
    variable.places.len() > room
}
