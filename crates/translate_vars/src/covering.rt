//! The test whether each variable is fit, and each atom that is not constant is in one.

ghost use Rattle.std.specs.Prelude.{◌≡◌, ◌||◌, ℕ, ◌<◌, true, false, None, All, length, IfSome, OnOk, IfErr};
ghost use Rattle.pddl_task.specs.Atoms.{contains};
ghost use Rattle.ground_theory.specs.Grounding.{actions_over};
ghost use Rattle.ground_atoms.specs.Order.{AreDistinct};
ghost use Rattle.translate_theory.specs.Variables.{IsPlaced, variables_at};
ghost use Rattle.translate_theory.specs.Translations.{AreVariables};
ghost use Rattle.translate_vars.specs.Parts.{AreWithinLimits};
ghost use Rattle.translate_vars.specs.Faults.{AreGrounded, IsFirstFault};
ghost use Rattle.translate_vars.specs.Flags.{flag_at};

use crate::fault::TranslateFault;
use crate::flags::{AtomFlags, flag, mark};
use crate::order::fault_at;
use ground_atoms::Atoms;
use mutex::ActionIndex;
use pddl_task::{GroundAction, Task};
use std::alloc::Global;
use translate_theory::ListedVariable;

/// Returns the first index below `count` at which neither flag is set.
fn first_unset(constant: &[bool], taken: &[bool], count: usize) -> Option<usize>
    ensures none { result ≡ None → (k : ℕ) → k < count → (flag_at constant.now k || flag_at taken.now k) ≡ true }
    ensures some { IfSome result (λ place. (place < count) × ((flag_at constant.now place || flag_at taken.now place) ≡ false)
        × ((k : ℕ) → k < place → (flag_at constant.now k || flag_at taken.now k) ≡ true)) }
{
    for place in 0..count {
        if !flag(constant, place) && !flag(taken, place) {
            return Some(place);
        }
    }
    None
}

/// Checks that the variables are fit for a translation. Fails with the fault of the first variable that is not, with
/// the first atom that is in none, or if allocation fails.
fn check_each(
    alloc: Global,
    index: &ActionIndex,
    variables: &[ListedVariable],
) -> Result<(), TranslateFault>
    requires distinct { AreDistinct index.now.atoms }
    requires placed { All (IsPlaced (length index.now.atoms)) variables.now }
    ensures variables { OnOk result (AreVariables index.now.task index.now.atoms index.now.actions
        (variables_at index.now.atoms variables.now)) }
    ensures fault { AreWithinLimits index.now.atoms variables.now → AreGrounded index.now.task index.now.atoms →
        index.now.actions ≡ actions_over index.now.task (contains index.now.atoms) →
        IfErr result (IsFirstFault index.now.task index.now.atoms variables.now) }
{
    let flags = AtomFlags::new(alloc, index)?;
    let mut taken = vec![in alloc; false; index.atoms().len()]?;
    for (number, variable) in variables.iter().enumerate() {
        if let Some(fault) = fault_at(index, &flags, &taken, number, variable) {
            return Err(fault);
        }
        mark(&mut taken, &variable.places);
    }
    match first_unset(&flags.constant, &taken, index.atoms().len()) {
        Some(place) => Err(TranslateFault::Uncovered(place)),
        None => Ok(()),
    }
}

/// Checks, as `check_each` does, that the variables are fit, over the actions of a closed set of atoms.
pub(crate) fn check_variables(
    alloc: Global,
    task: &Task,
    atoms: &Atoms,
    actions: &[GroundAction],
    variables: &[ListedVariable],
) -> Result<(), TranslateFault>
    requires distinct { AreDistinct atoms.now }
    requires placed { All (IsPlaced (length atoms.now)) variables.now }
    ensures variables { OnOk result (AreVariables task.now atoms.now actions.now (variables_at atoms.now variables.now)) }
    ensures fault { AreWithinLimits atoms.now variables.now → AreGrounded task.now atoms.now →
        actions.now ≡ actions_over task.now (contains atoms.now) →
        IfErr result (IsFirstFault task.now atoms.now variables.now) }
{
    let index = ActionIndex::new(alloc, task, atoms, actions)?;
    check_each(alloc, &index, variables)
}
