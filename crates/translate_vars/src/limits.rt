//! Limits on the numbers of atoms, of variables and of the values of a variable.

ghost use Rattle.std.specs.Prelude.{◌≡◌, nat_lt, OnOk, IfErr};
ghost use Rattle.pddl_task.specs.Planning.{PlanningTask};
ghost use Rattle.translate_vars.specs.Parts.{value_count, has_long_range, AreWithinLimits};
ghost use Rattle.translate_vars.specs.Faults.{IsFirstFault};
ghost use Rattle.fdr.specs.Limits.{max_values};

use crate::fault::TranslateFault;
use fdr::{MAX_VALUES, MAX_VARIABLES, TaskLimit};
use ground::MAX_ATOMS;
use pddl_task::GroundAtom;
use translate_theory::ListedVariable;

/// Returns whether the variable has more than `MAX_VALUES` values: its atoms, and the none value if it has one.
fn is_long(variable: &ListedVariable) -> bool
    ensures { result ≡ nat_lt max_values (value_count variable.now) }
{
    if variable.has_none {
        MAX_VALUES <= variable.places.len()
    } else {
        MAX_VALUES < variable.places.len()
    }
}

fn has_long_range(variables: &[ListedVariable]) -> bool
    ensures { result ≡ has_long_range variables.now }
{
    variables.iter().any(|variable| is_long(variable))
}

/// Checks the limits on atoms, variables and values. Fails with the first limit that is exceeded.
pub(crate) fn check_limits(
    atoms: &[GroundAtom],
    variables: &[ListedVariable],
) -> Result<(), TranslateFault>
    ensures within { OnOk result (AreWithinLimits atoms.now variables.now) }
    ensures fault { (task : PlanningTask) → IfErr result (IsFirstFault task atoms.now variables.now) }
{
    if MAX_ATOMS < atoms.len() {
        return Err(TranslateFault::GroundLimit);
    }
    if MAX_VARIABLES < variables.len() {
        return Err(TranslateFault::Limit(TaskLimit::Variables));
    }
    if has_long_range(variables) {
        return Err(TranslateFault::Limit(TaskLimit::Values));
    }
    Ok(())
}
