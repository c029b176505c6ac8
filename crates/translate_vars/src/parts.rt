//! The test of listed atoms and variables.

ghost use Rattle.std.specs.Prelude.{◌≡◌, All, IsTrue, IfOk, IfErr, length};
ghost use Rattle.pddl_task.specs.Atoms.{contains};
ghost use Rattle.pddl_task.specs.Planning.{has_small_costs};
ghost use Rattle.ground_theory.specs.Grounding.{actions_over};
ghost use Rattle.translate_theory.specs.Variables.{IsPlaced};
ghost use Rattle.translate_vars.specs.Parts.{AreFit};
ghost use Rattle.translate_vars.specs.Faults.{IsFirstFault};

use crate::closing::check_closed;
use crate::covering::check_variables;
use crate::fault::TranslateFault;
use crate::limits::check_limits;
use crate::listing::list_atoms;
use ground::{Grounded, actions_over};
use pddl_task::{GroundAtom, Task};
use std::alloc::Global;
use translate_theory::ListedVariable;

/// Checks that the atoms and the variables over them are fit for a translation of the task (Helmert 2009), and returns
/// the atoms, in their order, with the ground actions over them. The atoms must be distinct atoms of the task and a
/// closed set with the initial atoms and those of the goal. Each atom that is not constant must be in exactly one
/// variable, and constant atoms in none. Several atoms of one variable must be a usable mutex group with at most one
/// goal, none of them used negatively, and with the none value unless the group is full. A variable with a single atom
/// must have the none value.
///
/// Fails with the first fault, or if allocation fails. The order is: the numbers of atoms, variables and values; the
/// atoms, in their order; the number of actions; the missing atoms; the variables, in their order; and the atoms in no
/// variable.
pub fn check_parts(
    alloc: Global,
    task: &Task,
    atoms: &[GroundAtom],
    variables: &[ListedVariable],
) -> Result<Grounded, TranslateFault>
    requires small { IsTrue (has_small_costs task.now) }
    requires placed { All (IsPlaced (length atoms.now)) variables.now }
    ensures atoms { IfOk result (λ parts. parts.atoms ≡ atoms.now) }
    ensures actions { IfOk result (λ parts. parts.actions.items ≡ actions_over task.now (contains atoms.now)) }
    ensures fit { IfOk result (λ _. AreFit task.now atoms.now variables.now) }
    ensures fault { IfErr result (IsFirstFault task.now atoms.now variables.now) }
{
    check_limits(atoms, variables)?;
    let listed = list_atoms(alloc, task, atoms)?;
    let actions = actions_over(alloc, task, &listed)?;
    check_closed(alloc, task, &listed, &actions)?;
    check_variables(alloc, task, &listed, &actions, variables)?;
    Ok(Grounded {
        atoms: listed,
        actions,
    })
}
