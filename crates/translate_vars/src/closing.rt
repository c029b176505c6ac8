//! The test whether listed atoms are a closed set of a task.

ghost use Rattle.std.specs.Prelude.{◌≡◌, ◌≤◌, true, not, find, length, List, OnOk, IfErr};
ghost use Rattle.std.specs.List.{list_all};
ghost use Rattle.std.specs.Option.{option_copied};
ghost use Rattle.pddl_task.specs.Atoms.{contains, has_wanted};
ghost use Rattle.ground_theory.specs.Grounding.{IsClosedSet, actions_over};
ghost use Rattle.ground.specs.Search.{max_actions};
ghost use Rattle.ground.specs.Rounds.{wanted_atoms};
ghost use Rattle.translate_theory.specs.Variables.{PlacedVariable};
ghost use Rattle.translate_vars.specs.Parts.{AreWithinLimits};
ghost use Rattle.translate_vars.specs.Faults.{AreAtomsOf, IsFirstFault};

use crate::fault::TranslateFault;
use ground::{first_open, least_missing};
use ground_atoms::Atoms;
use pddl_task::{GroundAction, GroundAtom, GroundLiteral, Task};
use std::alloc::Global;

/// Returns the first atom of a positive literal that is not listed.
fn first_missing<'a>(atoms: &Atoms, literals: &'a [GroundLiteral]) -> Option<&'a GroundAtom>
    ensures { option_copied result ≡ find (λ q. not (contains atoms.now q)) (wanted_atoms literals.now) }
{
    for literal in literals {
        if literal.positive && !atoms.contains(&literal.atom) {
            return Some(&literal.atom);
        }
    }
    None
}

/// Checks that the initial atoms and the atoms of the goal are listed. Fails with the least initial atom that is
/// missing, with the first missing atom of the goal, or if allocation fails.
fn check_first_atoms(alloc: Global, task: &Task, atoms: &Atoms) -> Result<(), TranslateFault>
    ensures initial { OnOk result (list_all (contains atoms.now) task.now.initial ≡ true) }
    ensures goal { OnOk result (has_wanted (contains atoms.now) task.now.goal ≡ true) }
    ensures fault { (variables : List PlacedVariable) → AreWithinLimits atoms.now variables → AreAtomsOf task.now atoms.now →
        length (actions_over task.now (contains atoms.now)) ≤ max_actions →
        IfErr result (IsFirstFault task.now atoms.now variables) }
{
    if let Some(atom) = least_missing(atoms, &task.initial) {
        return Err(TranslateFault::Missing(atom.try_clone(alloc)?));
    }
    if let Some(atom) = first_missing(atoms, &task.goal) {
        return Err(TranslateFault::Missing(atom.try_clone(alloc)?));
    }
    Ok(())
}

/// Checks that the atoms, with the actions over them, are a closed set. Fails with the first missing atom, or if
/// allocation fails.
pub(crate) fn check_closed(
    alloc: Global,
    task: &Task,
    atoms: &Atoms,
    actions: &[GroundAction],
) -> Result<(), TranslateFault>
    requires { actions.now ≡ actions_over task.now (contains atoms.now) }
    ensures closed { OnOk result (IsClosedSet task.now (contains atoms.now)) }
    ensures fault { (variables : List PlacedVariable) → AreWithinLimits atoms.now variables → AreAtomsOf task.now atoms.now →
        length (actions_over task.now (contains atoms.now)) ≤ max_actions →
        IfErr result (IsFirstFault task.now atoms.now variables) }
{
    check_first_atoms(alloc, task, atoms)?;
    let Some(place) = first_open(atoms, actions) else {
        return Ok(());
    };
    let action = &actions[place];
    let atom = least_missing(atoms, &action.adds).unwrap();
    Err(TranslateFault::NotClosed(atom.try_clone(alloc)?))
}
