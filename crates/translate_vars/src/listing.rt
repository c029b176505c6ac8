//! The test whether listed atoms are distinct atoms of a task.

ghost use Rattle.std.specs.Prelude.{◌≡◌, ◌↔◌, IsTrue, List, IfOk, OnOk, IfErr};
ghost use Rattle.pddl_task.specs.Planning.{IsAtomOf};
ghost use Rattle.translate_theory.specs.Variables.{PlacedVariable};
ghost use Rattle.translate_vars.specs.Parts.{AreWithinLimits};
ghost use Rattle.translate_vars.specs.Faults.{AreAtomsOf, IsFirstFault};

use crate::fault::TranslateFault;
use ground_atoms::Atoms;
use pddl_task::{GroundAtom, Task};
use std::alloc::Global;

/// Returns whether the predicate exists and takes this number of objects, and the objects exist.
fn is_atom_of(task: &Task, atom: &GroundAtom) -> bool
    ensures { IsTrue result ↔ IsAtomOf task.now atom.now }
{
    let Some(arity) = task.arities.get(atom.predicate) else {
        return false;
    };
    *arity == atom.objects.len()
        && atom
            .objects
            .iter()
            .all(|object| *object < task.object_types.len())
}

/// Returns a copy of the atoms, indexed by hash. Fails with the first index of an atom that is not one of the task or
/// is a duplicate of an earlier one, or if allocation fails.
pub(crate) fn list_atoms(
    alloc: Global,
    task: &Task,
    atoms: &[GroundAtom],
) -> Result<Atoms, TranslateFault>
    ensures atoms { IfOk result (λ listed. listed ≡ atoms.now) }
    ensures known { OnOk result (AreAtomsOf task.now atoms.now) }
    ensures fault { (variables : List PlacedVariable) → AreWithinLimits atoms.now variables →
        IfErr result (IsFirstFault task.now atoms.now variables) }
{
    let mut listed = Atoms::new(alloc);
    for (place, atom) in atoms.iter().enumerate() {
        if !is_atom_of(task, atom) || listed.contains(atom) {
            return Err(TranslateFault::BadAtom(place));
        }
        listed.push(atom.try_clone(alloc)?)?;
    }
    Ok(listed)
}
