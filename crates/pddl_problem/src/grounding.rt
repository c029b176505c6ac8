//! Atoms of a problem, whose terms are objects.

ghost use Rattle.std.specs.Prelude.{◌≡◌, IfOk};
ghost use Rattle.pddl_problem.specs.Initial.{atom_of};

use pddl_task::{GroundAtom, LiftedAtom};
use std::alloc::{AllocError, Global};

/// Returns the ground atom of the atom, if there is one. Its terms must be objects.
pub fn ground(alloc: Global, atom: Option<LiftedAtom>) -> Result<Option<GroundAtom>, AllocError>
    ensures { IfOk result (λ a. a ≡ atom_of atom) }
{
    match atom {
        Some(atom) => Ok(Some(atom.instance(alloc, &[])?)),
        None => Ok(None),
    }
}
