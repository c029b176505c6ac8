//! States as sets of atoms.

ghost use Rattle.std.specs.Prelude.{◌≡◌, [], IfOk, OnOk};
ghost use Rattle.std.specs.Option.{option_copied};
ghost use Rattle.pddl_task.specs.Atoms.{contains, literal_holds};
ghost use Rattle.pddl_task.specs.Plans.{next_state};
ghost use Rattle.validate.specs.States.{holds_in, added, without};
ghost use Rattle.validate.specs.Validation.{first_failing, with_all, without_all};

use pddl_task::{GroundAction, GroundAtom, GroundLiteral};
use std::alloc::{AllocError, Global};
use std::collections::HashSet;

/// A state: the set of the ground atoms that are true.
#[derive(Drop)]
pub struct AtomSet {
    atoms: HashSet<GroundAtom>,
}

impl AtomSet {
    fn new(alloc: Global) -> AtomSet
        ensures { holds_in result ≡ contains [] }
    {
        AtomSet {
            atoms: HashSet::new(alloc),
        }
    }

    /// Returns the state in which exactly these atoms are true.
    pub fn of(alloc: Global, atoms: &[GroundAtom]) -> Result<AtomSet, AllocError>
        ensures { IfOk result (λ s. holds_in s ≡ contains atoms.now) }
    {
        let mut set = AtomSet::new(alloc);
        for atom in atoms {
            set.add(atom.try_clone(alloc)?)?;
        }
        Ok(set)
    }

    fn add(&mut self, atom: GroundAtom) -> Result<(), AllocError>
        ensures { OnOk result (holds_in self.new ≡ added (holds_in self.old) atom) }
    {
        self.atoms.insert(atom)?;
        Ok(())
    }

    fn remove(&mut self, atom: &GroundAtom)
        ensures { holds_in self.new ≡ without (holds_in self.old) atom.now }
    {
        self.atoms.remove(atom);
    }

    #[tactic(auto, using(crate::proofs::StateLaws::with_all_push))]
    fn add_all(&mut self, atoms: Vec<GroundAtom>) -> Result<(), AllocError>
        ensures { OnOk result (holds_in self.new ≡ with_all (holds_in self.old) atoms.items) }
    {
        for atom in atoms {
            self.add(atom)?;
        }
        Ok(())
    }

    fn remove_all(&mut self, atoms: &[GroundAtom])
        ensures { holds_in self.new ≡ without_all (holds_in self.old) atoms.now }
    {
        for atom in atoms {
            self.remove(atom);
        }
    }

    /// Applies an action: makes the atoms that it deletes false, and then those that it adds true. After a failure the
    /// state must not be used again.
    pub fn apply(&mut self, action: GroundAction) -> Result<(), AllocError>
        ensures { OnOk result (holds_in self.new ≡ next_state (holds_in self.old) action) }
    {
        self.remove_all(&action.deletes);
        self.add_all(action.adds)
    }

    fn holds(&self, literal: &GroundLiteral) -> bool
        ensures { result ≡ literal_holds (holds_in self.now) literal.now }
    {
        self.atoms.contains(&literal.atom) == literal.positive
    }

    /// Returns the first of the literals that does not hold, or `None` if all hold.
    pub fn first_failing<'a>(&self, literals: &'a [GroundLiteral]) -> Option<&'a GroundLiteral>
        ensures { option_copied result ≡ first_failing (holds_in self.now) literals.now }
    {
        literals.iter().find(|literal| !self.holds(literal))
    }
}
