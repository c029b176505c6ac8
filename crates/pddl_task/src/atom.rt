//! Ground atoms and literals.
ghost use Rattle.std.specs.Prelude.{◌≡◌, ◌==◌, ◌++◌, IfOk};
ghost use Rattle.std.proofs.Common.{rules};
ghost use Rattle.std.specs.Cmp.Rules.{comparing, hashing};
ghost use Rattle.std.specs.Hash as fed;
ghost use Rattle.pddl_task.specs.Atoms.{same_atom};

use smallvec::SmallVec;
use std::alloc::{AllocError, Global};
use std::hash::{Hash, Hasher};
use std::marker::Model;

/// A ground atom: a predicate or a function by its number, and objects by theirs.
#[derive(Debug, Drop)]
pub struct GroundAtom {
    /// The number of the predicate or of the function.
    pub predicate: usize,
    /// The numbers of the objects.
    pub objects: SmallVec<usize, 4>,
}

impl Model for GroundAtom {
    ghost use Rattle.pddl_task.specs.Atoms.{Atom};

    ghost Value = { Atom };

    ghost view = { λ p. record { predicate = p.predicate; objects = p.objects.items } };
}

impl GroundAtom {
    /// Returns the atom of a predicate or a function with these objects.
    pub fn new(predicate: usize, objects: SmallVec<usize, 4>) -> GroundAtom
        ensures { result ≡ record { predicate = predicate; objects = objects.items } }
    {
        GroundAtom { predicate, objects }
    }

    /// Returns a copy of the atom. Allocates only for more than four objects.
    pub fn try_clone(&self, alloc: Global) -> Result<GroundAtom, AllocError>
        ensures { IfOk result (λ p. p ≡ self.now) }
    {
        Ok(GroundAtom {
            predicate: self.predicate,
            objects: SmallVec::from_slice(alloc, self.objects.as_slice())?,
        })
    }
}

impl PartialEq for GroundAtom {
    ghost eq = { same_atom };

    ghost laws = { Prim.search (comparing, rules) };

    fn eq(&self, other: &GroundAtom) -> bool {
        self.predicate == other.predicate && self.objects == other.objects
    }
}

impl Eq for GroundAtom {
    ghost laws = { Prim.search (comparing, rules) };
}

impl Hash for GroundAtom {
    ghost hash_input = { λ p. fed.usize p.predicate ++ fed.slice fed.usize p.objects };

    ghost respects_eq = { Prim.search (hashing, rules) };

    fn hash<H: Hasher>(&self, state: &mut H) {
        self.predicate.hash(state);
        self.objects.hash(state);
    }
}

/// A ground literal: an atom or its negation.
#[derive(Debug, Drop)]
pub struct GroundLiteral {
    pub atom: GroundAtom,
    /// Whether the literal is the atom itself, rather than its negation.
    pub positive: bool,
}

impl Model for GroundLiteral {
    ghost use Rattle.pddl_task.specs.Atoms.{Literal};

    ghost Value = { Literal };

    ghost view = { λ l. record { atom = l.atom; positive = l.positive } };
}

impl GroundLiteral {
    /// Returns a copy of the literal. Allocates only for more than four objects.
    pub fn try_clone(&self, alloc: Global) -> Result<GroundLiteral, AllocError>
        ensures { IfOk result (λ l. l ≡ self.now) }
    {
        Ok(GroundLiteral {
            atom: self.atom.try_clone(alloc)?,
            positive: self.positive,
        })
    }
}
