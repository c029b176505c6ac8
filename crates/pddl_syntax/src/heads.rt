//! Declared predicates and functions.

ghost use Rattle.std.specs.Prelude.{◌≡◌, OnOk};
ghost use Rattle.pddl_syntax.specs.Heads.{no_heads, arity_of, with_head};

use pddl_names::Names;
use std::alloc::{AllocError, Global};
use std::marker::Model;

/// The names of predicates or of functions, each with the number of its parameters.
#[derive(Debug, Drop)]
pub struct Heads {
    names: Names,
    arities: Vec<usize>,
}

impl Model for Heads {
    ghost use Rattle.pddl_syntax.specs.Heads as spec;

    ghost Value = { spec.Heads };

    ghost view = { λ h. record { names = h.names; arities = h.arities.items } };
}

impl Heads {
    /// Returns a table without heads.
    pub fn new(alloc: Global) -> Heads
        ensures { result ≡ no_heads }
    {
        Heads {
            names: Names::new(alloc),
            arities: Vec::new(alloc),
        }
    }

    /// Returns the names, in the order of their first declarations.
    pub fn names(&self) -> &Names
        ensures { result.now ≡ self.now.names }
    {
        &self.names
    }

    /// Returns the number of parameters of each head, in the order of the names.
    pub fn arities(&self) -> &[usize]
        ensures { result.now ≡ self.now.arities }
    {
        &self.arities
    }

    /// Returns the number of parameters of the head with this name, or `None` if it is not declared.
    pub fn arity_of(&self, name: &str) -> Option<usize>
        ensures { result ≡ arity_of self.now name.now }
    {
        let number = self.names.place_of(name)?;
        self.arities.get(number).copied()
    }

    /// Adds a head, unless its name is declared already. On failure the heads are unchanged.
    pub fn add(&mut self, alloc: Global, name: &str, arity: usize) -> Result<(), AllocError>
        ensures ok { OnOk result (self.new ≡ with_head self.old name.now arity) }
    {
        if !self.names.contains(name) {
            self.arities.reserve(1)?;
            self.names.add(alloc, name)?;
            self.arities.push(arity)?;
        }
        Ok(())
    }

    /// Returns the names and the numbers of parameters.
    pub fn into_parts(self) -> (Names, Vec<usize>)
        ensures names { result.0 ≡ self.names }
        ensures arities { result.1.items ≡ self.arities }
    {
        (self.names, self.arities)
    }
}
