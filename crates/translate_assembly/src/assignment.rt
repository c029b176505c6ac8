//! Facts, sorted by variable.

ghost use Rattle.std.specs.Prelude.{◌≡◌, ◌<◌, [], length, OnOk, IfOk};
ghost use Rattle.translate_assembly.specs.Facts.{has_fact, set_fact, with_fact, place_in};

use fdr::Fact;
use std::alloc::{AllocError, Global};
use std::marker::Model;

/// Facts in the order of their variables, at most one for each.
#[derive(Debug, Drop)]
pub(crate) struct Assignment {
    facts: Vec<Fact>,
}

impl Model for Assignment {
    ghost use Rattle.std.specs.Prelude.{◌≡◌, List, true};
    ghost use Rattle.fdr.specs.declared.fact.Fact.{Fact as Facts};
    ghost use Rattle.translate_assembly.specs.Facts.{are_from};

    ghost Value = { List Facts };

    ghost view = { λ a. a.facts.items };

    ghost invariant = { λ a. are_from 0 a.facts.items ≡ true };
}

impl Assignment {
    pub(crate) fn new(alloc: Global) -> Assignment
        ensures { result ≡ [] }
    {
        Assignment {
            facts: Vec::new(alloc),
        }
    }

    /// Returns the index of the fact on a variable, or as an error the index at which it would be inserted.
    fn search(&self, variable: usize) -> Result<usize, usize>
        ensures place { result ≡ place_in self.now variable }
        ensures bound { IfOk result (λ place. place < length self.now) }
    {
        self.facts
            .binary_search_by_key(&variable, |fact| fact.variable)
    }

    /// Sets the fact, replacing the one on its variable if there is one.
    fn set(&mut self, fact: Fact) -> Result<(), AllocError>
        ensures { OnOk result (self.new ≡ set_fact self.old fact) }
    {
        match self.search(fact.variable) {
            Ok(place) => self.facts[place] = fact,
            Err(place) => self.facts.insert(place, fact)?,
        }
        Ok(())
    }

    /// Sets the fact, if there is one.
    pub(crate) fn set_some(&mut self, fact: Option<Fact>) -> Result<(), AllocError>
        ensures { OnOk result (self.new ≡ with_fact self.old fact) }
    {
        if let Some(fact) = fact {
            self.set(fact)?;
        }
        Ok(())
    }

    /// Returns whether the fact is one of these.
    pub(crate) fn holds(&self, fact: Fact) -> bool
        ensures { result ≡ has_fact self.now fact }
    {
        match self.search(fact.variable) {
            Ok(place) => fact.value == self.facts[place].value,
            Err(_) => false,
        }
    }

    pub(crate) fn as_slice(&self) -> &[Fact]
        ensures { result.now ≡ self.now }
    {
        &self.facts
    }

    pub(crate) fn into_facts(self) -> Vec<Fact>
        ensures { result.items ≡ self }
    {
        let Assignment { facts } = self;
        facts
    }
}
