//! Distinct names and their numbers.
#![tactic(auto)]

ghost use Rattle.std.specs.Prelude.{◌≡◌, ◌<◌, ◌≤◌, ◌↔◌, [], length, slice_get, slice_index_or, IsTrue, IsOk, IsSome, Some, IfOk, IfSome, OnErr, OnOk};
ghost use Rattle.std.specs.Option.{option_map};
ghost use Rattle.pddl_names.specs.Names.{place_of, number_of, is_there, with_name, AreDistinct};

use indexmap::IndexSet;
use std::alloc::{AllocError, Global};
use std::marker::Model;

/// Distinct names, numbered from 0 in the order in which they were first added.
///
/// In contracts its value is the list of the texts, in that order. Each look-up is by hash.
#[derive(Debug, Drop)]
pub struct Names {
    table: IndexSet<String>,
}

impl Model for Names {
    ghost use Rattle.std.specs.Prelude.{List, ℕ};
    ghost use Rattle.pddl_names.specs.Names.{texts_of};

    ghost Value = { List (List ℕ) };

    ghost view = { λ n. texts_of n.table.keys };
}

impl Names {
    /// Returns an empty table. Allocates nothing before the first name is added.
    pub fn new(alloc: Global) -> Names
        ensures { result ≡ [] }
    {
        Names {
            table: IndexSet::new(alloc),
        }
    }

    /// Returns the number of names.
    pub fn len(&self) -> usize
        ensures { result ≡ length self.now }
    {
        self.table.len()
    }

    /// Returns whether there are no names.
    pub fn is_empty(&self) -> bool
        ensures { IsTrue result ↔ (self.now ≡ []) }
    {
        self.table.is_empty()
    }

    /// Returns the number of the name, or `None` if the name is not in the table.
    pub fn place_of(&self, name: &str) -> Option<usize>
        ensures place { result ≡ place_of self.now name.now }
        ensures bound { IfSome result (λ n. n < length self.now) }
    {
        self.table.get_index_of(name)
    }

    /// Returns the number of the name, or `len()` if the name is not in the table.
    pub fn number_of(&self, name: &str) -> usize
        ensures number { result ≡ number_of self.now name.now }
        ensures bound { result ≤ length self.now }
    {
        self.place_of(name).unwrap_or(self.len())
    }

    /// Returns whether the name is in the table.
    pub fn contains(&self, name: &str) -> bool
        ensures { result ≡ is_there self.now name.now }
    {
        self.table.contains(name)
    }

    /// Adds the name if it is new, and returns its number. A name that is in the table keeps its number. Only a new
    /// name allocates.
    pub fn add(&mut self, alloc: Global, name: &str) -> Result<usize, AllocError>
        ensures names { OnOk result (self.new ≡ with_name self.old name.now) }
        ensures number { IfOk result (λ n. n ≡ number_of self.new name.now) }
        ensures place { IfOk result (λ n. n ≡ number_of self.old name.now) }
        ensures bound { IfOk result (λ n. n < length self.new) }
        ensures err { OnErr result (self.new ≡ self.old) }
        ensures known { IsTrue (is_there self.old name.now) → IsOk result }
    {
        if let Some(number) = self.place_of(name) {
            return Ok(number);
        }
        let (number, _) = self.table.insert_full(String::from_str(alloc, name)?)?;
        Ok(number)
    }

    /// Returns the name with the number, or `None` if the number is not below `len()`.
    pub fn name(&self, number: usize) -> Option<&str>
        ensures name { option_map (λ s. s.now) result ≡ slice_get self.now number }
        ensures found { IsSome result ↔ (number < length self.now) }
        ensures at { IfSome result (λ s. slice_get self.now number ≡ Some s.now) }
    {
        let name = self.table.get_index(number)?;
        Some(name.as_str())
    }

    /// Returns the name with the number, or the empty text if the number is not below `len()`.
    pub fn name_or_empty(&self, number: usize) -> &str
        ensures { result.now ≡ slice_index_or self.now number [] }
    {
        match self.name(number) {
            Some(name) => name,
            None => "",
        }
    }

    /// Returns a copy of the table, with the same names and the same numbers.
    pub fn try_clone(&self) -> Result<Names, AllocError>
        ensures { IfOk result (λ n. n ≡ self.now) }
    {
        let table = self.table.clone()?;
        Ok(Names { table })
    }

    /// Proves that the names are distinct, so the number of the name with the number n is n.
    pub fn are_distinct(&self)
        ensures { AreDistinct self.now }
    {
        let _ = self.table.len();
    }
}
