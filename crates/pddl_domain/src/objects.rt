//! The sections of the constants and the objects.

ghost use Rattle.std.specs.Prelude.{◌≡◌, ◌++◌, ◌∷◌, ◌<◌, [], ℕ, List, Option, length, OnOk, IfOk, false};
ghost use Rattle.std.specs.Option.{option_map, IfSome};
ghost use Rattle.sexp.specs.Forms.{views};
ghost use Rattle.pddl_syntax.specs.declared.fault.Fault.{Fault};
ghost use Rattle.std.specs.String.{string_bytes};
ghost use Rattle.pddl_syntax.specs.Faults.{first_of};
ghost use Rattle.pddl_syntax.specs.Typed.{Declared, declared, spread, spread_run, with_type, parent_text};
ghost use Rattle.pddl_domain.specs.Objects as spec;
ghost use Rattle.pddl_domain.specs.Objects.{Objects as DeclaredObjects, IsTextOf, objects_with, with_entry, declaration_faults, object_faults, objects_faults};

use crate::types::differs;
use pddl_names::Names;
use pddl_syntax::{Fault, FaultKind, LimitedTable, Named, Run, Types, blame_if, typed_list};
use sexp::Tree;
use std::alloc::{AllocError, Global};
use std::marker::Model;

/// The greatest number of objects, counting constants and those of the problem together.
const MAX_OBJECTS: usize = 4096;

/// The objects of a task, in the order of their first declarations, each with its type in that declaration.
///
/// The names of the types have numbers of their own here, because a type that is not declared has no number among the
/// types. So the types of two declarations of an object are compared by numbers rather than by texts.
#[derive(Debug, Drop)]
pub struct Objects {
    names: Names,
    types: Vec<usize>,
    /// The names of the types that follow objects.
    texts: Names,
    /// For each object the number in `texts` of its type at its first declaration, or `None` if that type cannot be
    /// read.
    firsts: Vec<Option<usize>>,
}

impl Model for Objects {
    ghost use Rattle.pddl_domain.specs.Objects as spec;

    ghost Value = { spec.Objects };

    ghost view = { λ o. record { names = o.names; types = o.types.items; texts = o.texts; firsts = o.firsts.items } };

    ghost invariant = { λ o. spec.AreTexts o.texts o.firsts.items };
}

/// The type of a run's objects: its number among the types, and that of its name in `texts`, which is `None` if the
/// type cannot be read.
#[derive(Clone, Copy)]
struct DeclaredType {
    number: usize,
    text: Option<usize>,
}

impl Objects {
    /// Returns an empty table of objects. Allocates nothing before the first object is declared.
    pub fn new(alloc: Global) -> Objects
        ensures { result ≡ spec.no_objects }
    {
        Objects {
            names: Names::new(alloc),
            types: Vec::new(alloc),
            texts: Names::new(alloc),
            firsts: Vec::new(alloc),
        }
    }

    /// Returns the names, in the order of their first declarations.
    pub fn names(&self) -> &Names
        ensures { result.now ≡ self.now.names }
    {
        &self.names
    }

    /// Returns the type number of each object, in the order of the names: the number of types for a type that is not
    /// declared, and 0, the number of `object`, for one that cannot be read.
    pub fn types(&self) -> &[usize]
        ensures { result.now ≡ self.now.types }
    {
        &self.types
    }

    /// Returns the names and the numbers of the types, as `names` and `types` return them.
    pub fn into_parts(self) -> (Names, Vec<usize>)
        ensures names { result.0 ≡ self.names }
        ensures types { result.1.items ≡ self.types }
    {
        (self.names, self.types)
    }

    /// Returns the number in `texts` of the type at the first declaration of this name.
    fn first_text(&self, name: &str) -> Option<usize>
        ensures { result ≡ spec.first_text self.now name.now }
    {
        let number = self.names.place_of(name)?;
        *self.firsts.get(number)?
    }

    /// Returns the type of a run, and adds its name to `texts`.
    fn type_of(
        &mut self,
        alloc: Global,
        types: &Types,
        run: &Run,
    ) -> Result<DeclaredType, AllocError>
        ensures objects { OnOk result (self.new ≡ spec.with_text self.old (parent_text run.now)) }
        ensures number { IfOk result (λ d. d.number ≡ spec.number_of_type types.now.names (parent_text run.now)) }
        ensures text { IfOk result (λ d. spec.IsTextOf self.new.texts (parent_text run.now) d.text) }
    {
        match &run.parent {
            Some(parent) => Ok(DeclaredType {
                number: types.names.number_of(parent.as_str()),
                text: Some(self.texts.add(alloc, parent.as_str())?),
            }),
            None => Ok(DeclaredType {
                number: 0,
                text: None,
            }),
        }
    }

    /// Adds an object, unless its name is declared already.
    fn add(&mut self, alloc: Global, name: &str, declared: DeclaredType) -> Result<(), AllocError>
        requires { IfSome declared.text (λ n. n < length self.old.texts) }
        ensures { OnOk result (self.new ≡ with_entry self.old name.now declared.number declared.text) }
    {
        if !self.names.contains(name) {
            self.names.add(alloc, name)?;
            self.types.push(declared.number)?;
            self.firsts.push(declared.text)?;
        }
        Ok(())
    }

    /// Returns whether the type at the first declaration of this name and the type with the number `text` are both
    /// known and differ.
    fn is_other_type(&self, name: &str, text: Option<usize>) -> bool
        ensures { (p : Option (List ℕ)) → IsTextOf self.now.texts p text → result ≡ spec.differs_text (spec.first_type self.now name.now) p }
    {
        self.texts.are_distinct();
        differs(self.first_text(name), text)
    }

    /// Declares an object, and records a fault if it was declared with another type or is past the limit.
    fn declare(
        &mut self,
        alloc: Global,
        named: &Named,
        declared: DeclaredType,
        first: &mut Option<Fault>,
    ) -> Result<(), AllocError>
        requires { IfSome declared.text (λ n. n < length self.old.texts) }
        ensures objects { OnOk result (self.new ≡ with_entry self.old (string_bytes named.now.name) declared.number declared.text) }
        ensures faults { OnOk result ((p : Option (List ℕ)) (rest : List Fault) → IsTextOf self.old.texts p declared.text
            → first_of first.old (declaration_faults self.old (with_type p named.now) rest) ≡ first_of first.new rest) }
    {
        let name = named.name.as_str();
        blame_if(
            self.is_other_type(name, declared.text),
            first,
            named.at,
            FaultKind::TwiceDeclared,
        );
        blame_if(
            !self.names.contains(name) && self.names.len() >= MAX_OBJECTS,
            first,
            named.at,
            FaultKind::Limit(LimitedTable::Objects),
        );
        self.add(alloc, name, declared)
    }

    /// Declares the objects of a run, and records their faults.
    fn declare_run(
        &mut self,
        alloc: Global,
        types: &Types,
        run: &Run,
        first: &mut Option<Fault>,
    ) -> Result<(), AllocError>
        ensures objects { OnOk result (self.new ≡ objects_with types.now.names self.old (spread_run run.now)) }
        ensures faults { OnOk result ((rest : List Declared) → first_of first.old (object_faults types.now.names self.old (spread_run run.now ++ rest))
            ≡ first_of first.new (object_faults types.now.names self.new rest)) }
    {
        if run.names.is_empty() {
            return Ok(());
        }
        let declared = self.type_of(alloc, types, run)?;
        for named in &run.names {
            self.declare(alloc, named, declared, first)?;
        }
        Ok(())
    }
}

/// Proves that if each object has a type, each has one after further declarations too.
#[tactic(auto, using(crate::proofs::ObjectSteps::types_count))]
pub fn each_object_has_a_type()
    ensures { (types : List (List ℕ)) (o : DeclaredObjects) (ds : List Declared) → length o.types ≡ length o.names
        → length (objects_with types o ds).types ≡ length (objects_with types o ds).names }
{}

/// Reads the section of objects at `home`, whose items without its head are `items`, adds the objects and records the
/// faults in `first`.
///
/// The constants of a domain and the objects of its problem form one table. An object that is declared twice, with
/// types of different names, is a fault at the later declaration, and so is each object past the 4,096th (Fox and Long
/// 2003). After a failure the objects must not be used again.
#[tactic(auto, unfolding(pddl_syntax::specs::Faults::first_of))]
pub fn objects_section(
    alloc: Global,
    items: &[Tree],
    types: &Types,
    home: usize,
    objects: &mut Objects,
    first: &mut Option<Fault>,
) -> Result<(), AllocError>
    ensures objects { OnOk result (objects.new ≡ objects_with types.now.names objects.old (declared false (views items.now))) }
    ensures faults { OnOk result (first.new ≡ first_of first.old (objects_faults types.now.names objects.old home (views items.now))) }
{
    let runs = typed_list(alloc, items, false, false, types, home, first)?;
    for run in &runs {
        objects.declare_run(alloc, types, run, first)?;
    }
    Ok(())
}
