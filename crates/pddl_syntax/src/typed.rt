//! Typed lists.

ghost use Rattle.std.specs.Prelude.{◌≡◌, ◌++◌, map, ℕ, Bool, List, IfOk, OnOk, IsTrue, ◌↔◌, Some, None, true, false, [], codes};
ghost use Rattle.std.specs.Option.{option_map};
ghost use Rattle.std.specs.String.{string_bytes};
ghost use Rattle.sexp.specs.Forms.{Forms, before, views, none, word};
ghost use Rattle.pddl_syntax.specs.Faults.{first_of};
ghost use Rattle.pddl_syntax.specs.Typed.{item_of, either_at, is_either, type_of_word, type_word_faults, type_group_faults, type_at, type_faults, with_type, declared, typed_faults, spread, reading_of, complaints_of, is_known};
ghost use Rattle.pddl_syntax.specs.Words.{word_kind};

use crate::fault::{Fault, FaultKind, blame};
use crate::word::{WordKind, word_kind};
use pddl_names::Names;
use sexp::Tree;
use std::alloc::{AllocError, Global};
use std::mem;

/// The types, `object` first, each with the number of its supertype.
#[derive(Debug, Drop)]
pub struct Types {
    pub names: Names,
    pub supertypes: Vec<usize>,
}

/// The role of a word in a typed list.
#[derive(Clone, Copy, Debug, PartialEq, Eq)]
pub enum Item {
    /// A name or a variable, whichever the list declares.
    Entry,
    /// A lone hyphen. A type follows it.
    Hyphen,
    /// Any other word.
    Wrong,
}

/// A name and its byte offset.
#[derive(Debug, Drop)]
pub struct Named {
    pub name: String,
    pub at: usize,
}

/// Names and the type that follows them: `object` if the list ends without a type, and `None` if the type cannot be
/// read.
#[derive(Debug, Drop)]
pub struct Run {
    pub names: Vec<Named>,
    pub parent: Option<String>,
}

/// The state of reading a typed list: what was read so far.
#[derive(Debug, Drop)]
pub struct Typed {
    alloc: Global,
    runs: Vec<Run>,
    names: Vec<Named>,
    wants_type: bool,
}

fn item_of(variables: bool, text: &str) -> Item
    ensures { result ≡ item_of variables text.now }
{
    match (word_kind(text), variables) {
        (WordKind::Dash, _) => Item::Hyphen,
        (WordKind::Name, false) | (WordKind::Variable, true) => Item::Entry,
        _ => Item::Wrong,
    }
}

fn is_either(text: &str) -> bool
    ensures { result ≡ is_either text.now }
{
    text == "either"
}

/// Returns whether the type is declared, or `any` type is allowed.
fn is_known(any: bool, types: &Types, text: &str) -> bool
    ensures { result ≡ is_known any types.now text.now }
{
    any || types.names.contains(text)
}

/// Returns the type that a word at `at` names, or `None` if it names no type. Records faults in `first`.
#[tactic(auto, unfolding(crate::specs::Faults::first_of))]
fn read_type_word(
    alloc: Global,
    any: bool,
    types: &Types,
    text: &str,
    at: usize,
    first: &mut Option<Fault>,
) -> Result<Option<String>, AllocError>
    ensures parent { IfOk result (λ p. option_map string_bytes p ≡ type_of_word text.now (word_kind text.now)) }
    ensures faults { OnOk result (first.new ≡ first_of first.old (type_word_faults (is_known any types.now) text.now at (word_kind text.now))) }
{
    if word_kind(text) != WordKind::Name {
        blame(first, at, FaultKind::Shape);
        return Ok(None);
    }
    if is_either(text) {
        blame(first, at, FaultKind::Unsupported);
        return Ok(None);
    }
    if !is_known(any, types, text) {
        blame(first, at, FaultKind::UnknownName);
    }
    Ok(Some(String::from_str(alloc, text)?))
}

/// Returns the byte offset of the tree if it is the word `either`.
fn either_at(tree: &Tree) -> Option<usize>
    ensures { (rest : Forms) → result ≡ either_at (before tree.now rest) }
{
    match tree {
        Tree::Word { text, span } => {
            if is_either(text.as_str()) {
                Some(span.start)
            } else {
                None
            }
        }
        Tree::List { .. } => None,
    }
}

fn head_either_at(items: &[Tree]) -> Option<usize>
    ensures { result ≡ either_at (views items.now) }
{
    match items {
        [] => None,
        [head, ..] => either_at(head),
    }
}

/// Records the fault of the list at `at` in the position of a type, whose items are `items`: F11 at the word `either`
/// if that is its head, otherwise F10.
#[tactic(auto, unfolding(crate::specs::Faults::first_of))]
pub fn blame_type_list(items: &[Tree], at: usize, first: &mut Option<Fault>)
    ensures { first.new ≡ first_of first.old (type_group_faults at (views items.now)) }
{
    match head_either_at(items) {
        Some(place) => blame(first, place, FaultKind::Unsupported),
        None => blame(first, at, FaultKind::Shape),
    }
}

/// Returns the type that a tree names, or `None` if it names no type. Records faults in `first`.
fn read_type(
    alloc: Global,
    any: bool,
    types: &Types,
    tree: &Tree,
    first: &mut Option<Fault>,
) -> Result<Option<String>, AllocError>
    ensures parent { IfOk result (λ p. (rest : Forms) → option_map string_bytes p ≡ type_at (before tree.now rest)) }
    ensures faults { OnOk result ((v : Bool) (home : ℕ) (rest : Forms) →
        first_of first.old (type_faults v (is_known any types.now) home (before tree.now rest))
        ≡ first_of first.new (typed_faults v (is_known any types.now) home true rest)) }
{
    match tree {
        Tree::Word { text, span } => read_type_word(
            alloc,
            any,
            types,
            text.as_str(),
            span.start,
            first,
        ),
        Tree::List { items, span } => {
            blame_type_list(items, span.start, first);
            Ok(None)
        }
    }
}

impl Typed {
    fn new(alloc: Global) -> Typed
        ensures meaning { (v : Bool) (rest : Forms) → reading_of v result rest ≡ declared v rest }
        ensures faults { (v : Bool) (known : List ℕ → Bool) (home : ℕ) (rest : Forms) →
            complaints_of v known home result rest ≡ typed_faults v known home true rest }
    {
        Typed {
            alloc,
            runs: Vec::new(alloc),
            names: Vec::new(alloc),
            wants_type: false,
        }
    }

    /// Reads a word in the position of a name.
    #[tactic(auto, unfolding(crate::specs::Faults::first_of))]
    fn read_word(
        &mut self,
        variables: bool,
        text: &str,
        at: usize,
        first: &mut Option<Fault>,
    ) -> Result<(), AllocError>
        requires { self.old.wants_type ≡ false }
        ensures parent { OnOk result ((end : ℕ) (rest : Forms) → reading_of variables self.old (word at end text.now rest)
            ≡ reading_of variables self.new rest) }
        ensures faults { OnOk result ((known : List ℕ → Bool) (home end : ℕ) (rest : Forms) →
            first_of first.old (complaints_of variables known home self.old (word at end text.now rest))
            ≡ first_of first.new (complaints_of variables known home self.new rest)) }
    {
        match item_of(variables, text) {
            Item::Entry => {
                let name = String::from_str(self.alloc, text)?;
                self.names.push(Named { name, at })?;
            }
            Item::Hyphen => {
                if self.names.is_empty() {
                    blame(first, at, FaultKind::Shape);
                }
                self.wants_type = true;
            }
            Item::Wrong => blame(first, at, FaultKind::Shape),
        }
        Ok(())
    }

    /// Ends the current run of names, with its type.
    fn end_run(&mut self, parent: Option<String>) -> Result<(), AllocError>
        ensures runs { OnOk result (spread self.new.runs.items
            ≡ spread self.old.runs.items ++ map (with_type (option_map string_bytes parent)) self.old.names.items) }
        ensures names { OnOk result (self.new.names.items ≡ []) }
        ensures wants { OnOk result (self.new.wants_type ≡ false) }
    {
        let names = mem::replace(&mut self.names, Vec::new(self.alloc));
        self.runs.push(Run { names, parent })?;
        self.wants_type = false;
        Ok(())
    }

    /// Reads the next tree.
    fn read(
        &mut self,
        variables: bool,
        any: bool,
        types: &Types,
        tree: &Tree,
        first: &mut Option<Fault>,
    ) -> Result<(), AllocError>
        ensures parent { OnOk result ((rest : Forms) → reading_of variables self.old (before tree.now rest) ≡ reading_of variables self.new rest) }
        ensures faults { OnOk result ((home : ℕ) (rest : Forms) →
            first_of first.old (complaints_of variables (is_known any types.now) home self.old (before tree.now rest))
            ≡ first_of first.new (complaints_of variables (is_known any types.now) home self.new rest)) }
    {
        if self.wants_type {
            let parent = read_type(self.alloc, any, types, tree, first)?;
            return self.end_run(parent);
        }
        match tree {
            Tree::Word { text, span } => self.read_word(
                variables,
                text.as_str(),
                span.start,
                first,
            ),
            Tree::List { items: _, span } => {
                blame(first, span.start, FaultKind::Shape);
                Ok(())
            }
        }
    }

    /// Ends the list at `home`, and returns its runs.
    #[tactic(auto, unfolding(crate::specs::Faults::first_of))]
    fn finish(mut self, home: usize, first: &mut Option<Fault>) -> Result<Vec<Run>, AllocError>
        ensures meaning { IfOk result (λ runs. (v : Bool) → spread runs.items ≡ reading_of v self none) }
        ensures faults { OnOk result ((v : Bool) (known : List ℕ → Bool) → first.new ≡ first_of first.old (complaints_of v known home self none)) }
    {
        if self.wants_type {
            blame(first, home, FaultKind::Shape);
            self.end_run(None)?;
        } else {
            let object = String::from_str(self.alloc, "object")?;
            self.end_run(Some(object))?;
        }
        Ok(self.runs)
    }
}

/// Reads the typed list of names or variables at `home` and records its faults in `first`. If `any` is set, every type
/// counts as declared.
pub fn typed_list(
    alloc: Global,
    items: &[Tree],
    variables: bool,
    any: bool,
    types: &Types,
    home: usize,
    first: &mut Option<Fault>,
) -> Result<Vec<Run>, AllocError>
    ensures meaning { IfOk result (λ runs. spread runs.items ≡ declared variables (views items.now)) }
    ensures faults { OnOk result (first.new ≡ first_of first.old (typed_faults variables (is_known any types.now) home true (views items.now))) }
{
    let mut typed = Typed::new(alloc);
    for tree in items {
        typed.read(variables, any, types, tree, first)?;
    }
    typed.finish(home, first)
}
