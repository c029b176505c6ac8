//! The section of the initial state.

ghost use Rattle.std.specs.Prelude.{◌≡◌, ◌++◌, ℕ, ◌+◌, List, [], false, option_to_list, IfOk, OnOk};
ghost use Rattle.sexp.specs.Forms.{Forms, before, views, start_of};
ghost use Rattle.pddl_syntax.specs.Faults.{first_of, fault, faults_if};
ghost use Rattle.pddl_syntax.specs.declared.fault.Fault.{Fault as FaultAt};
ghost use Rattle.pddl_syntax.specs.declared.fault.FaultKind.TheVariants.{TwiceDeclared as Twice};
ghost use Rattle.pddl_problem.specs.Initial as spec;

use crate::grounding::ground;
use crate::value::{keep_value, read_value};
use indexmap::IndexMap;
use pddl_effect::negated;
use pddl_syntax::{Fault, FaultKind, LimitedTable, blame, blame_if};
use pddl_task::{GroundAtom, LiftedAtom};
use pddl_terms::{Beginning, HeadedList, Reader, Scope, Setting, atom, beginning_of};
use sexp::Tree;
use std::alloc::{AllocError, Global};

/// The greatest number of items of the section.
const MAX_ITEMS: usize = 1_000_000;

/// The kind of an item of the section, by its head and the rest of it.
#[derive(Clone, Copy, Debug, PartialEq, Eq)]
pub enum ItemKind {
    /// An atom that is true.
    TrueAtom,
    /// The value of a function.
    Value,
    /// The negation of an atom. It adds nothing, because an atom is false unless it is stated.
    Negated,
    /// A construct of PDDL that is not supported, such as a timed literal.
    NotRead,
    /// A list whose head is not a name.
    Nothing,
}

/// The initial state, and the initial values of functions.
#[derive(Drop)]
pub struct Initial {
    /// The atoms that are true, in the order of the text.
    pub atoms: Vec<GroundAtom>,
    /// The stated values of functions at objects. Of two values for the same function and objects the first counts.
    pub values: IndexMap<GroundAtom, u64>,
}

impl Initial {
    fn new(alloc: Global) -> Initial
        ensures atoms { result.atoms.items ≡ [] }
        ensures values { result.values.entries ≡ [] }
    {
        Initial {
            atoms: Vec::new(alloc),
            values: IndexMap::new(alloc),
        }
    }

    fn keep_atom(&mut self, alloc: Global, atom: Option<LiftedAtom>) -> Result<(), AllocError>
        ensures atoms { OnOk result (self.new.atoms.items ≡ self.old.atoms.items ++ option_to_list (spec.atom_of atom)) }
        ensures values { OnOk result (self.new.values.entries ≡ self.old.values.entries) }
    {
        if let Some(atom) = ground(alloc, atom)? {
            self.atoms.push(atom)?;
        }
        Ok(())
    }
}

#[tactic(auto, using(sexp::proofs::Walking::walking))]
fn is_list(tree: &Tree, otherwise: bool) -> bool
    ensures { (rest : Forms) → spec.ends_in_list result rest ≡ spec.ends_in_list otherwise (before tree.now rest) }
{
    match tree {
        Tree::Word { .. } => false,
        Tree::List { .. } => true,
    }
}

/// Returns whether the last of the items is a list; `false` if there are none.
#[tactic(auto, using(sexp::proofs::Walking::walking))]
fn ends_in_list(items: &[Tree]) -> bool
    ensures { result ≡ spec.ends_in_list false (views items.now) }
{
    let mut ends_in_list = false;
    for item in items {
        ends_in_list = is_list(item, ends_in_list);
    }
    ends_in_list
}

fn item_kind(head: &str, items: &[Tree]) -> ItemKind
    ensures { result ≡ spec.item_kind head.now (views items.now) }
{
    match beginning_of(Setting::InInitial, head) {
        Beginning::Negation => ItemKind::Negated,
        Beginning::Unread => ItemKind::NotRead,
        Beginning::NoName => ItemKind::Nothing,
        _ if head == "=" => ItemKind::Value,
        _ if head == "at" && ends_in_list(items) => ItemKind::NotRead,
        _ => ItemKind::TrueAtom,
    }
}

/// Reads an item, a list that begins with a word.
#[tactic(auto, using(pddl_syntax::proofs::Trees::noting, crate::proofs::Steps::appending), unfolding(pddl_syntax::specs::Faults::first_of))]
fn read_list(
    reader: &Reader,
    list: &HeadedList,
    state: &mut Initial,
    first: &mut Option<Fault>,
) -> Result<(), AllocError>
    ensures atoms { OnOk result (
        state.new.atoms.items ≡ state.old.atoms.items
        ++ option_to_list (spec.item_atom reader.now list.now.head (views list.now.rest) (spec.item_kind list.now.head (views list.now.rest)))) }
    ensures values { OnOk result (
        spec.values_of state.new.values.entries ≡ spec.with_value (spec.values_of state.old.values.entries)
        (spec.item_value reader.now (views list.now.rest) (spec.item_kind list.now.head (views list.now.rest)))) }
    ensures faults { (fs : List FaultAt) → OnOk result (
        first_of first.old (spec.item_faults reader.now list.now.start list.now.head_start list.now.head
        (views list.now.rest) (spec.item_kind list.now.head (views list.now.rest))
        ++ faults_if (spec.is_restated (spec.values_of state.old.values.entries)
        (spec.item_value reader.now (views list.now.rest) (spec.item_kind list.now.head (views list.now.rest)))) (fault Twice list.now.start) fs)
        ≡ first_of first.new fs) }
{
    match item_kind(list.head, list.rest) {
        ItemKind::Negated => {
            negated(Setting::InInitial, reader, list, first)?;
        }
        ItemKind::NotRead => blame(first, list.head_start, FaultKind::Unsupported),
        ItemKind::Nothing => blame(first, list.head_start, FaultKind::Shape),
        ItemKind::Value => {
            let stated = read_value(reader, list, first)?;
            keep_value(&mut state.values, stated, list.start, first)?
        }
        ItemKind::TrueAtom => {
            let atom = atom(reader, list, first)?;
            state.keep_atom(reader.alloc, atom)?
        }
    }
    Ok(())
}

/// Reads a tree as an item, adds its meaning to `state` and records its faults in `first`.
#[tactic(auto, using(sexp::proofs::Walking::walking, pddl_syntax::proofs::Trees::noting, crate::proofs::Steps::appending), unfolding(pddl_syntax::specs::Faults::first_of))]
fn read_item(
    reader: &Reader,
    tree: &Tree,
    state: &mut Initial,
    first: &mut Option<Fault>,
) -> Result<(), AllocError>
    ensures atoms { (rest : Forms) → OnOk result (
        state.old.atoms.items ++ spec.initial_atoms reader.now (before tree.now rest) ≡ state.new.atoms.items ++ spec.initial_atoms reader.now rest) }
    ensures values { (rest : Forms) → OnOk result (
        spec.stated_values reader.now (spec.values_of state.old.values.entries) (before tree.now rest)
        ≡ spec.stated_values reader.now (spec.values_of state.new.values.entries) rest) }
    ensures faults { (n : ℕ) (rest : Forms) → OnOk result (
        first_of first.old (spec.initial_faults reader.now n (spec.values_of state.old.values.entries) (before tree.now rest))
        ≡ first_of first.new
        (spec.past_limit n (start_of (before tree.now rest)) (spec.initial_faults reader.now (n + 1) (spec.values_of state.new.values.entries) rest))) }
{
    match tree {
        Tree::Word { span, .. } => blame(first, span.start, FaultKind::Shape),
        Tree::List { items, span } => match items.as_slice() {
            [] => blame(first, span.start, FaultKind::Shape),
            [head, rest @ ..] => match head {
                Tree::List { span, .. } => blame(first, span.start, FaultKind::Shape),
                Tree::Word {
                    text,
                    span: head_span,
                } => {
                    let list = HeadedList::new(*span, text.as_str(), *head_span, rest);
                    read_list(reader, &list, state, first)?
                }
            },
        },
    }
    Ok(())
}

/// Reads the items in their order, adds their meaning to `state` and records their faults in `first`.
#[tactic(auto, using(sexp::proofs::Walking::walking), unfolding(pddl_syntax::specs::Faults::first_of))]
fn read_items(
    reader: &Reader,
    items: &[Tree],
    state: &mut Initial,
    first: &mut Option<Fault>,
) -> Result<(), AllocError>
    ensures atoms { OnOk result (state.new.atoms.items ≡ state.old.atoms.items ++ spec.initial_atoms reader.now (views items.now)) }
    ensures values { OnOk result (
        spec.values_of state.new.values.entries ≡ spec.stated_values reader.now (spec.values_of state.old.values.entries) (views items.now)) }
    ensures faults { OnOk result (
        first.new ≡ first_of first.old (spec.initial_faults reader.now 0 (spec.values_of state.old.values.entries) (views items.now))) }
{
    for (count, item) in items.iter().enumerate() {
        read_item(reader, item, state, first)?;
        blame_if(
            count == MAX_ITEMS,
            first,
            item.span().start,
            FaultKind::Limit(LimitedTable::Init),
        );
    }
    Ok(())
}

/// Reads the section `:init`, whose items without its head are `items`, and records its faults in `first`. An item that
/// cannot be read adds nothing.
///
/// An item is an atom, the negation of one, which adds nothing, or `(= function number)`. Of two values for the same
/// function and objects the first counts (McDermott and others 1998; Fox and Long 2003).
///
/// F10 for an item of another form; F11 for a construct of PDDL that is not supported, such as a timed literal, and for
/// a total cost above 0; F12 for a name that is not declared; F13 for a predicate or a function with another number of
/// objects; F14 for a second and different value for the same function and objects; F16 and F17 for a number with a
/// fraction or out of range; F18 for the item 1,000,001.
pub fn initial_section(
    alloc: Global,
    scope: &Scope,
    items: &[Tree],
    first: &mut Option<Fault>,
) -> Result<Initial, AllocError>
    ensures atoms { IfOk result (λ i. i.atoms.items ≡ spec.initial_atoms scope.now (views items.now)) }
    ensures values { IfOk result (λ i. spec.values_of i.values.entries ≡ spec.stated_values scope.now [] (views items.now)) }
    ensures faults { OnOk result (first.new ≡ first_of first.old (spec.initial_faults scope.now 0 [] (views items.now))) }
{
    let mut state = Initial::new(alloc);
    let reader = Reader { alloc, scope };
    read_items(&reader, items, &mut state, first)?;
    Ok(state)
}
