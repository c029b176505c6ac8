//! Initial values of functions.

ghost use Rattle.std.specs.Prelude.{◌≡◌, not, List, IfOk, OnOk};
ghost use Rattle.sexp.specs.Forms.{Forms, before, views};
ghost use Rattle.pddl_syntax.specs.Faults.{first_of, fault, faults_if};
ghost use Rattle.pddl_syntax.specs.declared.fault.Fault.{Fault as FaultAt};
ghost use Rattle.pddl_syntax.specs.declared.fault.FaultKind.TheVariants.{TwiceDeclared as Twice};
ghost use Rattle.pddl_syntax.specs.Words.{word_kind};
ghost use Rattle.pddl_syntax.specs.Numbers.{number_of};
ghost use Rattle.pddl_terms.specs.Terms.{not_empty};
ghost use Rattle.pddl_problem.specs.Initial as spec;

use crate::grounding::ground;
use indexmap::IndexMap;
use pddl_syntax::{
    Fault, FaultKind, Number, WordKind, blame, blame_if, blame_more, number_of, word_kind,
};
use pddl_task::GroundAtom;
use pddl_terms::{HeadedList, Reader, function, is_total_cost};
use sexp::Tree;
use std::alloc::AllocError;
use std::marker::Model;

/// The initial value of a function at objects.
#[derive(Drop)]
pub struct StatedValue {
    pub function: GroundAtom,
    pub value: u64,
}

impl Model for StatedValue {
    ghost use Rattle.pddl_task.specs.Planning.{FunctionValue};

    ghost Value = { FunctionValue };

    ghost view = { λ v. record { function = v.function; value = v.value } };
}

/// Returns the word at `at` as a whole number. Records its fault in `first`.
#[tactic(auto, unfolding(pddl_syntax::specs::Faults::first_of))]
fn number_word(word: &str, at: usize, first: &mut Option<Fault>) -> Option<u64>
    ensures meaning { result ≡ spec.whole (number_of word.now) }
    ensures faults { first.new ≡ first_of first.old (spec.number_word_faults at (number_of word.now)) }
{
    match number_of(word) {
        Number::Whole(n) => Some(n),
        Number::Fraction => {
            blame(first, at, FaultKind::NotWhole);
            None
        }
        Number::OutOfRange => {
            blame(first, at, FaultKind::CostRange);
            None
        }
        Number::NoNumber => {
            blame(first, at, FaultKind::Shape);
            None
        }
    }
}

/// Returns a tree as a whole number. Records its fault in `first`.
#[tactic(auto, using(sexp::proofs::Walking::walking, pddl_syntax::proofs::Trees::noting), unfolding(pddl_syntax::specs::Faults::first_of))]
fn number(tree: &Tree, first: &mut Option<Fault>) -> Option<u64>
    ensures meaning { (rest : Forms) → result ≡ spec.first_number (before tree.now rest) }
    ensures faults { (rest : Forms) → first.new ≡ first_of first.old (spec.first_number_faults (before tree.now rest)) }
{
    match tree {
        Tree::Word { text, span } => number_word(text.as_str(), span.start, first),
        Tree::List { span, .. } => {
            blame(first, span.start, FaultKind::Shape);
            None
        }
    }
}

/// Returns the whole number in the list at `home`, whose `items` must be exactly one number. Records their faults in
/// `first`.
#[tactic(auto, using(sexp::proofs::Walking::walking, pddl_syntax::proofs::Trees::noting, crate::proofs::Steps::numbers), unfolding(pddl_syntax::specs::Faults::first_of))]
fn number_alone(home: usize, items: &[Tree], first: &mut Option<Fault>) -> Option<u64>
    ensures meaning { result ≡ spec.number_alone (views items.now) }
    ensures faults { first.new ≡ first_of first.old (spec.number_faults home (views items.now)) }
{
    match items {
        [] => {
            blame(first, home, FaultKind::Shape);
            None
        }
        [one] => number(one, first),
        [one, extra, ..] => {
            number(one, first);
            blame(first, extra.span().start, FaultKind::Shape);
            None
        }
    }
}

/// Returns whether a tree is a whole number above 0.
#[tactic(auto, using(sexp::proofs::Walking::walking))]
fn is_positive_number(tree: &Tree) -> bool
    ensures { (rest : Forms) → result ≡ spec.is_positive (before tree.now rest) }
{
    match tree {
        Tree::Word { text, .. } => match number_of(text.as_str()) {
            Number::Whole(n) => n != 0,
            Number::Fraction | Number::OutOfRange | Number::NoNumber => false,
        },
        Tree::List { .. } => false,
    }
}

/// Returns whether the first of the items is a whole number above 0.
#[tactic(auto, using(sexp::proofs::Walking::walking))]
fn is_positive(items: &[Tree]) -> bool
    ensures { result ≡ spec.is_positive (views items.now) }
{
    match items {
        [] => false,
        [one, ..] => is_positive_number(one),
    }
}

/// Returns whether there are no items.
#[tactic(auto, using(sexp::proofs::Walking::walking, pddl_terms::proofs::TermSteps::not_empty_before))]
pub fn is_nothing(items: &[Tree]) -> bool
    ensures { result ≡ not (not_empty (views items.now)) }
{
    match items {
        [] => true,
        [_one, ..] => false,
    }
}

/// Returns a list as a function with its terms. The items `behind` follow the list. The total cost has no initial
/// value: the result for it is `None`, and 0 is the only value that may be stated.
#[tactic(auto, using(pddl_syntax::proofs::Trees::noting), unfolding(pddl_syntax::specs::Faults::first_of))]
fn function_term(
    reader: &Reader,
    list: &HeadedList,
    behind: &[Tree],
    first: &mut Option<Fault>,
) -> Result<Option<GroundAtom>, AllocError>
    ensures meaning { IfOk result (λ a. a ≡ spec.function_by_kind reader.now list.now.head (views list.now.rest) (word_kind list.now.head)) }
    ensures faults { OnOk result (first.new ≡ first_of first.old
        (spec.function_faults reader.now list.now.start list.now.head_start list.now.head (views list.now.rest) (views behind.now) (word_kind list.now.head))) }
{
    if word_kind(list.head) != WordKind::Name {
        blame(first, list.head_start, FaultKind::Shape);
        return Ok(None);
    }
    if is_total_cost(list.head) {
        blame_if(!is_nothing(list.rest), first, list.start, FaultKind::Arity);
        blame_if(
            is_positive(behind),
            first,
            list.head_start,
            FaultKind::Unsupported,
        );
        return Ok(None);
    }
    let function = function(reader, list, first)?;
    ground(reader.alloc, function)
}

/// Returns a tree as a function with its terms; a function without terms needs no parentheses. The items
/// `behind` follow the tree.
#[tactic(auto, using(sexp::proofs::Walking::walking, pddl_syntax::proofs::Trees::noting), unfolding(pddl_syntax::specs::Faults::first_of))]
fn function_tree(
    reader: &Reader,
    tree: &Tree,
    behind: &[Tree],
    first: &mut Option<Fault>,
) -> Result<Option<GroundAtom>, AllocError>
    ensures meaning { (rest : Forms) → IfOk result (λ a. a ≡ spec.first_function reader.now (before tree.now rest)) }
    ensures faults { OnOk result (first.new ≡ first_of first.old (spec.first_function_faults reader.now (before tree.now (views behind.now)))) }
{
    match tree {
        Tree::Word { text, span } => {
            let list = HeadedList::new(*span, text.as_str(), *span, &[]);
            function_term(reader, &list, behind, first)
        }
        Tree::List { items, span } => match items.as_slice() {
            [] => {
                blame(first, span.start, FaultKind::Shape);
                Ok(None)
            }
            [head, rest @ ..] => match head {
                Tree::List { span, .. } => {
                    blame(first, span.start, FaultKind::Shape);
                    Ok(None)
                }
                Tree::Word {
                    text,
                    span: head_span,
                } => {
                    let list = HeadedList::new(*span, text.as_str(), *head_span, rest);
                    function_term(reader, &list, behind, first)
                }
            },
        },
    }
}

fn value_by(function: Option<GroundAtom>, number: Option<u64>) -> Option<StatedValue>
    ensures { result ≡ spec.value_by function number }
{
    match (function, number) {
        (Some(function), Some(value)) => Some(StatedValue { function, value }),
        _ => None,
    }
}

/// Reads a list `(= function number)`, and records its faults in `first`. Returns `None` if the function or the number
/// cannot be read, and for the total cost.
#[tactic(auto, using(sexp::proofs::Walking::walking, pddl_syntax::proofs::Trees::noting, crate::proofs::Steps::values), unfolding(pddl_syntax::specs::Faults::first_of))]
pub fn read_value(
    reader: &Reader,
    list: &HeadedList,
    first: &mut Option<Fault>,
) -> Result<Option<StatedValue>, AllocError>
    ensures meaning { IfOk result (λ v. v ≡ spec.stated reader.now (views list.now.rest)) }
    ensures faults { OnOk result (first.new ≡ first_of first.old (spec.value_faults reader.now list.now.start (views list.now.rest))) }
{
    match list.rest {
        [] => {
            blame(first, list.start, FaultKind::Shape);
            Ok(None)
        }
        [one, behind @ ..] => {
            let function = function_tree(reader, one, behind, first)?;
            let number = number_alone(list.start, behind, first);
            Ok(value_by(function, number))
        }
    }
}

/// Adds a value, if there is one, unless the function has a value at these objects. If that value differs, records F14
/// in `first` at `home`, the list that states the second one.
#[tactic(auto, using(crate::proofs::Values::kept_values), unfolding(pddl_syntax::specs::Faults::first_of))]
pub fn keep_value(
    values: &mut IndexMap<GroundAtom, u64>,
    stated: Option<StatedValue>,
    home: usize,
    first: &mut Option<Fault>,
) -> Result<(), AllocError>
    ensures values { OnOk result (spec.values_of values.new.entries ≡ spec.with_value (spec.values_of values.old.entries) stated) }
    ensures faults { (fs : List FaultAt) → OnOk result (
        first_of first.old (faults_if (spec.is_restated (spec.values_of values.old.entries) stated) (fault Twice home) fs) ≡ first_of first.new fs) }
{
    if let Some(stated) = stated {
        match values.get(&stated.function) {
            Some(known) => blame_if(
                *known != stated.value,
                first,
                home,
                FaultKind::TwiceDeclared,
            ),
            None => {
                values.insert(stated.function, stated.value)?;
            }
        }
    }
    Ok(())
}
