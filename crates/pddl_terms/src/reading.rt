//! Terms, and predicates and functions with their terms.

ghost use Rattle.std.specs.Prelude.{◌≡◌, ℕ, List, Option, Some, IfOk, OnOk};
ghost use Rattle.std.specs.Option.{option_map};
ghost use Rattle.sexp.specs.Forms.{Forms, before, views};
ghost use Rattle.pddl_syntax.specs.Faults.{first_of};
ghost use Rattle.pddl_terms.specs.Terms as spec;

use crate::scope::{HeadedList, Reader, Scope};
use pddl_syntax::{Fault, FaultKind, Heads, WordKind, blame, blame_if, word_kind};
use pddl_task::{LiftedAtom, Term};
use sexp::Tree;
use std::alloc::AllocError;

/// Returns the word as a term, if it is a declared variable or a declared object.
fn term_of(scope: &Scope, word: &str) -> Option<Term>
    ensures { result ≡ spec.term_of scope.now word.now }
{
    match word_kind(word) {
        WordKind::Variable => scope.variables.place_of(word).map(Term::Parameter),
        WordKind::Name => scope.objects.place_of(word).map(Term::Object),
        WordKind::Dash | WordKind::Other => None,
    }
}

/// Records the fault of a word in the position of a term.
#[tactic(auto, unfolding(pddl_syntax::specs::Faults::first_of))]
fn blame_term(scope: &Scope, word: &str, at: usize, first: &mut Option<Fault>)
    ensures { first.new ≡ first_of first.old (spec.term_faults scope.now at word.now) }
{
    match word_kind(word) {
        WordKind::Variable => blame_if(
            !scope.variables.contains(word),
            first,
            at,
            FaultKind::UnknownName,
        ),
        WordKind::Name => blame_if(
            !scope.objects.contains(word),
            first,
            at,
            FaultKind::UnknownName,
        ),
        WordKind::Dash | WordKind::Other => blame(first, at, FaultKind::Shape),
    }
}

/// Returns a tree as a term. If it has a fault, records it in `first` and returns `None`: F10 for a list or for a word
/// that is neither a name nor a variable, F12 for a name or variable that is not declared.
#[tactic(auto, using(sexp::proofs::Walking::walking, pddl_syntax::proofs::Trees::noting), unfolding(pddl_syntax::specs::Faults::first_of))]
pub fn term(scope: &Scope, tree: &Tree, first: &mut Option<Fault>) -> Option<Term>
    ensures meaning { (rest : Forms) → result ≡ spec.first_term scope.now (before tree.now rest) }
    ensures faults { (rest : Forms) → first.new ≡ first_of first.old (spec.first_term_faults scope.now (before tree.now rest)) }
{
    match tree {
        Tree::Word { text, span } => {
            blame_term(scope, text.as_str(), span.start, first);
            term_of(scope, text.as_str())
        }
        Tree::List { span, .. } => {
            blame(first, span.start, FaultKind::Shape);
            None
        }
    }
}

/// Reads terms and records their faults in `first`. Returns `None` if one of them has a fault.
#[tactic(auto, using(sexp::proofs::Walking::walking, pddl_syntax::proofs::Trees::noting, crate::proofs::TermSteps::steps, crate::proofs::TermSteps::reading), unfolding(pddl_syntax::specs::Faults::first_of))]
pub fn terms(
    reader: &Reader,
    items: &[Tree],
    first: &mut Option<Fault>,
) -> Result<Option<Vec<Term>>, AllocError>
    ensures meaning { IfOk result (λ ts. option_map (λ v. v.items) ts ≡ spec.terms reader.now (views items.now)) }
    ensures faults { OnOk result (first.new ≡ first_of first.old (spec.terms_faults reader.now (views items.now))) }
{
    let mut terms = Vec::new(reader.alloc);
    let mut are_read = true;
    for tree in items {
        match term(reader.scope, tree, first) {
            Some(term) => terms.push(term)?,
            None => are_read = false,
        }
    }
    Ok(if are_read { Some(terms) } else { None })
}

/// Returns the predicate or function with this number and these terms, if all are known and the number of terms is the
/// arity.
fn lifted_of(
    number: Option<usize>,
    arity: Option<usize>,
    terms: Option<Vec<Term>>,
) -> Option<LiftedAtom>
    ensures { result ≡ spec.lifted_of number arity (option_map (λ v. v.items) terms) }
{
    match (number, arity, terms) {
        (Some(predicate), Some(arity), Some(terms)) if arity == terms.len() => {
            Some(LiftedAtom { predicate, terms })
        }
        _ => None,
    }
}

/// Records in `first` that the head of a list is not declared, or that its arity differs from the number of terms in
/// the list.
#[tactic(auto, using(crate::proofs::TermSteps::count_views), unfolding(pddl_syntax::specs::Faults::first_of))]
fn blame_arity(arity: Option<usize>, list: &HeadedList, first: &mut Option<Fault>)
    ensures { first.new ≡ first_of first.old (spec.arity_faults arity list.now.start list.now.head_start (spec.count (views list.now.rest))) }
{
    match arity {
        None => blame(first, list.head_start, FaultKind::UnknownName),
        Some(arity) => blame_if(
            arity != list.rest.len(),
            first,
            list.start,
            FaultKind::Arity,
        ),
    }
}

/// Reads a list as a predicate or a function of `heads` with its terms.
#[tactic(auto, using(pddl_syntax::proofs::Trees::noting), unfolding(pddl_syntax::specs::Faults::first_of))]
fn lifted(
    reader: &Reader,
    heads: &Heads,
    list: &HeadedList,
    first: &mut Option<Fault>,
) -> Result<Option<LiftedAtom>, AllocError>
    ensures meaning { IfOk result (λ a. a ≡ spec.lifted heads.now reader.now list.now.head (views list.now.rest)) }
    ensures faults { OnOk result (first.new ≡ first_of first.old
        (spec.lifted_faults heads.now reader.now list.now.start list.now.head_start list.now.head (views list.now.rest))) }
{
    let arity = heads.arity_of(list.head);
    blame_arity(arity, list, first);
    let terms = terms(reader, list.rest, first)?;
    Ok(lifted_of(heads.names().place_of(list.head), arity, terms))
}

/// Reads a list as an atom, and records its faults in `first`. Returns `None` if there is a fault.
///
/// F12 at the head or at a term that is not declared, F13 at the list if the predicate has another arity, F10 at a term
/// of another form.
pub fn atom(
    reader: &Reader,
    list: &HeadedList,
    first: &mut Option<Fault>,
) -> Result<Option<LiftedAtom>, AllocError>
    ensures meaning { IfOk result (λ a. a ≡ spec.lifted reader.now.predicates reader.now list.now.head (views list.now.rest)) }
    ensures faults { OnOk result (first.new ≡ first_of first.old
        (spec.lifted_faults reader.now.predicates reader.now list.now.start list.now.head_start list.now.head (views list.now.rest))) }
{
    let scope = reader.scope;
    lifted(reader, scope.predicates, list, first)
}

/// Reads a list as a function with its terms, and records its faults in `first`. Returns `None` if there is a fault.
/// The faults are those of [`atom`].
pub fn function(
    reader: &Reader,
    list: &HeadedList,
    first: &mut Option<Fault>,
) -> Result<Option<LiftedAtom>, AllocError>
    ensures meaning { IfOk result (λ a. a ≡ spec.lifted reader.now.functions reader.now list.now.head (views list.now.rest)) }
    ensures faults { OnOk result (first.new ≡ first_of first.old
        (spec.lifted_faults reader.now.functions reader.now list.now.start list.now.head_start list.now.head (views list.now.rest))) }
{
    let scope = reader.scope;
    lifted(reader, scope.functions, list, first)
}
