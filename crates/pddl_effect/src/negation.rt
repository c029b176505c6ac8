//! Equality conditions, and negations.

ghost use Rattle.std.specs.Prelude.{◌≡◌, IfOk, OnOk, option_to_list};
ghost use Rattle.sexp.specs.Forms.{Forms, before, views};
ghost use Rattle.pddl_syntax.specs.Faults.{first_of};
ghost use Rattle.pddl_terms.specs.Beginnings.{beginning};
ghost use Rattle.pddl_terms.specs.Terms.{terms};
ghost use Rattle.pddl_effect.specs.Conditions as spec;

use pddl_syntax::{Fault, FaultKind, blame, blame_more};
use pddl_task::{Condition, Term};
use pddl_terms::{Beginning, HeadedList, Reader, Setting, atom, beginning_of, term};
use sexp::Tree;
use std::alloc::AllocError;

/// Returns the condition that two terms denote the same object or, if `positive` is not set, different objects.
fn equality_of(positive: bool, one: Option<Term>, two: Option<Term>) -> Option<Condition>
    ensures { option_to_list result ≡ spec.equality_of positive one two }
{
    match (one, two) {
        (Some(one), Some(two)) if positive => Some(Condition::Equal(one, two)),
        (Some(one), Some(two)) => Some(Condition::Different(one, two)),
        _ => None,
    }
}

/// Returns the equality condition, or the negated one, of the two terms in a list after its head. If there are faults,
/// records them in `first` and returns `None`.
#[tactic(auto, using(sexp::proofs::Walking::walking, pddl_syntax::proofs::Trees::noting, crate::proofs::Steps::steps), unfolding(pddl_syntax::specs::Faults::first_of))]
pub fn equality(
    reader: &Reader,
    positive: bool,
    list: &HeadedList,
    first: &mut Option<Fault>,
) -> Option<Condition>
    ensures meaning { option_to_list result ≡ spec.equality positive (terms reader.now (views list.now.rest)) }
    ensures faults { first.new ≡ first_of first.old (spec.two_terms_faults reader.now list.now.start (views list.now.rest)) }
{
    match list.rest {
        [] => {
            blame(first, list.start, FaultKind::Shape);
            None
        }
        [one] => {
            term(reader.scope, one, first);
            blame(first, list.start, FaultKind::Shape);
            None
        }
        [one, two] => {
            let one = term(reader.scope, one, first);
            let two = term(reader.scope, two, first);
            equality_of(positive, one, two)
        }
        [one, two, third, ..] => {
            term(reader.scope, one, first);
            term(reader.scope, two, first);
            blame(first, third.span().start, FaultKind::Shape);
            None
        }
    }
}

/// Returns the negation of a list, after the word `not` at `not_at`.
#[tactic(auto, unfolding(pddl_syntax::specs::Faults::first_of))]
fn negated_list(
    setting: Setting,
    reader: &Reader,
    list: &HeadedList,
    not_at: usize,
    first: &mut Option<Fault>,
) -> Result<Option<Condition>, AllocError>
    ensures meaning { IfOk result (λ c. option_to_list c
        ≡ spec.negated_condition reader.now list.now.head (views list.now.rest) (beginning setting list.now.head)) }
    ensures faults { OnOk result (first.new ≡ first_of first.old
        (spec.negated_group_faults reader.now not_at list.now.start list.now.head_start
        list.now.head (views list.now.rest) (beginning setting list.now.head))) }
{
    match beginning_of(setting, list.head) {
        Beginning::Atom => {
            let atom = atom(reader, list, first)?;
            Ok(atom.map(Condition::Negative))
        }
        Beginning::Equality => Ok(equality(reader, false, list, first)),
        Beginning::GoalEquality => {
            blame(first, list.head_start, FaultKind::Unsupported);
            Ok(None)
        }
        _ => {
            blame(first, not_at, FaultKind::Unsupported);
            Ok(None)
        }
    }
}

/// Returns the negation of a tree, after the word `not` at `not_at`.
#[tactic(auto, using(sexp::proofs::Walking::walking, pddl_syntax::proofs::Trees::noting), unfolding(pddl_syntax::specs::Faults::first_of))]
fn negated_tree(
    setting: Setting,
    reader: &Reader,
    tree: &Tree,
    not_at: usize,
    first: &mut Option<Fault>,
) -> Result<Option<Condition>, AllocError>
    ensures meaning { (rest : Forms) → IfOk result (λ c. option_to_list c ≡ spec.negated_conditions setting reader.now (before tree.now rest)) }
    ensures faults { (rest : Forms) →
        OnOk result (first.new ≡ first_of first.old (spec.first_negated_faults setting reader.now not_at (before tree.now rest))) }
{
    match tree {
        Tree::Word { .. } => {
            blame(first, not_at, FaultKind::Unsupported);
            Ok(None)
        }
        Tree::List { items, span } => match items.as_slice() {
            [] => {
                blame(first, not_at, FaultKind::Unsupported);
                Ok(None)
            }
            [head, rest @ ..] => match head {
                Tree::List { .. } => {
                    blame(first, not_at, FaultKind::Unsupported);
                    Ok(None)
                }
                Tree::Word {
                    text,
                    span: head_span,
                } => {
                    let list = HeadedList::new(*span, text.as_str(), *head_span, rest);
                    negated_list(setting, reader, &list, not_at, first)
                }
            },
        },
    }
}

/// Reads a list that begins with `not`: the negation of an atom or, in a condition, of an equality. Records faults in
/// `first`.
#[tactic(auto, using(sexp::proofs::Walking::walking, pddl_syntax::proofs::Trees::noting, crate::proofs::Steps::steps), unfolding(pddl_syntax::specs::Faults::first_of))]
pub fn negated(
    setting: Setting,
    reader: &Reader,
    list: &HeadedList,
    first: &mut Option<Fault>,
) -> Result<Option<Condition>, AllocError>
    ensures meaning { IfOk result (λ c. option_to_list c ≡ spec.negated_conditions setting reader.now (views list.now.rest)) }
    ensures faults { OnOk result (first.new
        ≡ first_of first.old (spec.negated_faults setting reader.now list.now.start list.now.head_start (views list.now.rest))) }
{
    match list.rest {
        [] => {
            blame(first, list.start, FaultKind::Shape);
            Ok(None)
        }
        [one, more @ ..] => {
            let condition = negated_tree(setting, reader, one, list.head_start, first)?;
            blame_more(more, first);
            Ok(condition)
        }
    }
}
