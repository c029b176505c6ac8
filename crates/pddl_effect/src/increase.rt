//! Increases of the total cost.

ghost use Rattle.std.specs.Prelude.{◌≡◌, ℕ, IfOk, OnOk};
ghost use Rattle.sexp.specs.Forms.{Forms, word, before, views};
ghost use Rattle.pddl_syntax.specs.Faults.{first_of};
ghost use Rattle.pddl_syntax.specs.Words.{word_kind};
ghost use Rattle.pddl_syntax.specs.Numbers.{number_of};
ghost use Rattle.pddl_effect.specs.Effects as spec;

use pddl_syntax::{
    Fault, FaultKind, Number, WordKind, blame, blame_if, blame_more, number_of, word_kind,
};
use pddl_task::Increase;
use pddl_terms::{HeadedList, Reader, function, is_total_cost};
use sexp::{Span, Tree};
use std::alloc::AllocError;

/// Returns whether the word is `total-cost` and has terms.
#[tactic(auto, using(sexp::proofs::Walking::walking, pddl_terms::proofs::TermSteps::not_empty_before))]
fn has_terms(word: &str, items: &[Tree]) -> bool
    ensures { result ≡ spec.has_terms word.now (views items.now) }
{
    match items {
        [] => false,
        [_term, ..] => is_total_cost(word),
    }
}

/// Records the fault of the word at `at` if it is not `total-cost`: F11 at the word `increase`, which is at
/// `increase_at`, for another name, and F10 for a word that is not a name.
#[tactic(auto, unfolding(pddl_syntax::specs::Faults::first_of))]
fn blame_increased_word(word: &str, at: usize, increase_at: usize, first: &mut Option<Fault>)
    ensures { first.new ≡ first_of first.old (spec.increased_word_faults increase_at at word.now (word_kind word.now)) }
{
    match word_kind(word) {
        WordKind::Name => blame_if(
            !is_total_cost(word),
            first,
            increase_at,
            FaultKind::Unsupported,
        ),
        WordKind::Dash | WordKind::Variable | WordKind::Other => {
            blame(first, at, FaultKind::Shape)
        }
    }
}

/// Records the faults of a list as the increased function, after the word `increase` at `increase_at`.
#[tactic(auto, using(pddl_syntax::proofs::Trees::noting), unfolding(pddl_syntax::specs::Faults::first_of))]
fn blame_increased_list(list: &HeadedList, increase_at: usize, first: &mut Option<Fault>)
    ensures { (end : ℕ) → first.new
        ≡ first_of first.old (spec.increased_inside_faults increase_at list.now.start (word list.now.head_start end list.now.head (views list.now.rest))) }
{
    blame_increased_word(list.head, list.head_start, increase_at, first);
    blame_if(
        has_terms(list.head, list.rest),
        first,
        list.start,
        FaultKind::Arity,
    );
}

/// Records the faults of the increased function, after the word `increase` at `increase_at`.
#[tactic(auto, using(sexp::proofs::Walking::walking, pddl_syntax::proofs::Trees::noting), unfolding(pddl_syntax::specs::Faults::first_of))]
fn blame_increased(tree: &Tree, increase_at: usize, first: &mut Option<Fault>)
    ensures { (rest : Forms) → first.new ≡ first_of first.old (spec.increased_faults increase_at (before tree.now rest)) }
{
    match tree {
        Tree::Word { text, span } => {
            blame_increased_word(text.as_str(), span.start, increase_at, first)
        }
        Tree::List { items, span } => match items.as_slice() {
            [] => blame(first, span.start, FaultKind::Shape),
            [head, rest @ ..] => match head {
                Tree::List { span, .. } => blame(first, span.start, FaultKind::Shape),
                Tree::Word {
                    text,
                    span: head_span,
                } => {
                    let list = HeadedList::new(*span, text.as_str(), *head_span, rest);
                    blame_increased_list(&list, increase_at, first)
                }
            },
        },
    }
}

/// Returns the value of a function with its terms, or `None` if it has a fault.
#[tactic(auto, unfolding(pddl_syntax::specs::Faults::first_of))]
fn function_value(
    reader: &Reader,
    list: &HeadedList,
    first: &mut Option<Fault>,
) -> Result<Option<Increase>, AllocError>
    ensures meaning { IfOk result (λ i. i ≡ spec.function_value reader.now list.now.head (views list.now.rest) (word_kind list.now.head)) }
    ensures faults { OnOk result (first.new ≡ first_of first.old
        (spec.function_faults reader.now list.now.start list.now.head_start list.now.head (views list.now.rest) (word_kind list.now.head))) }
{
    if word_kind(list.head) != WordKind::Name {
        blame(first, list.head_start, FaultKind::Shape);
        return Ok(None);
    }
    if is_total_cost(list.head) {
        blame(first, list.head_start, FaultKind::Unsupported);
        return Ok(None);
    }
    let function = function(reader, list, first)?;
    Ok(function.map(Increase::Value))
}

/// Returns a word as an amount: a number, or a function without terms.
#[tactic(auto, using(sexp::proofs::Walking::walking), unfolding(pddl_syntax::specs::Faults::first_of))]
fn amount_of_word(
    reader: &Reader,
    word: &str,
    span: Span,
    first: &mut Option<Fault>,
) -> Result<Option<Increase>, AllocError>
    ensures meaning { IfOk result (λ i. i ≡ spec.amount_of_word reader.now word.now (number_of word.now)) }
    ensures faults { OnOk result (first.new ≡ first_of first.old (spec.amount_word_faults reader.now span.start word.now (number_of word.now))) }
{
    match number_of(word) {
        Number::Whole(n) => Ok(Some(Increase::Amount(n))),
        Number::Fraction => {
            blame(first, span.start, FaultKind::NotWhole);
            Ok(None)
        }
        Number::OutOfRange => {
            blame(first, span.start, FaultKind::CostRange);
            Ok(None)
        }
        Number::NoNumber => {
            let list = HeadedList::new(span, word, span, &[]);
            function_value(reader, &list, first)
        }
    }
}

/// Returns a tree as an amount.
#[tactic(auto, using(sexp::proofs::Walking::walking, pddl_syntax::proofs::Trees::noting), unfolding(pddl_syntax::specs::Faults::first_of))]
fn amount_of(
    reader: &Reader,
    tree: &Tree,
    first: &mut Option<Fault>,
) -> Result<Option<Increase>, AllocError>
    ensures meaning { (rest : Forms) → IfOk result (λ i. i ≡ spec.amount_of reader.now (before tree.now rest)) }
    ensures faults { (rest : Forms) → OnOk result (first.new ≡ first_of first.old (spec.first_amount_faults reader.now (before tree.now rest))) }
{
    match tree {
        Tree::Word { text, span } => amount_of_word(reader, text.as_str(), *span, first),
        Tree::List { items, span } => match items.as_slice() {
            [] => {
                blame(first, span.start, FaultKind::Shape);
                Ok(None)
            }
            [head, rest @ ..] => match head {
                Tree::List { span, .. } => {
                    blame(first, span.start, FaultKind::Shape);
                    Ok(None)
                }
                Tree::Word {
                    text,
                    span: head_span,
                } => {
                    let list = HeadedList::new(*span, text.as_str(), *head_span, rest);
                    function_value(reader, &list, first)
                }
            },
        },
    }
}

/// Returns the amount in the list at `start`, whose `items` must be exactly one amount.
#[tactic(auto, using(sexp::proofs::Walking::walking, pddl_syntax::proofs::Trees::noting, crate::proofs::Steps::steps), unfolding(pddl_syntax::specs::Faults::first_of))]
fn amount(
    reader: &Reader,
    start: usize,
    items: &[Tree],
    first: &mut Option<Fault>,
) -> Result<Option<Increase>, AllocError>
    ensures meaning { IfOk result (λ i. i ≡ spec.amount_of reader.now (views items.now)) }
    ensures faults { OnOk result (first.new ≡ first_of first.old (spec.amount_faults reader.now start (views items.now))) }
{
    match items {
        [] => {
            blame(first, start, FaultKind::Shape);
            Ok(None)
        }
        [amount, more @ ..] => {
            let increase = amount_of(reader, amount, first)?;
            blame_more(more, first);
            Ok(increase)
        }
    }
}

/// Reads a list that begins with `increase`, and records its faults in `first`. Returns `None` if the amount has a
/// fault.
#[tactic(auto, using(sexp::proofs::Walking::walking, pddl_syntax::proofs::Trees::noting, crate::proofs::Steps::steps), unfolding(pddl_syntax::specs::Faults::first_of))]
pub fn read_increase(
    reader: &Reader,
    list: &HeadedList,
    first: &mut Option<Fault>,
) -> Result<Option<Increase>, AllocError>
    ensures meaning { IfOk result (λ i. i ≡ spec.increase_of reader.now (views list.now.rest)) }
    ensures faults { OnOk result (first.new ≡ first_of first.old (spec.increase_faults reader.now list.now.start list.now.head_start (views list.now.rest))) }
{
    match list.rest {
        [] => {
            blame(first, list.start, FaultKind::Shape);
            Ok(None)
        }
        [increased, rest @ ..] => {
            blame_increased(increased, list.head_start, first);
            amount(reader, list.start, rest, first)
        }
    }
}
