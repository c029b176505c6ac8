//! The section of the metric.

ghost use Rattle.std.specs.Prelude.{◌≡◌};
ghost use Rattle.sexp.specs.Forms.{Forms, before, views};
ghost use Rattle.pddl_syntax.specs.Sections.{has_head};
ghost use Rattle.pddl_syntax.specs.Faults.{first_of};
ghost use Rattle.pddl_problem.specs.Goals as spec;

use crate::value::is_nothing;
use pddl_syntax::{Fault, FaultKind, blame};
use pddl_terms::is_total_cost;
use sexp::Tree;

#[tactic(auto, using(sexp::proofs::Walking::walking))]
fn is_word(tree: &Tree, word: &str) -> bool
    ensures { (rest : Forms) → result ≡ has_head word.now (before tree.now rest) }
{
    match tree {
        Tree::Word { text, .. } => text.as_str() == word,
        Tree::List { .. } => false,
    }
}

/// Returns whether a tree is `total-cost`, with or without parentheses.
#[tactic(auto, using(sexp::proofs::Walking::walking))]
fn is_cost(tree: &Tree) -> bool
    ensures { (rest : Forms) → result ≡ spec.is_cost (before tree.now rest) }
{
    match tree {
        Tree::Word { text, .. } => is_total_cost(text.as_str()),
        Tree::List { items, .. } => match items.as_slice() {
            [] => false,
            [head, more @ ..] => is_word(head, "total-cost") && is_nothing(more),
        },
    }
}

/// Returns whether the only item is `total-cost`, with or without parentheses.
#[tactic(auto, using(sexp::proofs::Walking::walking))]
fn is_cost_alone(items: &[Tree]) -> bool
    ensures { result ≡ spec.is_cost_alone (views items.now) }
{
    match items {
        [] => false,
        [one, more @ ..] => is_cost(one) && is_nothing(more),
    }
}

#[tactic(auto, using(sexp::proofs::Walking::walking))]
fn is_metric(items: &[Tree]) -> bool
    ensures { result ≡ spec.is_metric (views items.now) }
{
    match items {
        [] => false,
        [word, cost @ ..] => is_word(word, "minimize") && is_cost_alone(cost),
    }
}

/// Returns the byte offset of the first word in a tree.
#[cycle(words)]
#[tactic(auto, using(sexp::proofs::Walking::walking))]
fn first_word_in(tree: &Tree) -> Option<usize>
    ensures { (rest : Forms) → spec.or_else result (spec.first_word rest) ≡ spec.first_word (before tree.now rest) }
{
    match tree {
        Tree::Word { span, .. } => Some(span.start),
        Tree::List { items, .. } => first_word(items),
    }
}

/// Returns the byte offset of the first word in the trees.
#[cycle(words)]
fn first_word(items: &[Tree]) -> Option<usize>
    ensures { result ≡ spec.first_word (views items.now) }
{
    for item in items {
        if let Some(at) = first_word_in(item) {
            return Some(at);
        }
    }
    None
}

/// Records the fault of the section `:metric` in the list at byte offset `home`, whose items without its head are
/// `items`. These must be `minimize (total-cost)` or `minimize total-cost`, which mean the same (Fox and Long 2003).
///
/// Any other content is F11 at its first word, including words in lists, or F10 at the section if it has no word.
#[tactic(auto, unfolding(pddl_syntax::specs::Faults::first_of))]
pub fn metric_section(items: &[Tree], home: usize, first: &mut Option<Fault>)
    ensures { first.new ≡ first_of first.old (spec.metric_faults home (views items.now)) }
{
    if is_metric(items) {
        return;
    }
    match first_word(items) {
        Some(at) => blame(first, at, FaultKind::Unsupported),
        None => blame(first, home, FaultKind::Shape),
    }
}
