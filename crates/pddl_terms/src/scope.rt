//! What the readers of expressions share: the visible declarations, and lists that begin with a word.

ghost use Rattle.std.specs.Prelude.{◌≡◌};

use pddl_names::Names;
use pddl_syntax::Heads;
use sexp::{Span, Tree};
use std::alloc::Global;
use std::marker::Model;

/// The declarations that are visible to an expression.
#[derive(Drop)]
pub struct Scope<'a> {
    pub predicates: &'a Heads,
    pub functions: &'a Heads,
    /// The parameters of the action; empty outside actions.
    pub variables: &'a Names,
    pub objects: &'a Names,
}

impl<'a> Model for Scope<'a> {
    ghost use Rattle.pddl_terms.specs.Terms as spec;

    ghost Value = { spec.Scope };

    ghost view = { λ s. record {
      predicates = s.predicates.now;
      functions = s.functions.now;
      variables = s.variables.now;
      objects = s.objects.now;
    } };
}

/// What a reader of expressions is given beside the expression. In contracts its value is its scope.
#[derive(Drop)]
pub struct Reader<'a> {
    pub alloc: Global,
    pub scope: &'a Scope<'a>,
}

impl<'a> Model for Reader<'a> {
    ghost use Rattle.pddl_terms.specs.Terms as spec;

    ghost Value = { spec.Scope };

    ghost view = { λ r. r.scope.now };
}

/// A list that begins with a word: an atom, a function with its terms, or a construct such as `and`.
#[derive(Drop)]
pub struct HeadedList<'a> {
    /// The byte offset of the list.
    pub start: usize,
    /// The word.
    pub head: &'a str,
    /// The byte offset of the word.
    pub head_start: usize,
    /// The items after the word.
    pub rest: &'a [Tree],
}

impl<'a> Model for HeadedList<'a> {
    ghost use Rattle.std.specs.Coded.{codes};
    ghost use Rattle.sexp.specs.contracts.tree.Tree as tree;
    ghost use Rattle.pddl_terms.specs.Terms as spec;

    ghost Value = { spec.HeadedList };

    ghost coded = { Prim.hlevel (codes, tree.the_row.coded) };

    ghost view = { λ l. record {
      start = l.start;
      head = l.head.now;
      head_start = l.head_start;
      rest = l.rest.now;
    } };
}

impl<'a> HeadedList<'a> {
    /// Returns the list with the byte range `span`, which begins with the word `head` and has the items `rest` after it.
    pub fn new(span: Span, head: &'a str, head_span: Span, rest: &'a [Tree]) -> HeadedList<'a>
        ensures start { result.start ≡ span.start }
        ensures head { result.head ≡ head.now }
        ensures head_start { result.head_start ≡ head_span.start }
        ensures rest { result.rest ≡ rest.now }
    {
        HeadedList {
            start: span.start,
            head,
            head_start: head_span.start,
            rest,
        }
    }
}
