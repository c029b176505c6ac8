//! The parts of an action after its name: keywords, each with a list.

ghost use Rattle.std.specs.Prelude.{◌≡◌, ◌++◌, ℕ, List, Option, map, None, [], option_to_list, IfOk, OnOk};
ghost use Rattle.std.specs.Option.{option_map};
ghost use Rattle.sexp.specs.Forms.{Forms, before, views, alone};
ghost use Rattle.pddl_syntax.specs.Faults.{first_of};
ghost use Rattle.pddl_syntax.specs.Sections.{root_parts};
ghost use Rattle.pddl_action.specs.Keywords as spec;

use pddl_syntax::{Fault, FaultKind, blame, blame_if};
use sexp::Tree;
use std::alloc::{AllocError, Global};

/// A keyword of an action; a list follows it.
#[derive(Clone, Copy, Debug, PartialEq, Eq)]
pub enum Keyword {
    Parameters,
    Precondition,
    Effect,
}

/// The keywords that were read so far in the action.
#[derive(Clone, Copy)]
pub struct Seen {
    pub parameters: bool,
    pub precondition: bool,
    pub effect: bool,
}

/// A keyword and the list that follows it.
#[derive(Clone, Copy)]
pub struct Part<'a> {
    pub keyword: Keyword,
    pub value: &'a Tree,
}

fn keyword_of(word: &str) -> Option<Keyword>
    ensures { result ≡ spec.keyword_of word.now }
{
    if word == ":parameters" {
        Some(Keyword::Parameters)
    } else if word == ":precondition" {
        Some(Keyword::Precondition)
    } else if word == ":effect" {
        Some(Keyword::Effect)
    } else {
        None
    }
}

impl Seen {
    fn contains(self, keyword: Keyword) -> bool
        ensures { result ≡ spec.is_seen self keyword }
    {
        match keyword {
            Keyword::Parameters => self.parameters,
            Keyword::Precondition => self.precondition,
            Keyword::Effect => self.effect,
        }
    }

    fn add(&mut self, keyword: Keyword)
        ensures { self.new ≡ spec.with_keyword self.old keyword }
    {
        match keyword {
            Keyword::Parameters => self.parameters = true,
            Keyword::Precondition => self.precondition = true,
            Keyword::Effect => self.effect = true,
        }
    }
}

/// The state of reading the parts of an action: what was read so far.
#[derive(Drop)]
struct PartList<'a> {
    seen: Seen,
    /// The keyword that requires a list as the next item.
    waiting: Option<Keyword>,
    parts: Vec<Part<'a>>,
}

impl<'a> PartList<'a> {
    fn new(alloc: Global) -> PartList<'a>
        ensures seen { result.seen ≡ spec.none_seen }
        ensures waiting { result.waiting ≡ None }
        ensures parts { result.parts.items ≡ [] }
    {
        PartList {
            seen: Seen {
                parameters: false,
                precondition: false,
                effect: false,
            },
            waiting: None,
            parts: Vec::new(alloc),
        }
    }

    /// Reads the word at `at`.
    #[tactic(auto, unfolding(pddl_syntax::specs::Faults::first_of))]
    fn read_word(&mut self, word: &str, at: usize, first: &mut Option<Fault>)
        ensures seen { self.new.seen ≡ spec.seen_after self.old.waiting self.old.seen (spec.keyword_of word.now) }
        ensures waiting { self.new.waiting ≡ spec.waiting_after self.old.waiting (spec.keyword_of word.now) }
        ensures parts { self.new.parts.items ≡ self.old.parts.items }
        ensures faults { first.new ≡ first_of first.old (spec.word_faults self.old.waiting self.old.seen at (spec.keyword_of word.now)) }
    {
        let keyword = keyword_of(word);
        match (self.waiting, keyword) {
            (Some(_), _) => {
                blame(first, at, FaultKind::Shape);
                self.waiting = None;
            }
            (None, Some(keyword)) => {
                blame_if(
                    self.seen.contains(keyword),
                    first,
                    at,
                    FaultKind::TwiceDeclared,
                );
                self.seen.add(keyword);
                self.waiting = Some(keyword);
            }
            (None, None) => blame(first, at, FaultKind::Shape),
        }
    }

    /// Reads the list at `at`.
    #[tactic(auto, unfolding(pddl_syntax::specs::Faults::first_of))]
    fn read_list(
        &mut self,
        value: &'a Tree,
        at: usize,
        first: &mut Option<Fault>,
    ) -> Result<(), AllocError>
        ensures seen { OnOk result (self.new.seen ≡ self.old.seen) }
        ensures waiting { OnOk result (self.new.waiting ≡ None) }
        ensures parts { OnOk result (map spec.part_of self.new.parts.items
            ≡ map spec.part_of self.old.parts.items ++ option_to_list (option_map (λ k. record { keyword = k; value = alone value.now }) self.old.waiting)) }
        ensures faults { OnOk result (first.new ≡ first_of first.old (spec.list_faults self.old.waiting at)) }
    {
        match self.waiting {
            Some(keyword) => self.parts.push(Part { keyword, value })?,
            None => blame(first, at, FaultKind::Shape),
        }
        self.waiting = None;
        Ok(())
    }

    #[tactic(auto, using(sexp::proofs::Walking::walking, pddl_syntax::proofs::Trees::noting, pddl_effect::proofs::Steps::appending), unfolding(pddl_syntax::specs::Faults::first_of))]
    fn read(&mut self, tree: &'a Tree, first: &mut Option<Fault>) -> Result<(), AllocError>
        ensures parts { (rest : Forms) → OnOk result (
            map spec.part_of self.old.parts.items ++ spec.parts self.old.waiting (before tree.now rest)
            ≡ map spec.part_of self.new.parts.items ++ spec.parts self.new.waiting rest) }
        ensures faults { (home : ℕ) (rest : Forms) → OnOk result (
            first_of first.old (spec.keyword_faults home self.old.seen self.old.waiting (before tree.now rest))
            ≡ first_of first.new (spec.keyword_faults home self.new.seen self.new.waiting rest)) }
    {
        match tree {
            Tree::Word { text, span } => self.read_word(text.as_str(), span.start, first),
            Tree::List { span, .. } => self.read_list(tree, span.start, first)?,
        }
        Ok(())
    }
}

/// Reads the items after the name of the action at byte offset `home`, and records the faults of the keywords in
/// `first`: F10 for an item that is no keyword, and for a word in the position of a keyword's list; F14 for a keyword
/// that occurs a second time; F10 at the action if the last keyword has no list.
#[tactic(auto, unfolding(pddl_syntax::specs::Faults::first_of))]
pub fn parts<'a>(
    alloc: Global,
    home: usize,
    items: &'a [Tree],
    first: &mut Option<Fault>,
) -> Result<Vec<Part<'a>>, AllocError>
    ensures meaning { IfOk result (λ ps. map spec.part_of ps.items ≡ spec.parts None (views items.now)) }
    ensures faults { OnOk result (first.new ≡ first_of first.old (spec.keyword_faults home spec.none_seen None (views items.now))) }
{
    let mut list = PartList::new(alloc);
    for tree in items {
        list.read(tree, first)?;
    }
    if list.waiting.is_some() {
        blame(first, home, FaultKind::Shape);
    }
    Ok(list.parts)
}

/// Returns the items of a list, or no items for a word.
#[tactic(auto, using(sexp::proofs::Walking::walking))]
pub fn items_of(tree: &Tree) -> &[Tree]
    ensures { views result.now ≡ root_parts (alone tree.now) }
{
    match tree {
        Tree::Word { .. } => &[],
        Tree::List { items, .. } => items,
    }
}
