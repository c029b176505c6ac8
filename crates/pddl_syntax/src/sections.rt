//! The heads of a text, `(define (domain NAME) SECTION ..)`, and its sections.

ghost use Rattle.std.specs.Prelude.{◌≡◌, ◌++◌, ◌∷◌, [], ℕ, List, Option, map, not, IfOk, OnOk, option_to_list, codes, is_some};
ghost use Rattle.std.specs.Option.{option_map};
ghost use Rattle.sexp.specs.Forms.{Forms, group, before, views, alone};
ghost use Rattle.pddl_names.specs.Names.{is_there, with_name};
ghost use Rattle.pddl_syntax.specs.Faults.{first_of};
ghost use Rattle.pddl_syntax.specs.Words.{is_one_of};
ghost use Rattle.pddl_syntax.specs.Sections as spec;
ghost use Rattle.pddl_syntax.specs.Sections.{part_of, has_head, title_word, section_words};

use crate::fault::{Fault, FaultKind, PlanningFile, blame, blame_if};
use crate::word::{WordKind, word_kind};
use pddl_names::Names;
use sexp::Tree;
use std::alloc::{AllocError, Global};

/// A section: its byte offset, and its items without its head.
#[derive(Clone, Copy)]
pub struct Section<'a> {
    pub at: usize,
    pub items: &'a [Tree],
}

fn is_word(tree: &Tree, wanted: &str) -> bool
    ensures { (rest : Forms) → result ≡ has_head wanted.now (before tree.now rest) }
{
    match tree {
        Tree::Word { text, span: _ } => text.as_str() == wanted,
        Tree::List { items: _, span: _ } => false,
    }
}

fn has_head(items: &[Tree], wanted: &str) -> bool
    ensures { result ≡ has_head wanted.now (views items.now) }
{
    match items {
        [] => false,
        [head, ..] => is_word(head, wanted),
    }
}

/// Returns all items but the first, or no items if there are none.
pub fn without_first(items: &[Tree]) -> &[Tree]
    ensures { views result.now ≡ spec.behind (views items.now) }
{
    if items.is_empty() { &[] } else { &items[1..] }
}

/// Returns the sections of a text: the items of its root after `define` and the title.
pub fn sections_of(root: &Tree) -> &[Tree]
    ensures { views result.now ≡ spec.sections (alone root.now) }
{
    match root {
        Tree::Word { text: _, span: _ } => &[],
        Tree::List { items, span: _ } => {
            let behind_define = without_first(items);
            without_first(behind_define)
        }
    }
}

/// Returns the tree as a section with this name, or `None` if it is not such a section.
fn as_section<'a>(tree: &'a Tree, name: &str) -> Option<Section<'a>>
    ensures one { (rest : Forms) → spec.or_else (option_map part_of result) (spec.section name.now rest) ≡ spec.section name.now (before tree.now rest) }
    ensures all { (rest : Forms) → option_to_list (option_map part_of result) ++ spec.all_sections name.now rest
        ≡ spec.all_sections name.now (before tree.now rest) }
{
    match tree {
        Tree::Word { text: _, span: _ } => None,
        Tree::List { items, span } => {
            if has_head(items, name) {
                Some(Section {
                    at: span.start,
                    items: without_first(items),
                })
            } else {
                None
            }
        }
    }
}

/// Returns the first section with this name, or `None` if there is none.
pub fn find_section<'a>(sections: &'a [Tree], name: &str) -> Option<Section<'a>>
    ensures { option_map part_of result ≡ spec.section name.now (views sections.now) }
{
    for tree in sections {
        if let Some(section) = as_section(tree, name) {
            return Some(section);
        }
    }
    None
}

/// Returns all sections with this name, in the order of the text.
pub fn all_sections<'a>(
    alloc: Global,
    sections: &'a [Tree],
    name: &str,
) -> Result<Vec<Section<'a>>, AllocError>
    ensures { IfOk result (λ all. map part_of all.items ≡ spec.all_sections name.now (views sections.now)) }
{
    let mut all = Vec::new(alloc);
    for tree in sections {
        if let Some(section) = as_section(tree, name) {
            all.push(section)?;
        }
    }
    Ok(all)
}

// ---- the faults of the heads

fn start_of(tree: &Tree) -> usize
    ensures { (rest : Forms) → result ≡ spec.start_of (before tree.now rest) }
{
    tree.span().start
}

fn is_name(tree: &Tree) -> bool
    ensures { (rest : Forms) → result ≡ spec.has_name (before tree.now rest) }
{
    match tree {
        Tree::Word { text, span: _ } => word_kind(text.as_str()) == WordKind::Name,
        Tree::List { items: _, span: _ } => false,
    }
}

/// Records F10 at the first of the items, if there is one, because no further item is allowed.
#[tactic(auto, unfolding(crate::specs::Faults::first_of))]
pub fn blame_more(items: &[Tree], first: &mut Option<Fault>)
    ensures { first.new ≡ first_of first.old (spec.more_faults (views items.now)) }
{
    match items {
        [] => {}
        [extra, ..] => blame(first, start_of(extra), FaultKind::Shape),
    }
}

/// Records the faults of items, in the list at `home`, that must be exactly one name.
fn blame_name(items: &[Tree], home: usize, first: &mut Option<Fault>)
    ensures { first.new ≡ first_of first.old (spec.name_faults home (views items.now)) }
{
    match items {
        [] => blame(first, home, FaultKind::Shape),
        [name, ..] => {
            blame_if(!is_name(name), first, start_of(name), FaultKind::Shape);
            blame_more(without_first(items), first);
        }
    }
}

fn title_word(file: PlanningFile) -> &'static str
    ensures { result.now ≡ title_word file }
{
    match file {
        PlanningFile::Domain => "domain",
        PlanningFile::Problem => "problem",
    }
}

/// Records the faults of a title whose items are `items`, in the list at `home`.
fn blame_title(file: PlanningFile, items: &[Tree], home: usize, first: &mut Option<Fault>)
    ensures { first.new ≡ first_of first.old (spec.title_faults file home (views items.now)) }
{
    match items {
        [] => blame(first, home, FaultKind::Shape),
        [word, ..] => {
            blame_if(
                !is_word(word, title_word(file)),
                first,
                start_of(word),
                FaultKind::Shape,
            );
            blame_name(without_first(items), home, first);
        }
    }
}

/// Records the faults of the second item of a text, which must be its title.
fn blame_second(file: PlanningFile, tree: &Tree, first: &mut Option<Fault>)
    ensures { (home : ℕ) (rest : Forms) → first.new ≡ first_of first.old (spec.second_faults file home (before tree.now rest)) }
{
    match tree {
        Tree::Word { text: _, span } => blame(first, span.start, FaultKind::Shape),
        Tree::List { items, span } => blame_title(file, items, span.start, first),
    }
}

fn is_domain_word(word: &str) -> bool
    ensures { result ≡ is_one_of (section_words PlanningFile.Domain) word.now }
{
    word == ":requirements"
        || word == ":types"
        || word == ":constants"
        || word == ":predicates"
        || word == ":functions"
        || word == ":action"
}

fn is_problem_word(word: &str) -> bool
    ensures { result ≡ is_one_of (section_words PlanningFile.Problem) word.now }
{
    word == ":domain"
        || word == ":requirements"
        || word == ":length"
        || word == ":objects"
        || word == ":init"
        || word == ":goal"
        || word == ":metric"
}

fn is_section_word(file: PlanningFile, word: &str) -> bool
    ensures { result ≡ is_one_of (section_words file) word.now }
{
    match file {
        PlanningFile::Domain => is_domain_word(word),
        PlanningFile::Problem => is_problem_word(word),
    }
}

/// Records the faults of a section's head at `at`, and adds it to the heads read before. Only `:action` may occur
/// twice.
#[tactic(auto, unfolding(crate::specs::Faults::first_of))]
fn blame_head(
    alloc: Global,
    file: PlanningFile,
    head: &str,
    at: usize,
    seen: &mut Names,
    first: &mut Option<Fault>,
) -> Result<(), AllocError>
    ensures seen { OnOk result (seen.new ≡ spec.with_head file seen.old head.now) }
    ensures faults { OnOk result (first.new ≡ first_of first.old (spec.section_head_faults file seen.old at head.now)) }
{
    if is_section_word(file, head) {
        let again = seen.contains(head) && head != ":action";
        blame_if(again, first, at, FaultKind::TwiceDeclared);
        seen.add(alloc, head)?;
    } else {
        blame(first, at, FaultKind::Unsupported);
    }
    Ok(())
}

/// Records the faults of a section whose first item is `head`.
fn blame_section_head(
    alloc: Global,
    file: PlanningFile,
    head: &Tree,
    seen: &mut Names,
    first: &mut Option<Fault>,
) -> Result<(), AllocError>
    ensures { OnOk result ((s e : ℕ) (inner rest : Forms) →
        first_of first.old (spec.section_faults file seen.old (group s e (before head.now inner) rest))
        ≡ first_of first.new (spec.section_faults file seen.new rest)) }
{
    match head {
        Tree::Word { text, span } => blame_head(
            alloc,
            file,
            text.as_str(),
            span.start,
            seen,
            first,
        ),
        Tree::List { items: _, span } => {
            blame(first, span.start, FaultKind::Shape);
            Ok(())
        }
    }
}

fn blame_section(
    alloc: Global,
    file: PlanningFile,
    tree: &Tree,
    seen: &mut Names,
    first: &mut Option<Fault>,
) -> Result<(), AllocError>
    ensures { OnOk result ((rest : Forms) →
        first_of first.old (spec.section_faults file seen.old (before tree.now rest)) ≡ first_of first.new (spec.section_faults file seen.new rest)) }
{
    match tree {
        Tree::Word { text: _, span } => blame(first, span.start, FaultKind::Shape),
        Tree::List { items, span } => match items.as_slice() {
            [] => blame(first, span.start, FaultKind::Shape),
            [head, ..] => blame_section_head(alloc, file, head, seen, first)?,
        },
    }
    Ok(())
}

/// Records the faults of the sections' heads.
#[tactic(auto, unfolding(crate::specs::Faults::first_of))]
fn blame_sections(
    alloc: Global,
    file: PlanningFile,
    sections: &[Tree],
    first: &mut Option<Fault>,
) -> Result<(), AllocError>
    ensures { OnOk result (first.new ≡ first_of first.old (spec.section_faults file [] (views sections.now))) }
{
    let mut seen = Names::new(alloc);
    for tree in sections {
        blame_section(alloc, file, tree, &mut seen, first)?;
    }
    Ok(())
}

/// Records that a problem, whose root is at `home`, has no goal.
#[tactic(auto, unfolding(crate::specs::Faults::first_of))]
fn blame_missing_goal(file: PlanningFile, home: usize, sections: &[Tree], first: &mut Option<Fault>)
    ensures { first.new ≡ first_of first.old (spec.goal_missing_faults file home (views sections.now)) }
{
    match file {
        PlanningFile::Domain => {}
        PlanningFile::Problem => blame_if(
            find_section(sections, ":goal").is_none(),
            first,
            home,
            FaultKind::Shape,
        ),
    }
}

/// Records the faults of the title, which must be the first of the items after `define` in the root at `home`.
fn blame_title_part(file: PlanningFile, items: &[Tree], home: usize, first: &mut Option<Fault>)
    ensures { first.new ≡ first_of first.old (spec.second_faults file home (views items.now)) }
{
    match items {
        [] => blame(first, home, FaultKind::Shape),
        [title, ..] => blame_second(file, title, first),
    }
}

/// Records the faults of the items after `define` in the root at `home`.
fn blame_behind_define(
    alloc: Global,
    file: PlanningFile,
    items: &[Tree],
    home: usize,
    first: &mut Option<Fault>,
) -> Result<(), AllocError>
    ensures { OnOk result (first.new ≡ first_of first.old (spec.behind_define_faults file home (views items.now))) }
{
    blame_title_part(file, items, home, first);
    let sections = without_first(items);
    blame_sections(alloc, file, sections, first)?;
    blame_missing_goal(file, home, sections, first);
    Ok(())
}

/// Records the faults of the heads in the root at `home`, whose items are `items`.
#[tactic(auto, unfolding(crate::specs::Faults::first_of))]
fn blame_root(
    alloc: Global,
    file: PlanningFile,
    items: &[Tree],
    home: usize,
    first: &mut Option<Fault>,
) -> Result<(), AllocError>
    ensures { OnOk result (first.new ≡ first_of first.old (spec.root_faults file home (views items.now))) }
{
    match items {
        [] => {
            blame(first, home, FaultKind::Shape);
            Ok(())
        }
        [define, ..] => {
            blame_if(
                !is_word(define, "define"),
                first,
                start_of(define),
                FaultKind::Shape,
            );
            blame_behind_define(alloc, file, without_first(items), home, first)
        }
    }
}

/// Records the faults of a text's heads in `first`: those of `define`, of the title and of the sections' heads, and a
/// missing goal of a problem.
pub fn read_heads(
    alloc: Global,
    file: PlanningFile,
    root: &Tree,
    first: &mut Option<Fault>,
) -> Result<(), AllocError>
    ensures { OnOk result (first.new ≡ first_of first.old (spec.head_faults file (alone root.now))) }
{
    match root {
        Tree::Word { text: _, span } => {
            blame(first, span.start, FaultKind::Shape);
            Ok(())
        }
        Tree::List { items, span } => blame_root(alloc, file, items, span.start, first),
    }
}
