//! The section of the requirements. Every requirement is accepted.

ghost use Rattle.std.specs.Prelude.{◌≡◌, not};
ghost use Rattle.sexp.specs.Forms.{Forms, before, views};
ghost use Rattle.pddl_syntax.specs.Faults.{first_of};
ghost use Rattle.pddl_syntax.specs.Words.{starts_with_colon};
ghost use Rattle.pddl_syntax.specs.Sections.{requirement_faults};

use crate::fault::{Fault, FaultKind, blame, blame_if};
use sexp::Tree;

fn lacks_colon(text: &str) -> bool
    ensures { result ≡ not (starts_with_colon text.now) }
{
    match text.as_bytes() {
        [b':', ..] => false,
        _ => true,
    }
}

fn requirement(tree: &Tree, first: &mut Option<Fault>)
    ensures { (rest : Forms) → first_of first.old (requirement_faults (before tree.now rest)) ≡ first_of first.new (requirement_faults rest) }
{
    match tree {
        Tree::Word { text, span } => blame_if(
            lacks_colon(text.as_str()),
            first,
            span.start,
            FaultKind::Shape,
        ),
        Tree::List { items: _, span } => blame(first, span.start, FaultKind::Shape),
    }
}

/// Reads the section of the requirements, whose items without its head are `items`, and records its faults in `first`:
/// F10 for each item that is not a word beginning with a colon.
#[tactic(auto, unfolding(crate::specs::Faults::first_of))]
pub fn requirements_section(items: &[Tree], first: &mut Option<Fault>)
    ensures { first.new ≡ first_of first.old (requirement_faults (views items.now)) }
{
    for tree in items {
        requirement(tree, first);
    }
}
