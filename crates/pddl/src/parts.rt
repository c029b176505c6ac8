//! The sections of a text, and the result of a pass over one.

ghost use Rattle.std.specs.Prelude.{◌≡◌, None, IfErr, OnOk};
ghost use Rattle.sexp.specs.Forms.{views, alone};
ghost use Rattle.pddl_syntax.specs.Faults.{first_of};
ghost use Rattle.pddl_syntax.specs.Sections.{head_faults};
ghost use Rattle.pddl.specs.Texts.{inside_of, place_in, pass};
ghost use Rattle.pddl.specs.Passes.{Fails, FailsBy};

use crate::fault::PddlFault;
use pddl_syntax::{Fault, PlanningFile, Section, find_section, read_heads, sections_of};
use sexp::Tree;
use std::alloc::Global;

/// Returns the first section with this name in a text, or an empty section at offset 0 if there is none.
pub fn part_of<'a>(root: &'a Tree, name: &str) -> Section<'a>
    ensures place { result.at ≡ place_in (alone root.now) name.now }
    ensures inside { views result.items.now ≡ inside_of (alone root.now) name.now }
{
    let sections = sections_of(root);
    match find_section(sections, name) {
        Some(section) => section,
        None => Section { at: 0, items: &[] },
    }
}

/// Ends a pass over a text. Fails with the first fault that the pass found.
pub fn judge(file: PlanningFile, first: Option<Fault>) -> Result<(), PddlFault>
    ensures clean { OnOk result (first ≡ None) }
    ensures fault { IfErr result (λ e. FailsBy e file first) }
{
    match first {
        Some(fault) => Err(PddlFault::Section(file, fault)),
        None => Ok(()),
    }
}

/// Checks the heads of a text: of `define`, its title and its sections. Fails with their first fault, or if allocation
/// fails.
pub fn heads_pass(alloc: Global, file: PlanningFile, root: &Tree) -> Result<(), PddlFault>
    ensures clean { OnOk result (first_of None (head_faults file (alone root.now)) ≡ None) }
    ensures fault { IfErr result (λ e. Fails e (pass file (head_faults file (alone root.now)))) }
{
    let mut first = None;
    read_heads(alloc, file, root, &mut first)?;
    judge(file, first)
}
