//! Preconditions and goals.

ghost use Rattle.std.specs.Prelude.{◌≡◌, IfOk, OnOk};
ghost use Rattle.std.specs.List.{list_all};
ghost use Rattle.translate_assembly.specs.Slots.{look_up};
ghost use Rattle.translate_assembly.specs.Facts.{assigned};
ghost use Rattle.translate_assembly.specs.Operators.{wanted_fact, excluded_fact, condition_facts, agrees};

use crate::assignment::Assignment;
use crate::slot::Slot;
use crate::table::Table;
use fdr::Fact;
use pddl_task::GroundLiteral;
use std::alloc::{AllocError, Global};

/// Returns the facts that the literals require. Literals on atoms in no variable require none.
pub(crate) fn condition(
    alloc: Global,
    table: &Table<'_>,
    literals: &[GroundLiteral],
) -> Result<Assignment, AllocError>
    ensures { IfOk result (λ facts. facts ≡ condition_facts (look_up table.now) literals.now) }
{
    let mut facts = Assignment::new(alloc);
    set_excluded(&mut facts, table, literals)?;
    set_wanted(&mut facts, table, literals)?;
    Ok(facts)
}

/// Sets the none value of the variable of each excluded atom.
fn set_excluded(
    facts: &mut Assignment,
    table: &Table<'_>,
    literals: &[GroundLiteral],
) -> Result<(), AllocError>
    ensures { OnOk result (facts.new ≡ assigned (excluded_fact (look_up table.now)) facts.old literals.now) }
{
    for literal in literals {
        facts.set_some(excluded_fact(table, literal))?;
    }
    Ok(())
}

fn excluded_fact(table: &Table<'_>, literal: &GroundLiteral) -> Option<Fact>
    ensures { result ≡ excluded_fact (look_up table.now) literal.now }
{
    if literal.positive {
        return None;
    }
    Some(table.slot(&literal.atom)?.none_fact())
}

/// Sets the value of each wanted atom.
fn set_wanted(
    facts: &mut Assignment,
    table: &Table<'_>,
    literals: &[GroundLiteral],
) -> Result<(), AllocError>
    ensures { OnOk result (facts.new ≡ assigned (wanted_fact (look_up table.now)) facts.old literals.now) }
{
    for literal in literals {
        facts.set_some(wanted_fact(table, literal))?;
    }
    Ok(())
}

fn wanted_fact(table: &Table<'_>, literal: &GroundLiteral) -> Option<Fact>
    ensures { result ≡ wanted_fact (look_up table.now) literal.now }
{
    if !literal.positive {
        return None;
    }
    Some(table.slot(&literal.atom)?.own_fact())
}

/// Returns whether the facts that the literals require agree with each of the literals. If they do not, two wanted
/// atoms are in one variable, or an atom is both wanted and excluded.
pub(crate) fn are_consistent(
    table: &Table<'_>,
    facts: &Assignment,
    literals: &[GroundLiteral],
) -> bool
    ensures { result ≡ list_all (agrees (look_up table.now) facts.now) literals.now }
{
    literals.iter().all(|literal| agrees(table, facts, literal))
}

fn agrees(table: &Table<'_>, facts: &Assignment, literal: &GroundLiteral) -> bool
    ensures { result ≡ agrees (look_up table.now) facts.now literal.now }
{
    match table.slot(&literal.atom) {
        Some(slot) if literal.positive => facts.holds(slot.own_fact()),
        Some(slot) => !facts.holds(slot.own_fact()),
        None => true,
    }
}
