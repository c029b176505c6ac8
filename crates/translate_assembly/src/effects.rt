//! Effects.

ghost use Rattle.std.specs.Prelude.{◌≡◌, IfOk, OnOk, filter, not};
ghost use Rattle.translate_assembly.specs.Slots.{look_up};
ghost use Rattle.translate_assembly.specs.Facts.{assigned, has_fact};
ghost use Rattle.translate_assembly.specs.Operators.{fact_of, removed_fact, effect_facts};

use crate::assignment::Assignment;
use crate::table::Table;
use fdr::Fact;
use pddl_task::{GroundAction, GroundAtom};
use std::alloc::{AllocError, Global};

/// Returns the facts that hold after the action and are not in its condition.
pub(crate) fn effect(
    alloc: Global,
    table: &Table<'_>,
    condition: &Assignment,
    action: &GroundAction,
) -> Result<Vec<Fact>, AllocError>
    ensures { IfOk result (λ facts. facts.items ≡ effect_facts (look_up table.now) condition.now action.now) }
{
    let mut facts = Assignment::new(alloc);
    set_removed(&mut facts, table, condition, &action.deletes)?;
    set_added(&mut facts, table, &action.adds)?;
    changes(alloc, condition, facts.as_slice())
}

/// Sets the none value of the variable of each deleted atom that was true by the condition or is the only one of its
/// variable.
fn set_removed(
    facts: &mut Assignment,
    table: &Table<'_>,
    condition: &Assignment,
    deletes: &[GroundAtom],
) -> Result<(), AllocError>
    ensures { OnOk result (facts.new ≡ assigned (removed_fact (look_up table.now) condition.now) facts.old deletes.now) }
{
    for atom in deletes {
        facts.set_some(removed_fact(table, condition, atom))?;
    }
    Ok(())
}

/// Returns the none value for a deleted atom, if the atom was true by the condition or is the only one of its variable.
fn removed_fact(table: &Table<'_>, condition: &Assignment, atom: &GroundAtom) -> Option<Fact>
    ensures { result ≡ removed_fact (look_up table.now) condition.now atom.now }
{
    let slot = table.slot(atom)?;
    if slot.count == 1 || condition.holds(slot.own_fact()) {
        Some(slot.none_fact())
    } else {
        None
    }
}

/// Sets the value of each added atom.
fn set_added(
    facts: &mut Assignment,
    table: &Table<'_>,
    adds: &[GroundAtom],
) -> Result<(), AllocError>
    ensures { OnOk result (facts.new ≡ assigned (fact_of (look_up table.now)) facts.old adds.now) }
{
    for atom in adds {
        facts.set_some(added_fact(table, atom))?;
    }
    Ok(())
}

fn added_fact(table: &Table<'_>, atom: &GroundAtom) -> Option<Fact>
    ensures { result ≡ fact_of (look_up table.now) atom.now }
{
    Some(table.slot(atom)?.own_fact())
}

/// Returns the facts that are not in the condition.
fn changes(alloc: Global, condition: &Assignment, facts: &[Fact]) -> Result<Vec<Fact>, AllocError>
    ensures { IfOk result (λ changes. changes.items ≡ filter (λ f. not (has_fact condition.now f)) facts.now) }
{
    facts
        .iter()
        .copied()
        .filter(|fact| !condition.holds(*fact))
        .collect(alloc)
}
