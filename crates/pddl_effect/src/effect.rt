//! Effects.

ghost use Rattle.std.specs.Prelude.{◌≡◌, ◌++◌, ◌∷◌, [], OnOk, option_to_list};
ghost use Rattle.std.specs.List.{filter_map};
ghost use Rattle.std.specs.Option.{option_map};
ghost use Rattle.sexp.specs.Forms.{Forms, before, views};
ghost use Rattle.pddl_syntax.specs.Faults.{first_of};
ghost use Rattle.pddl_effect.specs.Effects as spec;
ghost use Rattle.pddl_effect.specs.Literals.{literal_places, increase_places};

use crate::increase::read_increase;
use crate::negation::negated;
use pddl_syntax::{Fault, FaultKind, blame};
use pddl_task::{Condition, Increase, LiftedAtom, LiftedEffect};
use pddl_terms::{Beginning, HeadedList, Reader, Setting, atom, beginning_of};
use sexp::Tree;
use std::alloc::{AllocError, Global};

/// The effects and the increases of an action, in the order of the text.
#[derive(Drop)]
pub struct Effects {
    pub effects: Vec<LiftedEffect>,
    pub increases: Vec<Increase>,
    /// The byte offsets of all literals; those with a fault count too, although they are not among the effects.
    pub literals: Vec<usize>,
    /// The byte offsets of all increases, those with a fault included.
    pub increase_places: Vec<usize>,
}

impl Effects {
    /// Returns no effects and no increases.
    pub fn new(alloc: Global) -> Effects
        ensures effects { result.effects.items ≡ [] }
        ensures increases { result.increases.items ≡ [] }
        ensures literals { result.literals.items ≡ [] }
        ensures increase_places { result.increase_places.items ≡ [] }
    {
        Effects {
            effects: Vec::new(alloc),
            increases: Vec::new(alloc),
            literals: Vec::new(alloc),
            increase_places: Vec::new(alloc),
        }
    }

    /// Adds the literal of the list at `at`, an effect that makes its atom true or false. There is no atom if it has a
    /// fault.
    fn add(&mut self, at: usize, atom: Option<LiftedAtom>, positive: bool) -> Result<(), AllocError>
        ensures effects { OnOk result (self.new.effects.items ≡ self.old.effects.items ++ option_to_list (option_map (spec.effect_of positive) atom)) }
        ensures increases { OnOk result (self.new.increases.items ≡ self.old.increases.items) }
        ensures literals { OnOk result (self.new.literals.items ≡ self.old.literals.items ++ at ∷ []) }
        ensures increase_places { OnOk result (self.new.increase_places.items ≡ self.old.increase_places.items) }
    {
        self.literals.push(at)?;
        if let Some(atom) = atom {
            self.effects.push(LiftedEffect { atom, positive })?;
        }
        Ok(())
    }

    /// Adds the increase of the list at `at`, which has no value if it has a fault.
    fn add_increase(&mut self, at: usize, increase: Option<Increase>) -> Result<(), AllocError>
        ensures effects { OnOk result (self.new.effects.items ≡ self.old.effects.items) }
        ensures increases { OnOk result (self.new.increases.items ≡ self.old.increases.items ++ option_to_list increase) }
        ensures literals { OnOk result (self.new.literals.items ≡ self.old.literals.items) }
        ensures increase_places { OnOk result (self.new.increase_places.items ≡ self.old.increase_places.items ++ at ∷ []) }
    {
        self.increase_places.push(at)?;
        if let Some(increase) = increase {
            self.increases.push(increase)?;
        }
        Ok(())
    }
}

/// Returns the atom of a negated atom, or `None` for any other condition.
fn negated_atom(condition: Option<Condition>) -> Option<LiftedAtom>
    ensures { option_to_list result ≡ filter_map spec.negated_atom (option_to_list condition) }
{
    match condition {
        Some(Condition::Negative(atom)) => Some(atom),
        _ => None,
    }
}

/// Reads a tree as an effect, adds its meaning to `effects` and records its faults in `first`. On failure, effects of a
/// part of the tree may have been added.
#[cycle(effects)]
#[tactic(auto, using(sexp::proofs::Walking::walking, pddl_syntax::proofs::Trees::noting, crate::proofs::Steps::appending), unfolding(pddl_syntax::specs::Faults::first_of))]
pub fn read_effect(
    reader: &Reader,
    tree: &Tree,
    effects: &mut Effects,
    first: &mut Option<Fault>,
) -> Result<(), AllocError>
    ensures effects { (rest : Forms) →
        OnOk result (effects.old.effects.items ++ spec.effects reader.now (before tree.now rest) ≡ effects.new.effects.items ++ spec.effects reader.now rest) }
    ensures increases { (rest : Forms) → OnOk result (effects.old.increases.items ++ spec.increases reader.now (before tree.now rest)
        ≡ effects.new.increases.items ++ spec.increases reader.now rest) }
    ensures literals { (rest : Forms) → OnOk result (effects.old.literals.items ++ literal_places Setting.InEffect (before tree.now rest)
        ≡ effects.new.literals.items ++ literal_places Setting.InEffect rest) }
    ensures increase_places { (rest : Forms) → OnOk result (
        effects.old.increase_places.items ++ increase_places Setting.InEffect (before tree.now rest)
        ≡ effects.new.increase_places.items ++ increase_places Setting.InEffect rest) }
    ensures faults { (rest : Forms) →
        OnOk result (first_of first.old (spec.effects_faults reader.now (before tree.now rest)) ≡ first_of first.new (spec.effects_faults reader.now rest)) }
{
    match tree {
        Tree::Word { span, .. } => blame(first, span.start, FaultKind::Shape),
        Tree::List { items, span } => match items.as_slice() {
            [] => {}
            [head, rest @ ..] => match head {
                Tree::List { span, .. } => blame(first, span.start, FaultKind::Shape),
                Tree::Word {
                    text,
                    span: head_span,
                } => {
                    let list = HeadedList::new(*span, text.as_str(), *head_span, rest);
                    match beginning_of(Setting::InEffect, list.head) {
                        Beginning::Conjunction => read_effects(reader, rest, effects, first)?,
                        Beginning::Negation => {
                            let condition = negated(Setting::InEffect, reader, &list, first)?;
                            effects.add(list.start, negated_atom(condition), false)?
                        }
                        Beginning::Increasing => {
                            let increase = read_increase(reader, &list, first)?;
                            effects.add_increase(list.start, increase)?
                        }
                        Beginning::Atom => {
                            let atom = atom(reader, &list, first)?;
                            effects.add(list.start, atom, true)?
                        }
                        Beginning::Unread => blame(first, list.head_start, FaultKind::Unsupported),
                        Beginning::Equality | Beginning::GoalEquality | Beginning::NoName => {
                            blame(first, list.head_start, FaultKind::Shape)
                        }
                    }
                }
            },
        },
    }
    Ok(())
}

#[cycle(effects)]
#[tactic(auto, unfolding(pddl_syntax::specs::Faults::first_of))]
fn read_effects(
    reader: &Reader,
    items: &[Tree],
    effects: &mut Effects,
    first: &mut Option<Fault>,
) -> Result<(), AllocError>
    ensures effects { OnOk result (effects.new.effects.items ≡ effects.old.effects.items ++ spec.effects reader.now (views items.now)) }
    ensures increases { OnOk result (effects.new.increases.items ≡ effects.old.increases.items ++ spec.increases reader.now (views items.now)) }
    ensures literals { OnOk result (effects.new.literals.items ≡ effects.old.literals.items ++ literal_places Setting.InEffect (views items.now)) }
    ensures increase_places { OnOk result (effects.new.increase_places.items
        ≡ effects.old.increase_places.items ++ increase_places Setting.InEffect (views items.now)) }
    ensures faults { OnOk result (first.new ≡ first_of first.old (spec.effects_faults reader.now (views items.now))) }
{
    for item in items {
        read_effect(reader, item, effects, first)?;
    }
    Ok(())
}
