//! Conditions.

ghost use Rattle.std.specs.Prelude.{◌≡◌, ◌++◌, ◌∷◌, [], map, OnOk, option_to_list};
ghost use Rattle.sexp.specs.Forms.{Forms, before, views};
ghost use Rattle.pddl_syntax.specs.Faults.{first_of};
ghost use Rattle.pddl_effect.specs.Conditions as spec;
ghost use Rattle.pddl_effect.specs.Literals.{literal_places};

use crate::negation::{equality, negated};
use pddl_syntax::{Fault, FaultKind, blame};
use pddl_task::Condition;
use pddl_terms::{Beginning, HeadedList, Reader, Setting, atom, beginning_of};
use sexp::Tree;
use std::alloc::{AllocError, Global};

/// The conditions of an action or of a goal, in the order of the text.
#[derive(Drop)]
pub struct Conditions {
    pub conditions: Vec<Condition>,
    /// The byte offset of each condition.
    pub places: Vec<usize>,
    /// The byte offsets of all literals; those with a fault count too, although they are not among the conditions.
    pub literals: Vec<usize>,
}

impl Conditions {
    /// Returns no conditions.
    pub fn new(alloc: Global) -> Conditions
        ensures conditions { result.conditions.items ≡ [] }
        ensures places { result.places.items ≡ [] }
        ensures literals { result.literals.items ≡ [] }
    {
        Conditions {
            conditions: Vec::new(alloc),
            places: Vec::new(alloc),
            literals: Vec::new(alloc),
        }
    }

    /// Adds the literal of the list at `at`, which has no condition if it has a fault.
    fn add(&mut self, at: usize, condition: Option<Condition>) -> Result<(), AllocError>
        ensures conditions { OnOk result (self.new.conditions.items ≡ self.old.conditions.items ++ option_to_list condition) }
        ensures places { OnOk result (self.new.places.items ≡ self.old.places.items ++ map (λ c. at) (option_to_list condition)) }
        ensures literals { OnOk result (self.new.literals.items ≡ self.old.literals.items ++ at ∷ []) }
    {
        self.literals.push(at)?;
        if let Some(condition) = condition {
            self.conditions.push(condition)?;
            self.places.push(at)?;
        }
        Ok(())
    }
}

/// Reads a tree as a condition of an action, adds its meaning to `conditions` and records its faults in `first`. On
/// failure, conditions of a part of the tree may have been added.
pub fn read_condition(
    reader: &Reader,
    tree: &Tree,
    conditions: &mut Conditions,
    first: &mut Option<Fault>,
) -> Result<(), AllocError>
    ensures meaning { (rest : Forms) → OnOk result (conditions.old.conditions.items ++ spec.conditions reader.now (before tree.now rest)
        ≡ conditions.new.conditions.items ++ spec.conditions reader.now rest) }
    ensures literals { (rest : Forms) → OnOk result (conditions.old.literals.items ++ literal_places Setting.InCondition (before tree.now rest)
        ≡ conditions.new.literals.items ++ literal_places Setting.InCondition rest) }
    ensures faults { (rest : Forms) → OnOk result (first_of first.old (spec.conditions_faults reader.now (before tree.now rest))
        ≡ first_of first.new (spec.conditions_faults reader.now rest)) }
{
    read_condition_in(Setting::InCondition, reader, tree, conditions, first)
}

/// Reads a tree as a condition in a setting, which is that of conditions or that of goals, adds its meaning to
/// `conditions` and records its faults in `first`. On failure, conditions of a part of the tree may have been added.
#[cycle(conditions)]
#[tactic(auto, using(sexp::proofs::Walking::walking, pddl_syntax::proofs::Trees::noting, crate::proofs::Steps::appending), unfolding(pddl_syntax::specs::Faults::first_of))]
pub fn read_condition_in(
    setting: Setting,
    reader: &Reader,
    tree: &Tree,
    conditions: &mut Conditions,
    first: &mut Option<Fault>,
) -> Result<(), AllocError>
    ensures meaning { (rest : Forms) → OnOk result (
        conditions.old.conditions.items ++ spec.conditions_in setting reader.now (before tree.now rest)
        ≡ conditions.new.conditions.items ++ spec.conditions_in setting reader.now rest) }
    ensures places { (rest : Forms) → OnOk result (
        conditions.old.places.items ++ spec.condition_places setting reader.now (before tree.now rest)
        ≡ conditions.new.places.items ++ spec.condition_places setting reader.now rest) }
    ensures literals { (rest : Forms) → OnOk result (
        conditions.old.literals.items ++ literal_places setting (before tree.now rest) ≡ conditions.new.literals.items ++ literal_places setting rest) }
    ensures faults { (rest : Forms) → OnOk result (
        first_of first.old (spec.conditions_faults_in setting reader.now (before tree.now rest))
        ≡ first_of first.new (spec.conditions_faults_in setting reader.now rest)) }
{
    match tree {
        Tree::Word { span, .. } => blame(first, span.start, FaultKind::Shape),
        Tree::List { items, span } => match items.as_slice() {
            [] => {}
            [head, rest @ ..] => match head {
                Tree::List { span, .. } => blame(first, span.start, FaultKind::Shape),
                Tree::Word {
                    text,
                    span: head_span,
                } => {
                    let list = HeadedList::new(*span, text.as_str(), *head_span, rest);
                    match beginning_of(setting, list.head) {
                        Beginning::Conjunction => {
                            read_conditions(setting, reader, rest, conditions, first)?
                        }
                        Beginning::Negation => {
                            let condition = negated(setting, reader, &list, first)?;
                            conditions.add(list.start, condition)?
                        }
                        Beginning::Equality => {
                            let condition = equality(reader, true, &list, first);
                            conditions.add(list.start, condition)?
                        }
                        Beginning::Atom => {
                            let atom = atom(reader, &list, first)?;
                            conditions.add(list.start, atom.map(Condition::Positive))?
                        }
                        Beginning::GoalEquality | Beginning::Unread => {
                            blame(first, list.head_start, FaultKind::Unsupported)
                        }
                        Beginning::Increasing | Beginning::NoName => {
                            blame(first, list.head_start, FaultKind::Shape)
                        }
                    }
                }
            },
        },
    }
    Ok(())
}

#[cycle(conditions)]
#[tactic(auto, unfolding(pddl_syntax::specs::Faults::first_of))]
fn read_conditions(
    setting: Setting,
    reader: &Reader,
    items: &[Tree],
    conditions: &mut Conditions,
    first: &mut Option<Fault>,
) -> Result<(), AllocError>
    ensures meaning { OnOk result (conditions.new.conditions.items
        ≡ conditions.old.conditions.items ++ spec.conditions_in setting reader.now (views items.now)) }
    ensures places { OnOk result (conditions.new.places.items ≡ conditions.old.places.items ++ spec.condition_places setting reader.now (views items.now)) }
    ensures literals { OnOk result (conditions.new.literals.items ≡ conditions.old.literals.items ++ literal_places setting (views items.now)) }
    ensures faults { OnOk result (first.new ≡ first_of first.old (spec.conditions_faults_in setting reader.now (views items.now))) }
{
    for item in items {
        read_condition_in(setting, reader, item, conditions, first)?;
    }
    Ok(())
}
