//! The transitions of a projection.

ghost use Rattle.std.specs.Prelude.{◌≡◌, ◌<◌, ◌⊎◌, ◌↔◌, All, Contains, length, slice_get, Some, None, IfSome, IfNone, IfOk, OnOk};
ghost use Rattle.abstraction_groups.specs.declared.backward.Transition.{Transition};
ghost use Rattle.abstraction_groups.specs.Changes.{size_by};
ghost use Rattle.pdb_regression.specs.Words.{word_by};
ghost use Rattle.pdb_regression.specs.Tables.{LeadsIn, IsListed, IsReadAt, positions_of};

use crate::place::{Place, add_classes, is_read_plainly, places_of};
use crate::rule::Rule;
use crate::rules::rules_of;
use crate::word::word_of;
use abstraction::Projection;
use abstraction_groups::{BackwardTransitions, Groups, OperatorIndex, Transition};
use std::alloc::{AllocError, Global};
use std::marker::Model;

/// The transitions of a projection, by groups of operators that make the same changes to the pattern, which are their
/// classes. In contracts its value is the projection.
///
/// The values of an abstract state are packed into a word, so that one comparison decides whether a class enters it,
/// and the sources are computed by additions. Classes that require a value at a digit with many values are listed under
/// it. The rest are tested for every abstract state.
#[derive(Drop)]
pub struct ProjectionTransitions<'a> {
    groups: Groups<'a, Projection<'a>>,
    places: Vec<Place>,
    rest: Vec<u32>,
    rules: Vec<Rule>,
    /// Whether abstract states are their own words, and no class is listed under a value.
    plain: bool,
}

impl<'a> Model for ProjectionTransitions<'a> {
    ghost use Rattle.std.specs.Prelude.{◌≡◌, length, true, All};
    ghost use Rattle.fdr.specs.Tasks.{ranges};
    ghost use Rattle.abstraction.specs.Digits.{digits_from};
    ghost use Rattle.abstraction.specs.Projections.{Projection};
    ghost use Rattle.pdb_regression.specs.Tables.{rows_of, AreIndexed, IsPositionIn, IsReadPlainly, positions_of};

    ghost Value = { Projection };

    ghost view = { λ t. t.groups };

    ghost invariant = { λ t.
        (t.rules.items ≡ rows_of t.groups) ×
        AreIndexed t.rest.items t.places.items t.rules.items (length t.rules.items) ×
        All (IsPositionIn (digits_from (ranges t.groups.task) 1 t.groups.pattern)) (positions_of t.places.items) ×
        (t.plain ≡ true → IsReadPlainly (digits_from (ranges t.groups.task) 1 t.groups.pattern) t.places.items) };
}

/// Returns the rule of a class, if there is such a class.
fn rule_at(rules: &[Rule], class: u32) -> Option<&Rule>
    ensures rule { IfSome result (λ rule. slice_get rules.now class ≡ Some rule.now) }
    ensures absent { IfNone result (slice_get rules.now class ≡ None) }
{
    rules.get(class as usize)
}

/// Appends the transitions of the listed classes into the abstract state, which has this word.
fn add_listed(
    rules: &[Rule],
    classes: &[u32],
    abstract_state: usize,
    word: u64,
    transitions: &mut Vec<Transition>,
) -> Result<(), AllocError>
    requires state { All (λ cs. abstract_state < size_by cs) rules.now }
    requires word { All (λ cs. word ≡ word_by abstract_state cs) rules.now }
    ensures { OnOk result ((t : Transition) → Contains transitions.new.items t ↔ (Contains transitions.old.items t ⊎
        (Contains classes.now t.class × LeadsIn rules.now t.class t.source abstract_state))) }
{
    for class in classes {
        if let Some(rule) = rule_at(rules, *class) {
            rule.add_transitions(*class, abstract_state, word, transitions)?;
        }
    }
    Ok(())
}

/// Replaces the content of `transitions` by the transitions into the abstract state, which has these values at its
/// digits and this word.
fn add_entering(
    rest: &[u32],
    places: &[Place],
    rules: &[Rule],
    abstract_state: usize,
    values: &[u32],
    word: u64,
    transitions: &mut Vec<Transition>,
) -> Result<(), AllocError>
    requires values { All (IsReadAt values.now abstract_state) (positions_of places.now) }
    requires state { All (λ cs. abstract_state < size_by cs) rules.now }
    requires word { All (λ cs. word ≡ word_by abstract_state cs) rules.now }
    ensures { OnOk result ((t : Transition) → Contains transitions.new.items t ↔
        (IsListed rest.now places.now abstract_state t.class × LeadsIn rules.now t.class t.source abstract_state)) }
{
    transitions.clear();
    add_listed(rules, rest, abstract_state, word, transitions)?;
    for place in 0..places.len() {
        let value = values[places[place].position().number];
        let classes = places[place].classes(value as usize);
        add_listed(rules, classes, abstract_state, word, transitions)?;
    }
    Ok(())
}

impl<'a> ProjectionTransitions<'a> {
    /// Prepares the transitions of a projection of the indexed task. Time and memory are linear in the number of the
    /// pattern's variables for each operator with an effect on the pattern; each value of a variable with 4 values or
    /// more takes a list.
    pub(crate) fn new(
        alloc: Global,
        projection: &'a Projection<'a>,
        index: &OperatorIndex<'_>,
    ) -> Result<ProjectionTransitions<'a>, AllocError>
        requires { index.now ≡ projection.now.task }
        ensures { IfOk result (λ t. t ≡ projection.now) }
    {
        // only for the proof: with fewer than 2^32 operators there are as few classes
        projection.task().recall();
        let digits = projection.digits();
        let groups = Groups::new(alloc, projection, index)?;
        let rules = rules_of(alloc, &groups)?;
        let mut places = places_of(alloc, digits)?;
        let mut rest = Vec::new(alloc);
        add_classes(digits, &mut places, &mut rest, &rules)?;
        let plain = is_read_plainly(digits, &places);
        Ok(ProjectionTransitions {
            groups,
            places,
            rest,
            rules,
            plain,
        })
    }

    /// Returns the projection.
    pub(crate) fn projection(&self) -> &'a Projection<'a>
        ensures { result.now ≡ self.now }
    {
        self.groups.abstraction()
    }
}

impl<'a> BackwardTransitions for ProjectionTransitions<'a> {
    ghost use Rattle.abstraction.specs.Projections as projections;
    ghost use Rattle.abstraction_groups.specs.Factors.{groups_of};
    ghost use Rattle.abstraction_groups.specs.FactorLaws.{projection_factors, projection_factored};
    ghost use Rattle.abstraction_groups.specs.GroupLaws.{factored_grouped};

    ghost abstraction = { λ p. projections.projection p.task p.pattern };

    ghost classes = { λ p. groups_of p.task (projection_factors p) };

    ghost grouped = { λ p. factored_grouped p.task (projections.projection p.task p.pattern) (projection_factors p) (projection_factored p) };

    fn class_count(&self) -> usize {
        self.groups.len()
    }

    fn operators_of(&self, class: usize) -> &[u32] {
        self.groups.operators_of(class)
    }

    fn stored(&self, _: usize) -> Option<&[Transition]> {
        None
    }

    fn entering(
        &self,
        abstract_state: usize,
        digits: &mut Vec<u32>,
        transitions: &mut Vec<Transition>,
    ) -> Result<(), AllocError> {
        let word = word_of(
            self.plain,
            self.projection().digits(),
            abstract_state,
            digits,
        )?;
        add_entering(
            &self.rest,
            &self.places,
            &self.rules,
            abstract_state,
            digits,
            word,
            transitions,
        )
    }
}
