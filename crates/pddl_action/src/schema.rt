//! The schema of an action, read from its parts.

ghost use Rattle.std.specs.Prelude.{◌≡◌, ◌++◌, ◌∷◌, [], ℕ, List, map, None, IfOk, OnOk};
ghost use Rattle.std.specs.Option.{option_map, option_map_or};
ghost use Rattle.sexp.specs.Forms.{Forms, views, alone};
ghost use Rattle.pddl_syntax.specs.Faults.{first_of};
ghost use Rattle.pddl_syntax.specs.Parameters.{parameter_names, parameter_types};
ghost use Rattle.pddl_effect.specs.Conditions.{conditions};
ghost use Rattle.pddl_effect.specs.Effects.{effects, increases};
ghost use Rattle.pddl_action.specs.Keywords as keywords;
ghost use Rattle.pddl_action.specs.Keywords.{KeywordPart};
ghost use Rattle.pddl_action.specs.Actions as spec;
ghost use Rattle.pddl_action.specs.Limits.{max_literals, max_increases};
ghost use Rattle.pddl_action.specs.Readings.{or_first, value_or, list_faults, lists_faults, body_faults, bodies_faults, names_of_list, types_of_list};

use crate::keyword::{Keyword, Part, items_of, parts};
use crate::scope::Declarations;
use pddl_effect::{Conditions, Effects, read_condition, read_effect};
use pddl_names::Names;
use pddl_syntax::{Fault, FaultKind, LimitedTable, Parameters, Types, blame, parameters_list};
use pddl_task::{ActionSchema, Condition};
use pddl_terms::Reader;
use sexp::Tree;
use std::alloc::{AllocError, Global};

/// The greatest number of literals of a schema.
const MAX_LITERALS: usize = 256;

/// The greatest number of increases of a schema.
const MAX_INCREASES: usize = 16;

/// Records the first item past the limit, if there is one. `places` are the byte offsets of the items.
#[tactic(auto, unfolding(pddl_syntax::specs::Faults::first_of))]
fn blame_past(table: LimitedTable, limit: usize, places: &[usize], first: &mut Option<Fault>)
    ensures { first.new ≡ first_of first.old (spec.past_faults table limit places.now) }
{
    if let Some(at) = places.get(limit) {
        blame(first, *at, FaultKind::Limit(table));
    }
}

// ---- the parameters

/// Reads a part if it is a list of parameters, and records its faults. Its parameters are those of the action if
/// `parameters` is `None`.
#[tactic(auto, unfolding(pddl_syntax::specs::Faults::first_of))]
fn read_list(
    alloc: Global,
    types: &Types,
    part: Part,
    parameters: &mut Option<Parameters>,
    first: &mut Option<Fault>,
) -> Result<(), AllocError>
    ensures names { (rest : List KeywordPart) → OnOk result (
        value_or (option_map (λ p. p.names) parameters.old) names_of_list Keyword.Parameters (keywords.part_of part.entry ∷ rest)
        ≡ value_or (option_map (λ p. p.names) parameters.new) names_of_list Keyword.Parameters rest) }
    ensures types { (rest : List KeywordPart) → OnOk result (
        value_or (option_map (λ p. p.types.items) parameters.old) (types_of_list types.now.names) Keyword.Parameters (keywords.part_of part.entry ∷ rest)
        ≡ value_or (option_map (λ p. p.types.items) parameters.new) (types_of_list types.now.names) Keyword.Parameters rest) }
    ensures faults { OnOk result (first.new ≡ first_of first.old (list_faults types.now.names part.entry.keyword (alone part.entry.value.now))) }
{
    match part.keyword {
        Keyword::Parameters => {
            let home = part.value.span().start;
            let read = parameters_list(alloc, items_of(part.value), types, home, first)?;
            if parameters.is_none() {
                *parameters = Some(read);
            }
        }
        Keyword::Precondition | Keyword::Effect => {}
    }
    Ok(())
}

/// Returns the parameters of an action, from its first list of parameters, and records the faults of each list of
/// parameters.
fn read_parameters(
    alloc: Global,
    types: &Types,
    parts: &[Part],
    first: &mut Option<Fault>,
) -> Result<Parameters, AllocError>
    ensures names { IfOk result (λ p. p.names ≡ parameter_names (spec.parameters_of (map keywords.part_of parts.now))) }
    ensures types { IfOk result (λ p. p.types.items ≡ parameter_types types.now.names (spec.parameters_of (map keywords.part_of parts.now))) }
    ensures faults { OnOk result (first.new ≡ first_of first.old (lists_faults types.now.names (map keywords.part_of parts.now))) }
{
    let mut parameters = None;
    for part in parts {
        read_list(alloc, types, *part, &mut parameters, first)?;
    }
    Ok(parameters.unwrap_or(Parameters {
        names: Names::new(alloc),
        types: Vec::new(alloc),
    }))
}

// ---- the precondition and the effect

/// The precondition and the effect of an action, each from its first part, and the byte offsets of the literals and
/// increases of all parts.
#[derive(Drop)]
struct Body {
    precondition: Option<Vec<Condition>>,
    effect: Option<Effects>,
    literals: Vec<usize>,
    increases: Vec<usize>,
}

impl Body {
    fn new(alloc: Global) -> Body
        ensures precondition { result.precondition ≡ None }
        ensures effect { result.effect ≡ None }
        ensures literals { result.literals.items ≡ [] }
        ensures increases { result.increases.items ≡ [] }
    {
        Body {
            precondition: None,
            effect: None,
            literals: Vec::new(alloc),
            increases: Vec::new(alloc),
        }
    }

    /// Reads a precondition and records its faults.
    fn read_precondition(
        &mut self,
        reader: &Reader,
        value: &Tree,
        first: &mut Option<Fault>,
    ) -> Result<(), AllocError>
        ensures precondition { OnOk result (option_map (λ v. v.items) self.new.precondition
            ≡ or_first (option_map (λ v. v.items) self.old.precondition) (conditions reader.now (alone value.now))) }
        ensures effect { OnOk result (self.new.effect ≡ self.old.effect) }
        ensures literals { OnOk result (self.new.literals.items ≡ self.old.literals.items ++ spec.value_literals Keyword.Precondition (alone value.now)) }
        ensures increases { OnOk result (self.new.increases.items ≡ self.old.increases.items) }
        ensures faults { OnOk result (first.new ≡ first_of first.old (body_faults reader.now Keyword.Precondition (alone value.now))) }
    {
        let mut precondition = Conditions::new(reader.alloc);
        read_condition(reader, value, &mut precondition, first)?;
        self.literals.append(&mut precondition.literals)?;
        if self.precondition.is_none() {
            self.precondition = Some(precondition.conditions);
        }
        Ok(())
    }

    /// Reads an effect and records its faults.
    fn read_effect(
        &mut self,
        reader: &Reader,
        value: &Tree,
        first: &mut Option<Fault>,
    ) -> Result<(), AllocError>
        ensures precondition { OnOk result (self.new.precondition ≡ self.old.precondition) }
        ensures effects { OnOk result (option_map (λ e. e.effects.items) self.new.effect
            ≡ or_first (option_map (λ e. e.effects.items) self.old.effect) (effects reader.now (alone value.now))) }
        ensures increasing { OnOk result (option_map (λ e. e.increases.items) self.new.effect
            ≡ or_first (option_map (λ e. e.increases.items) self.old.effect) (increases reader.now (alone value.now))) }
        ensures literals { OnOk result (self.new.literals.items ≡ self.old.literals.items ++ spec.value_literals Keyword.Effect (alone value.now)) }
        ensures increases { OnOk result (self.new.increases.items ≡ self.old.increases.items ++ spec.value_increases Keyword.Effect (alone value.now)) }
        ensures faults { OnOk result (first.new ≡ first_of first.old (body_faults reader.now Keyword.Effect (alone value.now))) }
    {
        let mut effect = Effects::new(reader.alloc);
        read_effect(reader, value, &mut effect, first)?;
        self.literals.append(&mut effect.literals)?;
        self.increases.append(&mut effect.increase_places)?;
        if self.effect.is_none() {
            self.effect = Some(effect);
        }
        Ok(())
    }

    /// Reads a part if it is a precondition or an effect, and records its faults.
    #[tactic(auto, unfolding(pddl_syntax::specs::Faults::first_of))]
    fn read_part(
        &mut self,
        reader: &Reader,
        part: Part,
        first: &mut Option<Fault>,
    ) -> Result<(), AllocError>
        ensures precondition { (rest : List KeywordPart) → OnOk result (
            value_or (option_map (λ v. v.items) self.old.precondition) (conditions reader.now) Keyword.Precondition (keywords.part_of part.entry ∷ rest)
            ≡ value_or (option_map (λ v. v.items) self.new.precondition) (conditions reader.now) Keyword.Precondition rest) }
        ensures effects { (rest : List KeywordPart) → OnOk result (
            value_or (option_map (λ e. e.effects.items) self.old.effect) (effects reader.now) Keyword.Effect (keywords.part_of part.entry ∷ rest)
            ≡ value_or (option_map (λ e. e.effects.items) self.new.effect) (effects reader.now) Keyword.Effect rest) }
        ensures increasing { (rest : List KeywordPart) → OnOk result (
            value_or (option_map (λ e. e.increases.items) self.old.effect) (increases reader.now) Keyword.Effect (keywords.part_of part.entry ∷ rest)
            ≡ value_or (option_map (λ e. e.increases.items) self.new.effect) (increases reader.now) Keyword.Effect rest) }
        ensures literals { OnOk result (self.new.literals.items
            ≡ self.old.literals.items ++ spec.value_literals part.entry.keyword (alone part.entry.value.now)) }
        ensures increases { OnOk result (self.new.increases.items
            ≡ self.old.increases.items ++ spec.value_increases part.entry.keyword (alone part.entry.value.now)) }
        ensures faults { OnOk result (first.new ≡ first_of first.old (body_faults reader.now part.entry.keyword (alone part.entry.value.now))) }
    {
        match part.keyword {
            Keyword::Parameters => Ok(()),
            Keyword::Precondition => self.read_precondition(reader, part.value, first),
            Keyword::Effect => self.read_effect(reader, part.value, first),
        }
    }

    /// Records the first literal and the first increase that are past their limits.
    #[tactic(auto, using(pddl_syntax::proofs::Trees::noting), unfolding(pddl_syntax::specs::Faults::first_of))]
    fn blame_limits(&self, first: &mut Option<Fault>)
        ensures { first.new ≡ first_of first.old (spec.past_faults LimitedTable.Literals max_literals self.now.literals.items
            ++ spec.past_faults LimitedTable.Increases max_increases self.now.increases.items) }
    {
        blame_past(LimitedTable::Literals, MAX_LITERALS, &self.literals, first);
        blame_past(
            LimitedTable::Increases,
            MAX_INCREASES,
            &self.increases,
            first,
        );
    }

    /// Returns the schema of the action, whose parameters have the types `parameters`.
    fn schema(self, alloc: Global, parameters: Vec<usize>) -> ActionSchema
        ensures { result ≡ record {
          parameters = parameters.items;
          precondition = option_map_or (λ v. v.items) self.precondition [];
          effect = option_map_or (λ e. e.effects.items) self.effect [];
          increases = option_map_or (λ e. e.increases.items) self.effect [];
        } }
    {
        let effects = self.effect.unwrap_or(Effects::new(alloc));
        ActionSchema {
            parameters,
            precondition: self.precondition.unwrap_or(Vec::new(alloc)),
            effect: effects.effects,
            increases: effects.increases,
        }
    }
}

/// Reads the precondition and the effect of an action, and records the faults of each part that is one of them, and of
/// the limits on literals and increases.
fn read_body(reader: &Reader, parts: &[Part], first: &mut Option<Fault>) -> Result<Body, AllocError>
    ensures precondition { IfOk result (λ b. option_map_or (λ v. v.items) b.precondition []
        ≡ conditions reader.now (keywords.value_of Keyword.Precondition (map keywords.part_of parts.now))) }
    ensures effects { IfOk result (λ b. option_map_or (λ e. e.effects.items) b.effect []
        ≡ effects reader.now (keywords.value_of Keyword.Effect (map keywords.part_of parts.now))) }
    ensures increases { IfOk result (λ b. option_map_or (λ e. e.increases.items) b.effect []
        ≡ increases reader.now (keywords.value_of Keyword.Effect (map keywords.part_of parts.now))) }
    ensures faults { OnOk result (first.new
        ≡ first_of first.old (bodies_faults reader.now (map keywords.part_of parts.now) ++ spec.limit_faults (map keywords.part_of parts.now))) }
{
    let mut body = Body::new(reader.alloc);
    for part in parts {
        body.read_part(reader, *part, first)?;
    }
    body.blame_limits(first);
    Ok(body)
}

// ---- the schema

/// Reads the parts of an action whose parameters are named `variables` and have the types `parameters` into its schema,
/// and records the faults of its preconditions and effects.
fn read_schema_in<'a>(
    alloc: Global,
    declarations: &'a Declarations,
    variables: &'a Names,
    parameters: Vec<usize>,
    parts: &[Part],
    first: &mut Option<Fault>,
) -> Result<ActionSchema, AllocError>
    ensures meaning { IfOk result (λ s. s ≡ spec.schema_in parameters.items (spec.scope_of declarations.now variables.now) (map keywords.part_of parts.now)) }
    ensures faults { OnOk result (first.new ≡ first_of first.old
        (bodies_faults (spec.scope_of declarations.now variables.now) (map keywords.part_of parts.now) ++ spec.limit_faults (map keywords.part_of parts.now))) }
{
    let scope = declarations.scope(variables);
    let reader = Reader {
        alloc,
        scope: &scope,
    };
    let body = read_body(&reader, parts, first)?;
    Ok(body.schema(alloc, parameters))
}

/// Reads the parts of an action into its schema, and records their faults. The lists of parameters are read first,
/// wherever they are, because the other parts use the parameters.
#[tactic(auto, using(crate::proofs::Schemas::schema_read, crate::proofs::Orders::in_any_order))]
fn read_parts(
    alloc: Global,
    declarations: &Declarations,
    parts: &[Part],
    first: &mut Option<Fault>,
) -> Result<ActionSchema, AllocError>
    ensures meaning { (f : Forms) → map keywords.part_of parts.now ≡ keywords.parts None f → IfOk result (λ s. s ≡ spec.schema_behind declarations.now f) }
    ensures faults { OnOk result (first.new ≡ first_of first.old
        (spec.parts_faults declarations.now (parameter_names (spec.parameters_of (map keywords.part_of parts.now))) (map keywords.part_of parts.now))) }
{
    let Parameters { names, types } = read_parameters(alloc, &declarations.types, parts, first)?;
    read_schema_in(alloc, declarations, &names, types, parts, first)
}

/// Reads the items after the name of the action at `home` into its schema, and records their faults.
#[tactic(auto, using(pddl_syntax::proofs::Trees::noting), unfolding(pddl_syntax::specs::Faults::first_of))]
pub fn read_schema(
    alloc: Global,
    declarations: &Declarations,
    home: usize,
    items: &[Tree],
    first: &mut Option<Fault>,
) -> Result<ActionSchema, AllocError>
    ensures meaning { IfOk result (λ s. s ≡ spec.schema_behind declarations.now (views items.now)) }
    ensures faults { OnOk result (first.new ≡ first_of first.old (spec.behind_name_faults declarations.now home (views items.now))) }
{
    let parts = parts(alloc, home, items, first)?;
    read_parts(alloc, declarations, &parts, first)
}
