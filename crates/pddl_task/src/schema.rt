//! Action schemas with their lifted atoms, conditions, effects and increases, and the ground atoms, literals and
//! amounts that these denote.
ghost use Rattle.std.specs.Prelude.{◌≡◌, IfOk};
ghost use Rattle.std.specs.List.{filter_map, list_all};
ghost use Rattle.pddl_task.specs.Planning.{object_of, ground_atom, literal_of, equality_holds, atoms_of, is_small_increase, has_small_increases};

use crate::atom::{GroundAtom, GroundLiteral};
use std::alloc::{AllocError, Global};
use std::marker::Model;

/// A term in an atom of a schema: the index of a parameter of the schema, or the number of an object.
#[derive(Debug, Clone, Copy, PartialEq, Eq)]
pub enum Term {
    /// The index of a parameter of the schema.
    Parameter(usize),
    /// The number of an object.
    Object(usize),
}

impl Term {
    /// Returns the object that the term denotes, with `objects` for the parameters. A parameter whose index is past the
    /// end of `objects` denotes object 0.
    pub fn object(self, objects: &[usize]) -> usize
        ensures { result ≡ object_of objects.now self }
    {
        match self {
            Term::Parameter(place) => objects.get(place).copied().unwrap_or(0),
            Term::Object(object) => object,
        }
    }
}

/// A lifted atom: a predicate or a function by its number, and its terms.
#[derive(Debug, Drop)]
pub struct LiftedAtom {
    /// The number of the predicate or of the function.
    pub predicate: usize,
    pub terms: Vec<Term>,
}

impl Model for LiftedAtom {
    ghost use Rattle.pddl_task.specs.Lifted.{Lifted};

    ghost Value = { Lifted };

    ghost view = { λ a. record { predicate = a.predicate; terms = a.terms.items } };
}

impl LiftedAtom {
    /// Returns the ground atom with `objects` for the parameters.
    pub fn instance(&self, alloc: Global, objects: &[usize]) -> Result<GroundAtom, AllocError>
        ensures { IfOk result (λ p. p ≡ ground_atom objects.now self.now) }
    {
        let objects = self
            .terms
            .iter()
            .map(|term| term.object(objects))
            .collect(alloc)?;
        Ok(GroundAtom::new(self.predicate, objects))
    }
}

/// One condition of a precondition: an atom, a negated atom, or that two terms are or are not the same object.
#[derive(Debug, Drop)]
pub enum Condition {
    /// The atom is true.
    Positive(LiftedAtom),
    /// The atom is false.
    Negative(LiftedAtom),
    /// Both terms denote the same object.
    Equal(Term, Term),
    /// The terms denote different objects.
    Different(Term, Term),
}

impl Condition {
    /// Returns the ground literal of the condition, with `objects` for the parameters, or `None` for an equality
    /// condition (`Equal` or `Different`).
    pub fn literal(
        &self,
        alloc: Global,
        objects: &[usize],
    ) -> Result<Option<GroundLiteral>, AllocError>
        ensures { IfOk result (λ l. l ≡ literal_of objects.now self.now) }
    {
        let (atom, positive) = match self {
            Condition::Positive(atom) => (atom, true),
            Condition::Negative(atom) => (atom, false),
            Condition::Equal(_, _) | Condition::Different(_, _) => return Ok(None),
        };
        Ok(Some(GroundLiteral {
            atom: atom.instance(alloc, objects)?,
            positive,
        }))
    }

    /// Returns whether an equality condition holds with `objects` for the parameters. Returns `true` for a condition on
    /// an atom.
    pub fn equality_holds(&self, objects: &[usize]) -> bool
        ensures { result ≡ equality_holds objects.now self.now }
    {
        match self {
            Condition::Positive(_) | Condition::Negative(_) => true,
            Condition::Equal(left, right) => left.object(objects) == right.object(objects),
            Condition::Different(left, right) => left.object(objects) != right.object(objects),
        }
    }
}

/// One effect of a schema: an atom becomes true or false.
#[derive(Debug, Drop)]
pub struct LiftedEffect {
    pub atom: LiftedAtom,
    /// Whether the atom becomes true rather than false.
    pub positive: bool,
}

impl Model for LiftedEffect {
    ghost use Rattle.pddl_task.specs.Planning.{Effect};

    ghost Value = { Effect };

    ghost view = { λ e. record { atom = e.atom; positive = e.positive } };
}

/// The amount by which an action increases the total cost: a number, or the initial value of a function.
#[derive(Debug, Drop)]
pub enum Increase {
    /// A number.
    Amount(u64),
    /// The initial value of the function at the objects that the terms denote.
    Value(LiftedAtom),
}

/// Each amount and each initial value of a task with small costs is below this bound.
pub(crate) const SMALL: u64 = 1 << 32;

/// Each schema of a task with small costs has fewer increases than this bound.
const MANY: usize = 1 << 31;

impl Increase {
    /// Returns whether the increase is a number below 2^32, or the value of a function.
    fn is_small(&self) -> bool
        ensures { result ≡ is_small_increase self.now }
    {
        match self {
            Increase::Amount(amount) => *amount < SMALL,
            Increase::Value(_) => true,
        }
    }
}

/// An action schema: the types of its parameters, and its conditions, effects and increases in the order of the text.
#[derive(Debug, Drop)]
pub struct ActionSchema {
    /// The type of each parameter.
    pub parameters: Vec<usize>,
    pub precondition: Vec<Condition>,
    pub effect: Vec<LiftedEffect>,
    /// The increases of the total cost. Under the metric, the action's cost is their sum.
    pub increases: Vec<Increase>,
}

impl Model for ActionSchema {
    ghost use Rattle.pddl_task.specs.Planning.{Schema};

    ghost Value = { Schema };

    ghost view = { λ s. record {
      parameters = s.parameters.items;
      precondition = s.precondition.items;
      effect = s.effect.items;
      increases = s.increases.items;
    } };
}

impl ActionSchema {
    /// Returns whether there are fewer than 2^31 increases, and each is small.
    fn has_small_increases(&self) -> bool
        ensures { result ≡ has_small_increases self.now }
    {
        self.increases.len() < MANY && are_small(&self.increases)
    }

    /// Returns whether each equality condition of the precondition holds with `objects` for the parameters.
    pub(crate) fn equalities_hold(&self, objects: &[usize]) -> bool
        ensures { result ≡ list_all (equality_holds objects.now) self.now.precondition }
    {
        self.precondition
            .iter()
            .all(|condition| condition.equality_holds(objects))
    }
}

/// Returns whether each increase is small.
fn are_small(increases: &[Increase]) -> bool
    ensures { result ≡ list_all is_small_increase increases.now }
{
    increases.iter().all(|increase| increase.is_small())
}

/// Returns whether each schema has small increases.
pub(crate) fn have_small_increases(schemas: &[ActionSchema]) -> bool
    ensures { result ≡ list_all has_small_increases schemas.now }
{
    schemas.iter().all(|schema| schema.has_small_increases())
}

/// Returns the ground literals of the conditions in their order, with `objects` for the parameters. An equality
/// condition has no literal.
pub(crate) fn literals_of(
    alloc: Global,
    objects: &[usize],
    conditions: &[Condition],
) -> Result<Vec<GroundLiteral>, AllocError>
    ensures { IfOk result (λ literals. literals.items ≡ filter_map (literal_of objects.now) conditions.now) }
{
    let mut literals = Vec::new(alloc);
    for condition in conditions {
        if let Some(literal) = condition.literal(alloc, objects)? {
            literals.push(literal)?;
        }
    }
    Ok(literals)
}

/// Returns the ground atoms of the effects with the given sign in their order, with `objects` for the parameters.
pub(crate) fn atoms_of(
    alloc: Global,
    objects: &[usize],
    positive: bool,
    effects: &[LiftedEffect],
) -> Result<Vec<GroundAtom>, AllocError>
    ensures { IfOk result (λ atoms. atoms.items ≡ atoms_of objects.now positive effects.now) }
{
    let mut atoms = Vec::new(alloc);
    for effect in effects {
        if effect.positive == positive {
            atoms.push(effect.atom.instance(alloc, objects)?)?;
        }
    }
    Ok(atoms)
}
