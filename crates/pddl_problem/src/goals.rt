//! The section of the goal.

ghost use Rattle.std.specs.Prelude.{◌≡◌, [], map, IfOk, OnOk};
ghost use Rattle.sexp.specs.Forms.{views, alone};
ghost use Rattle.pddl_syntax.specs.Faults.{first_of};
ghost use Rattle.pddl_task.specs.Atoms.{wants, excludes};
ghost use Rattle.pddl_problem.specs.Goals as spec;

use pddl_effect::{Conditions, read_condition_in};
use pddl_syntax::{Fault, FaultKind, blame, blame_if, blame_more};
use pddl_task::{Condition, GroundAtom, GroundLiteral};
use pddl_terms::{Reader, Scope, Setting};
use sexp::Tree;
use std::alloc::{AllocError, Global};
use std::collections::HashSet;
use std::marker::Model;

/// A literal, and the byte offset of its list.
#[derive(Drop)]
struct PlacedLiteral {
    at: usize,
    literal: GroundLiteral,
}

impl Model for PlacedLiteral {
    ghost use Rattle.pddl_problem.specs.Goals.{Placed};

    ghost Value = { Placed };

    ghost view = { λ l. record { at = l.at; literal = l.literal } };
}

/// Returns the literals of conditions, each with the byte offset of its condition.
#[tactic(auto, using(crate::proofs::Steps::appending, crate::proofs::Steps::no_conditions))]
fn placed(
    alloc: Global,
    places: &[usize],
    conditions: &[Condition],
) -> Result<Vec<PlacedLiteral>, AllocError>
    ensures { IfOk result (λ v. v.items ≡ spec.placed places.now conditions.now) }
{
    let mut literals = Vec::new(alloc);
    for (place, condition) in places.iter().zip(conditions) {
        if let Some(literal) = condition.literal(alloc, &[])? {
            literals.push(PlacedLiteral {
                at: *place,
                literal,
            })?;
        }
    }
    Ok(literals)
}

/// Reads a tree as a goal, and records its faults in `first`.
#[tactic(auto, using(crate::proofs::Steps::appending), unfolding(pddl_syntax::specs::Faults::first_of))]
fn read_goal(
    reader: &Reader,
    tree: &Tree,
    first: &mut Option<Fault>,
) -> Result<Vec<PlacedLiteral>, AllocError>
    ensures meaning { IfOk result (λ v. v.items ≡ spec.goals reader.now (alone tree.now)) }
    ensures faults { OnOk result (first.new ≡ first_of first.old (spec.goals_faults reader.now (alone tree.now))) }
{
    let mut goals = Conditions::new(reader.alloc);
    read_condition_in(Setting::InGoal, reader, tree, &mut goals, first)?;
    placed(reader.alloc, &goals.places, &goals.conditions)
}

/// The atoms of literals: those of the positive ones, and those of the negative ones.
#[derive(Drop)]
pub struct KnownGoals {
    pub wanted: HashSet<GroundAtom>,
    pub excluded: HashSet<GroundAtom>,
}

impl KnownGoals {
    fn new(alloc: Global) -> KnownGoals
        ensures wanted { spec.wanted_in result ≡ wants [] }
        ensures excluded { spec.excluded_in result ≡ excludes [] }
    {
        KnownGoals {
            wanted: HashSet::new(alloc),
            excluded: HashSet::new(alloc),
        }
    }

    fn has_opposite(&self, literal: &GroundLiteral) -> bool
        ensures { result ≡ spec.has_opposite_in self.now literal.now }
    {
        if literal.positive {
            self.excluded.contains(&literal.atom)
        } else {
            self.wanted.contains(&literal.atom)
        }
    }

    fn add(&mut self, alloc: Global, literal: &GroundLiteral) -> Result<(), AllocError>
        ensures wanted { OnOk result (spec.wanted_in self.new ≡ spec.also_wanted (spec.wanted_in self.old) literal.now) }
        ensures excluded { OnOk result (spec.excluded_in self.new ≡ spec.also_excluded (spec.excluded_in self.old) literal.now) }
    {
        let atom = literal.atom.try_clone(alloc)?;
        if literal.positive {
            self.wanted.insert(atom)?;
        } else {
            self.excluded.insert(atom)?;
        }
        Ok(())
    }
}

/// Records F19 for each literal that follows its negation.
#[tactic(auto, unfolding(pddl_syntax::specs::Faults::first_of))]
fn blame_opposites(
    alloc: Global,
    literals: &[PlacedLiteral],
    first: &mut Option<Fault>,
) -> Result<(), AllocError>
    ensures { OnOk result (first.new ≡ first_of first.old (spec.opposite_faults [] literals.now)) }
{
    let mut known = KnownGoals::new(alloc);
    for placed in literals {
        blame_if(
            known.has_opposite(&placed.literal),
            first,
            placed.at,
            FaultKind::GoalBothWays,
        );
        known.add(alloc, &placed.literal)?;
    }
    Ok(())
}

fn without_places(
    alloc: Global,
    placed: Vec<PlacedLiteral>,
) -> Result<Vec<GroundLiteral>, AllocError>
    ensures { IfOk result (λ v. v.items ≡ map (λ l. l.literal) placed.items) }
{
    placed
        .into_iter()
        .map(|placed| placed.literal)
        .collect(alloc)
}

/// Reads the section `:goal` in the list at byte offset `home`, whose items without its head are `items`: one goal of
/// atoms, negated atoms and conjunctions (McDermott and others 1998). Faults are recorded in `first`, and an expression
/// that cannot be read adds no literal.
///
/// F10 for a missing goal, for a second one and for one of another form; F11 for a construct of PDDL that is not
/// supported, such as an equality; F12 for a name that is not declared; F13 for a predicate with another number of
/// objects; F19 for a literal that follows its negation.
#[tactic(auto, using(sexp::proofs::Walking::walking, pddl_syntax::proofs::Trees::noting, crate::proofs::Steps::goal_steps), unfolding(pddl_syntax::specs::Faults::first_of))]
pub fn goal_section(
    alloc: Global,
    scope: &Scope,
    items: &[Tree],
    home: usize,
    first: &mut Option<Fault>,
) -> Result<Vec<GroundLiteral>, AllocError>
    ensures literals { IfOk result (λ v. v.items ≡ map (λ l. l.literal) (spec.goal_literals scope.now (views items.now))) }
    ensures faults { OnOk result (first.new ≡ first_of first.old (spec.goal_faults scope.now home (views items.now))) }
{
    match items {
        [] => {
            blame(first, home, FaultKind::Shape);
            Ok(Vec::new(alloc))
        }
        [goal, more @ ..] => {
            let reader = Reader { alloc, scope };
            let literals = read_goal(&reader, goal, first)?;
            blame_opposites(alloc, &literals, first)?;
            blame_more(more, first);
            without_places(alloc, literals)
        }
    }
}
