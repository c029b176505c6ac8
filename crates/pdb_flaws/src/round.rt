//! One round of refinement.

ghost use Rattle.std.specs.Prelude.{◌≡◌};

use crate::costs::set_costs;
use crate::flaws::{Bounds, Plan};
use crate::limits::Limits;
use crate::scratch::Scratch;
use abstraction_groups::{FactoredAbstraction, Groups, Listed, OperatorIndex};
use abstraction_mapping::{Mapping, TableAbstraction};
use fdr::FdrTask;
use rand_xoshiro::SplitMix64;
use std::alloc::{AllocError, Global};

/// A task, and the facts of its goal that count: those at whose index `considered` has `true`.
#[derive(Clone, Copy)]
pub struct Search<'a> {
    pub task: &'a FdrTask,
    /// The index of the task's operators.
    pub index: &'a OperatorIndex<'a>,
    pub considered: &'a [bool],
    pub limits: &'a Limits,
}

/// The result of a round.
#[derive(Drop)]
pub struct Round {
    pub outcome: Outcome,
    /// The number of steps that the round took.
    pub work: u64,
    /// The number of transitions of the abstraction. If it is refused, they are not all counted.
    pub transitions: u64,
}

/// What a round finds.
#[derive(Clone, Copy, Debug, PartialEq, Eq)]
pub enum Outcome {
    /// The abstraction has too many transitions, or operators in groups.
    Refused,
    /// The abstraction takes more steps than are left.
    Spent,
    /// The abstract initial state cannot reach an abstract goal.
    Unsolvable,
    /// An abstract plan is a plan of the task, all facts of the goal included. So it is a cheapest one.
    Plan,
    /// An abstract plan fails in the task. Its flaws are those of the scratch memory. If there are none, refinement
    /// ends.
    Flaws,
}

/// The steps that an abstraction takes.
fn work_of(states: usize, transitions: u64, operators: u64) -> u64 {
    operators
        .saturating_mul(20)
        .saturating_add(states as u64)
        .saturating_add(transitions)
}

/// Computes distances in an abstraction whose groups are made, and follows an abstract plan. `scratch` has the costs of
/// the groups.
fn outcome_by<A: FactoredAbstraction>(
    alloc: Global,
    search: &Search<'_>,
    groups: Groups<'_, A>,
    bounds: Bounds<'_>,
    words: &mut SplitMix64,
    scratch: &mut Scratch,
) -> Result<Outcome, AllocError>
    requires { A.task groups ≡ search.now.task.now }
{
    let task = search.task;
    task.recall(); // the initial state is a state
    let listed = Listed::new(alloc, groups)?;
    let abstraction = listed.groups().abstraction();
    let (goal, considered) = (task.goal(), search.considered);
    scratch
        .distances
        .compute(&listed, &scratch.costs, goal, considered)?;
    let start = abstraction.index(task.initial());
    if scratch.distances.value(start) == u64::MAX {
        return Ok(Outcome::Unsolvable);
    }
    let plan = Plan {
        task,
        groups: listed.groups(),
        costs: &scratch.costs,
        distances: &scratch.distances,
        bounds,
    };
    plan.outcome(
        start,
        considered,
        &mut scratch.state,
        &mut scratch.flaws,
        words,
    )
}

/// The steps that an abstraction takes if each operator with an effect on its variables is in a group.
fn most_work<A: FactoredAbstraction>(search: &Search<'_>, abstraction: &A, transitions: u64) -> u64
    requires { search.now.index.now ≡ search.now.task.now }
{
    let mut operators: u64 = 0;
    for variable in abstraction.variables() {
        if *variable < search.task.variable_count() {
            let affecting = search.index.operators_of(*variable);
            operators = operators.saturating_add(affecting.len() as u64);
        }
    }
    work_of(abstraction.size(), transitions, operators)
}

/// Makes a round in an abstraction.
fn explore_in<A: FactoredAbstraction>(
    alloc: Global,
    search: &Search<'_>,
    abstraction: &A,
    bounds: Bounds<'_>,
    work: u64,
    words: &mut SplitMix64,
    scratch: &mut Scratch,
) -> Result<Round, AllocError>
    requires index { search.now.index.now ≡ search.now.task.now }
    requires task { A.task abstraction.now ≡ search.now.task.now }
{
    let most = search.limits.transitions;
    let Some(groups) = Groups::within(alloc, abstraction, search.index, most)? else {
        return Ok(Round {
            outcome: Outcome::Refused,
            work: most_work(search, abstraction, most),
            transitions: most,
        });
    };
    let operators = set_costs(search.task, &groups, &mut scratch.costs)?;
    let transitions = groups.transition_count();
    let taken = work_of(abstraction.size(), transitions, operators);
    let outcome = if taken > work {
        Outcome::Spent
    } else {
        outcome_by(alloc, search, groups, bounds, words, scratch)?
    };
    Ok(Round {
        outcome,
        work: taken,
        transitions,
    })
}

/// Makes a round in the abstraction by a mapping: makes its groups and transitions, computes distances, and follows an
/// abstract plan. `work` steps are left to the run. Nothing is proved of the result, which guides refinement. `scratch`
/// is memory of earlier rounds.
pub fn explore(
    alloc: Global,
    search: &Search<'_>,
    mapping: &Mapping,
    bounds: Bounds<'_>,
    work: u64,
    words: &mut SplitMix64,
    scratch: &mut Scratch,
) -> Result<Round, AllocError>
    requires { search.now.index.now ≡ search.now.task.now }
{
    match TableAbstraction::new(alloc, search.task, mapping)? {
        Some(TableAbstraction::Projection(projection)) => {
            explore_in(alloc, search, &projection, bounds, work, words, scratch)
        }
        Some(TableAbstraction::Domain(domain)) => {
            explore_in(alloc, search, &domain, bounds, work, words, scratch)
        }
        None => Ok(Round {
            outcome: Outcome::Refused,
            work: 1,
            transitions: 0,
        }),
    }
}

/// The size of an abstraction, as far as it is within the limits.
#[derive(Clone, Copy, Debug)]
pub struct Extent {
    /// The number of steps that counting took.
    pub work: u64,
    /// The number of transitions, and `None` if it is past the limits.
    pub transitions: Option<u64>,
}

/// Counts the transitions of an abstraction.
fn extent_in<A: FactoredAbstraction>(
    alloc: Global,
    search: &Search<'_>,
    abstraction: &A,
) -> Result<Extent, AllocError>
    requires index { search.now.index.now ≡ search.now.task.now }
    requires task { A.task abstraction.now ≡ search.now.task.now }
{
    let most = search.limits.transitions;
    let transitions = match Groups::within(alloc, abstraction, search.index, most)? {
        Some(groups) => Some(groups.transition_count()),
        None => None,
    };
    Ok(Extent {
        work: most_work(search, abstraction, transitions.unwrap_or(most)),
        transitions,
    })
}

/// Counts the transitions of the abstraction by a mapping.
pub fn extent_by(
    alloc: Global,
    search: &Search<'_>,
    mapping: &Mapping,
) -> Result<Extent, AllocError>
    requires { search.now.index.now ≡ search.now.task.now }
{
    match TableAbstraction::new(alloc, search.task, mapping)? {
        Some(TableAbstraction::Projection(projection)) => extent_in(alloc, search, &projection),
        Some(TableAbstraction::Domain(domain)) => extent_in(alloc, search, &domain),
        None => Ok(Extent {
            work: 1,
            transitions: None,
        }),
    }
}
