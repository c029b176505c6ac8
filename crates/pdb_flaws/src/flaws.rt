//! Flaws: reasons why a plan in an abstraction fails in the task.

use crate::distances::Distances;
use crate::kind::Kind;
use crate::numbers::{at, is_set, put};
use crate::random::number_below;
use crate::round::Outcome;
use crate::view::{class_count, class_of, place_of};
use abstraction_groups::{FactoredAbstraction, Groups};
use fdr::{Fact, FdrTask};
use rand_xoshiro::SplitMix64;
use std::alloc::AllocError;

/// A variable has another value than a condition asks for.
#[derive(Clone, Copy)]
pub struct Flaw {
    pub variable: usize,
    /// The value that the condition asks for.
    pub wanted: u32,
    /// The value that the variable has.
    pub present: u32,
}

/// What may be split.
#[derive(Clone, Copy)]
pub struct Bounds<'a> {
    pub kind: Kind,
    /// The variables that are not split.
    pub fixed: &'a [bool],
    /// The greatest number of abstract states.
    pub limit: usize,
    /// Whether only one flaw is wanted.
    pub is_single: bool,
}

/// An abstraction whose plan is followed.
#[derive(Drop)]
pub(crate) struct Plan<'a, A: FactoredAbstraction> {
    pub(crate) task: &'a FdrTask,
    pub(crate) groups: &'a Groups<'a, A>,
    /// The cost of each group.
    pub(crate) costs: &'a [u32],
    pub(crate) distances: &'a Distances,
    pub(crate) bounds: Bounds<'a>,
}

/// Sets the variables of the facts to the facts' values.
fn set_facts(facts: &[Fact], state: &mut [u32]) {
    for fact in facts {
        put(state, fact.variable, fact.value);
    }
}

/// Returns whether each fact holds in a state.
fn hold(facts: &[Fact], state: &[u32]) -> bool {
    facts
        .iter()
        .all(|fact| at(state, fact.variable) == fact.value)
}

impl<'a, A: FactoredAbstraction> Plan<'a, A> {
    /// Whether a split within the bounds can separate the values of a flaw.
    fn can_split(&self, flaw: &Flaw) -> bool {
        let limit = self.bounds.limit;
        let abstraction = self.groups.abstraction();
        let size = abstraction.size();
        if is_set(self.bounds.fixed, flaw.variable) {
            return false;
        }
        match (place_of(abstraction, flaw.variable), self.bounds.kind) {
            (None, Kind::Domain) => size.saturating_mul(2) <= limit,
            (None, Kind::Pattern) => match self.task.value_names().get(flaw.variable) {
                Some(names) => size.saturating_mul(names.len()) <= limit,
                None => false,
            },
            (Some(_), Kind::Pattern) => false,
            (Some(place), Kind::Domain) => {
                let wanted = class_of(abstraction, place, flaw.wanted);
                let present = class_of(abstraction, place, flaw.present);
                let count = class_count(abstraction, place);
                let larger = (size / count).saturating_mul(count.saturating_add(1));
                wanted == present && larger <= limit
            }
        }
    }

    /// The flaw of a fact in a state, if the fact does not hold and a split can repair that.
    fn flaw_at(&self, fact: &Fact, state: &[u32]) -> Option<Flaw> {
        let flaw = Flaw {
            variable: fact.variable,
            wanted: fact.value,
            present: at(state, fact.variable),
        };
        if flaw.wanted != flaw.present && self.can_split(&flaw) {
            Some(flaw)
        } else {
            None
        }
    }

    /// The precondition of an operator, and none if there is no such operator.
    fn precondition(&self, operator: u32) -> &'a [Fact] {
        match self.task.operators().get(operator as usize) {
            Some(operator) => &operator.precondition,
            None => &[],
        }
    }

    /// The effect of an operator, and none if there is no such operator.
    fn effect(&self, operator: u32) -> &'a [Fact] {
        match self.task.operators().get(operator as usize) {
            Some(operator) => &operator.effect,
            None => &[],
        }
    }

    /// The operators of a group, and none if there is no such group.
    fn operators_of(&self, group: usize) -> &'a [u32] {
        if group < self.groups.len() {
            self.groups.operators_of(group)
        } else {
            &[]
        }
    }

    /// Whether an operator has the least cost of a group.
    fn is_cheapest(&self, group: usize, operator: u32) -> bool {
        self.task.cost(operator as usize).get() == u64::from(at(self.costs, group))
    }

    /// The first cheapest operator of a group without a flaw in its precondition.
    fn flawless_operator(&self, group: usize, state: &[u32]) -> Option<u32> {
        for operator in self.operators_of(group) {
            if self.is_cheapest(group, *operator)
                && !self
                    .precondition(*operator)
                    .iter()
                    .any(|fact| self.flaw_at(fact, state).is_some())
            {
                return Some(*operator);
            }
        }
        None
    }

    /// A random one of the cheapest operators of a group, and operator 0 if there is none.
    fn cheapest_operator(&self, group: usize, words: &mut SplitMix64) -> u32 {
        let operators = self.operators_of(group);
        let count = operators
            .iter()
            .filter(|operator| self.is_cheapest(group, **operator))
            .count();
        let number = number_below(words, count);
        let chosen = operators
            .iter()
            .filter(|operator| self.is_cheapest(group, **operator))
            .nth(number);
        match chosen {
            Some(operator) => *operator,
            None => 0,
        }
    }

    /// A random one of the flaws of facts in a state, if there are some.
    fn flaw_in(&self, facts: &[Fact], state: &[u32], words: &mut SplitMix64) -> Option<Flaw> {
        let count = facts
            .iter()
            .filter(|fact| self.flaw_at(fact, state).is_some())
            .count();
        let number = number_below(words, count);
        facts
            .iter()
            .filter_map(|fact| self.flaw_at(fact, state))
            .nth(number)
    }

    /// Chooses a cheapest operator of a group. If each has a flaw in its precondition, it is a random one, a random
    /// flaw of it is appended, and the state is changed so that its precondition holds.
    fn choose_operator(
        &self,
        group: usize,
        state: &mut [u32],
        flaws: &mut Vec<Flaw>,
        words: &mut SplitMix64,
    ) -> Result<u32, AllocError> {
        if let Some(operator) = self.flawless_operator(group, state) {
            return Ok(operator);
        }
        let operator = self.cheapest_operator(group, words);
        if let Some(flaw) = self.flaw_in(self.precondition(operator), state, words) {
            flaws.push(flaw)?;
        }
        set_facts(self.precondition(operator), state);
        Ok(operator)
    }

    /// The abstract state that the operators of a group reach from another.
    fn target(&self, group: usize, abstract_state: usize) -> Option<usize> {
        if group < self.groups.len() && abstract_state < self.groups.abstraction().size() {
            self.groups.target(group, abstract_state)
        } else {
            None
        }
    }

    /// Follows the plan from the abstract initial state `start`, and appends the flaws of its operators. Changes
    /// `state`, which is the initial state, to the state in which the plan ends, or in which it is left if only one flaw
    /// is wanted. Returns whether the preconditions of all its operators held.
    fn follow(
        &self,
        start: usize,
        state: &mut [u32],
        flaws: &mut Vec<Flaw>,
        words: &mut SplitMix64,
    ) -> Result<bool, AllocError> {
        let mut is_applicable = true;
        let mut abstract_state = start;
        for _ in 0..self.groups.abstraction().size() {
            let Some(group) = self.distances.group(abstract_state) else {
                break; // a goal
            };
            let Some(target) = self.target(group, abstract_state) else {
                return Ok(false); // not met: the group has a transition from the state
            };
            let flawed = flaws.len();
            let operator = self.choose_operator(group, state, flaws, words)?;
            if self.bounds.is_single && !flaws.is_empty() {
                return Ok(false);
            }
            // choosing an operator with a flaw makes its precondition hold
            is_applicable &= flaws.len() == flawed && hold(self.precondition(operator), state);
            set_facts(self.effect(operator), state);
            abstract_state = target;
        }
        Ok(is_applicable)
    }

    /// Appends the flaws of the considered facts of the goal in a state, a random one first, to flaws of which there are
    /// none.
    fn add_goal_flaws(
        &self,
        considered: &[bool],
        state: &[u32],
        flaws: &mut Vec<Flaw>,
        words: &mut SplitMix64,
    ) -> Result<(), AllocError> {
        for (fact, is_considered) in self.task.goal().iter().zip(considered) {
            if !*is_considered {
                continue;
            }
            if let Some(flaw) = self.flaw_at(fact, state) {
                flaws.push(flaw)?;
            }
        }
        let first = number_below(words, flaws.len());
        if first < flaws.len() {
            flaws.swap(0, first);
        }
        Ok(())
    }

    /// Follows the plan from the abstract initial state `start`: whether it is a plan of the task. Otherwise the flaws
    /// are replaced by those of its operators, and if there are none, by those of the goal.
    pub(crate) fn outcome(
        &self,
        start: usize,
        considered: &[bool],
        state: &mut Vec<u32>,
        flaws: &mut Vec<Flaw>,
        words: &mut SplitMix64,
    ) -> Result<Outcome, AllocError> {
        flaws.clear();
        state.clear();
        state.extend_from_slice(self.task.initial())?;
        if self.follow(start, state, flaws, words)? && hold(self.task.goal(), state) {
            return Ok(Outcome::Plan);
        }
        if flaws.is_empty() {
            self.add_goal_flaws(considered, state, flaws, words)?;
        }
        Ok(Outcome::Flaws)
    }
}
