//! Distances to goals in an abstraction (Dijkstra 1959). Nothing is promised of them but safety: they guide
//! refinement.

use crate::numbers::{NONE, at, put, short};
use crate::queue::RadixQueue;
use crate::view::{Condition, condition_of};
use abstraction::Abstraction;
use abstraction_groups::{FactoredAbstraction, Listed};
use fdr::Fact;
use std::alloc::{AllocError, Global};

/// The distance of each abstract state, and the group by which it was last lowered. The memory is reused from one
/// abstraction to the next.
#[derive(Drop)]
pub(crate) struct Distances {
    /// The distances, and the greatest number if no goal can be reached.
    values: Vec<u64>,
    /// The groups, and `NONE` for goals and if no goal can be reached.
    groups: Vec<u32>,
    queue: RadixQueue,
    /// The conditions that the considered facts of the goal are on abstract states.
    conditions: Vec<Condition>,
}

impl Distances {
    /// Sets the distance and the group of a state, if the distance is less.
    fn lower(&mut self, state: u32, value: u64, group: u32) -> Result<(), AllocError> {
        let position = state as usize;
        if position < self.values.len() && value < self.values[position] {
            self.values[position] = value;
            put(&mut self.groups, position, group);
            self.queue.push(value, state)?;
        }
        Ok(())
    }

    /// Lowers the distances of the sources of the transitions into a state.
    fn expand<A: FactoredAbstraction>(
        &mut self,
        listed: &Listed<'_, A>,
        costs: &[u32],
        state: u32,
        value: u64,
    ) -> Result<(), AllocError> {
        let target = state as usize;
        if target >= listed.size() {
            return Ok(());
        }
        for transition in listed.entering_list(target) {
            let cost = at(costs, transition.class as usize);
            let longer = value.saturating_add(u64::from(cost));
            self.lower(transition.source, longer, transition.class)?;
        }
        Ok(())
    }

    /// Replaces the conditions by those of the considered facts of the goal.
    fn set_conditions<A: FactoredAbstraction>(
        &mut self,
        abstraction: &A,
        goal: &[Fact],
        considered: &[bool],
    ) -> Result<(), AllocError> {
        self.conditions.clear();
        for (fact, is_considered) in goal.iter().zip(considered) {
            if !*is_considered {
                continue;
            }
            if let Some(condition) = condition_of(abstraction, fact) {
                self.conditions.push(condition)?;
            }
        }
        Ok(())
    }

    /// Removes all distances, and starts with those of an abstraction of this size, which are not known.
    fn reset(&mut self, size: usize) -> Result<(), AllocError> {
        self.queue.clear();
        self.values.clear();
        self.values.resize(size, u64::MAX)?;
        self.groups.clear();
        self.groups.resize(size, NONE)?;
        Ok(())
    }

    /// Lowers the distances of the abstract states that meet the conditions to 0.
    fn add_goals(&mut self) -> Result<(), AllocError> {
        for state in 0..self.values.len() {
            let is_goal = self
                .conditions
                .iter()
                .all(|condition| condition.is_met(state));
            if is_goal {
                self.lower(short(state), 0, NONE)?;
            }
        }
        Ok(())
    }

    /// Allocates memory for abstractions with at most `states` abstract states. It grows if there are more.
    pub(crate) fn new(alloc: Global, states: usize) -> Result<Distances, AllocError> {
        Ok(Distances {
            values: Vec::with_capacity(alloc, states)?,
            groups: Vec::with_capacity(alloc, states)?,
            queue: RadixQueue::new(alloc, states)?,
            conditions: Vec::new(alloc),
        })
    }

    /// Computes the distances in an abstraction to the abstract states that agree with the considered facts of the goal.
    /// On failure they are not specified.
    pub(crate) fn compute<A: FactoredAbstraction>(
        &mut self,
        listed: &Listed<'_, A>,
        costs: &[u32],
        goal: &[Fact],
        considered: &[bool],
    ) -> Result<(), AllocError> {
        let abstraction = listed.groups().abstraction();
        self.reset(abstraction.size())?;
        self.set_conditions(abstraction, goal, considered)?;
        self.add_goals()?;
        for _ in 0..u64::MAX {
            let Some(least) = self.queue.pop() else {
                break;
            };
            if self.value(least.state as usize) == least.key {
                self.expand(listed, costs, least.state, least.key)?;
            }
        }
        Ok(())
    }

    /// Returns the distance of a state, or the greatest number if no goal can be reached.
    pub(crate) fn value(&self, state: usize) -> u64 {
        match self.values.get(state) {
            Some(value) => *value,
            None => u64::MAX,
        }
    }

    /// Returns the group by which the distance of a state was last lowered, if there is one.
    pub(crate) fn group(&self, state: usize) -> Option<usize> {
        match self.groups.get(state) {
            Some(group) if *group != NONE => Some(*group as usize),
            _ => None,
        }
    }
}
