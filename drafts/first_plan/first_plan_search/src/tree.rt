//! What best-first searches and beams share: reached states, and what comes of reaching one.

ghost use Rattle.std.specs.Prelude.{◌≡◌, ◌<◌, length, IfOk};
ghost use Rattle.fdr.specs.Tasks.{ranges, IsState};

use crate::expander::Expander;
use crate::known::Known;
use crate::node::Node;
use crate::problem::Problem;
use packed::StateForm;
use std::alloc::{AllocError, Global};
use std::marker::Model;

/// A step of a search: the state that it expands, the operator, and the cost at which it reaches the successor.
#[derive(Clone, Copy)]
struct Step {
    parent: usize,
    operator: usize,
    cost: u64,
}

impl Step {
    /// Returns the node of the successor.
    fn node(self, h: u64) -> Node {
        Node {
            parent: self.parent,
            operator: self.operator,
            cost: self.cost,
            h,
            expanded: false,
        }
    }
}

/// The states that a search has reached, its target, and the best path to it. In contracts its value is the task.
#[derive(Drop)]
pub struct Tree<'a, F: StateForm + Drop> {
    alloc: Global,
    known: Known<'a, F>,
    /// The form of the target, or `None` if the states with the goal are the target.
    target: Option<F>,
    /// Whether heuristic values are used.
    is_informed: bool,
    /// Whether reached states are reached again at less.
    reopens: bool,
    /// What a path to the target must cost less than: states whose cost plus heuristic value is not below are dropped.
    pub bound: u64,
    /// The index of the target, if it was reached since this was taken last. The bound is its cost.
    pub found: Option<usize>,
    /// The states that the last expansion reached at less than before, without the target.
    pub reached: Vec<usize>,
}

impl<'a, F: StateForm + Drop> Model for Tree<'a, F> {
    ghost use Rattle.fdr.specs.Tasks.{FiniteDomainTask};

    ghost Value = { FiniteDomainTask };

    ghost view = { λ t. t.known };
}

impl<'a, F: StateForm + Drop> Tree<'a, F> {
    /// Returns a search that has reached the state `start`, at cost 0, and nothing else.
    pub fn new(
        alloc: Global,
        problem: &'a Problem<'a>,
        start: &[u32],
        target: Option<F>,
        is_informed: bool,
        reopens: bool,
        bound: u64,
    ) -> Result<Tree<'a, F>, AllocError>
        requires fits { F.Fits (ranges problem.now) }
        requires start { IsState (ranges problem.now) start.now }
        ensures { IfOk result (λ t. t ≡ problem.now) }
    {
        let form = F::pack(alloc, problem.layout(), start)?;
        let mut known = Known::new(alloc, problem);
        let h = if is_informed {
            problem.columns().h(start).get().unwrap_or(u64::MAX)
        } else {
            0
        };
        let first = Step {
            parent: 0,
            operator: 0,
            cost: 0,
        };
        known.add(form, first.node(h))?;
        Ok(Tree {
            alloc,
            known,
            target,
            is_informed,
            reopens,
            bound,
            found: None,
            reached: Vec::new(alloc),
        })
    }

    /// Returns the reached states.
    pub fn known(&self) -> &Known<'a, F>
        ensures { result.now ≡ self.now }
    {
        &self.known
    }

    /// Returns whether the state at the index is the target.
    fn is_target(&self, index: usize) -> bool {
        let Some(form) = self.known.form(index) else {
            return false;
        };
        match &self.target {
            Some(target) => form == target,
            None => form.is_goal(self.known.problem().masks()),
        }
    }

    /// Records that the state at the index was reached at less than before.
    fn arrive(&mut self, index: usize, cost: u64) -> Result<(), AllocError>
        ensures { self.new ≡ self.old }
    {
        if self.is_target(index) {
            self.bound = cost;
            self.found = Some(index);
        } else {
            self.reached.push(index)?;
        }
        Ok(())
    }

    /// Reaches a state again, if that costs less than before. The links of parents form no ring: the cost of a
    /// parent is at most that of a state that was reached from it.
    fn improve(&mut self, index: usize, step: Step) -> Result<(), AllocError>
        ensures { self.new ≡ self.old }
    {
        let Some(node) = self.known.node(index) else {
            return Ok(());
        };
        if step.cost >= node.cost || step.cost.saturating_add(node.h) >= self.bound {
            return Ok(());
        }
        self.known.set_node(index, step.node(node.h));
        self.arrive(index, step.cost)
    }

    /// Reaches a new state.
    fn add(&mut self, form: F, step: Step, h: u64) -> Result<(), AllocError>
        requires { F.IsForm (ranges self.old) form }
        ensures { self.new ≡ self.old }
    {
        if step.cost.saturating_add(h) >= self.bound {
            return Ok(());
        }
        let index = self.known.add(form, step.node(h))?;
        self.arrive(index, step.cost)
    }

    /// Reaches the successor by an operator of the state at the index. `position` is that of the operator among those
    /// that apply.
    fn follow(
        &mut self,
        expander: &mut Expander<'_>,
        position: usize,
        step: Step,
    ) -> Result<(), AllocError>
        requires task { expander.old ≡ self.old }
        requires operator { step.operator < length self.old.operators }
        ensures same { self.new ≡ self.old }
        ensures expander { expander.new ≡ expander.old }
    {
        let Some(form) = self.known.after(self.alloc, step.parent, step.operator)? else {
            return Ok(());
        };
        if let Some(index) = self.known.index_of(&form) {
            return if self.reopens {
                self.improve(index, step)
            } else {
                Ok(())
            };
        }
        let h = if self.is_informed {
            expander.h(position)
        } else {
            Some(0)
        };
        match h {
            Some(h) => self.add(form, step, h),
            None => Ok(()), // no goal can be reached from it
        }
    }

    /// Expands the state at the index.
    pub fn expand(&mut self, expander: &mut Expander<'_>, index: usize) -> Result<(), AllocError>
        requires { expander.old ≡ self.old }
        ensures same { self.new ≡ self.old }
        ensures expander { expander.new ≡ expander.old }
    {
        self.reached.clear();
        let Some(node) = self.known.node(index) else {
            return Ok(());
        };
        self.known.set_node(
            index,
            Node {
                expanded: true,
                ..node
            },
        );
        expander.enter(&self.known, index)?;
        let task = expander.problem().task();
        for position in 0..expander.len() {
            let Some(operator) = expander.operator(position) else {
                break;
            };
            let cost = node.cost.saturating_add(task.cost(operator).get());
            if cost < self.bound {
                let step = Step {
                    parent: index,
                    operator,
                    cost,
                };
                self.follow(expander, position, step)?;
            }
        }
        Ok(())
    }
}
