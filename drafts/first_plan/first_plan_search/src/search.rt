//! Searches with few expansions.

ghost use Rattle.std.specs.Prelude.{◌≡◌, ◌≤◌, IfOk};
ghost use Rattle.fdr.specs.Tasks.{ranges, IsState};

use crate::entry::Entry;
use crate::expander::Expander;
use crate::node::Node;
use crate::open::Open;
use crate::problem::Problem;
use crate::tree::Tree;
use packed::StateForm;
use std::alloc::{AllocError, Global};
use std::marker::Model;

/// The order in which a search expands states, and which it reaches again.
#[derive(Clone, Copy, Debug)]
pub struct Rule {
    /// The weight of the cost in an entry's key.
    pub cost_weight: u64,
    /// The weight of the heuristic value. If it is 0, no heuristic value is computed.
    pub h_weight: u64,
    /// Whether reached states are reached again if that costs less than before.
    pub reopens: bool,
}

/// How a run of a search ended.
#[derive(Clone, Copy, Debug, PartialEq, Eq)]
pub enum Ending {
    /// The target was reached at less than the bound, by the state at this index.
    Found(usize),
    /// No state is left to be expanded.
    Empty,
    /// All expansions were made.
    Spent,
}

/// How a run ended, and how many states it expanded.
#[derive(Clone, Copy, Debug)]
pub struct Outcome {
    pub expansions: usize,
    pub ending: Ending,
}

/// A search from a state. In contracts its value is the task.
#[derive(Drop)]
pub struct Search<'a, F: StateForm + Drop> {
    tree: Tree<'a, F>,
    open: Open,
    rule: Rule,
}

impl<'a, F: StateForm + Drop> Model for Search<'a, F> {
    ghost use Rattle.fdr.specs.Tasks.{FiniteDomainTask};

    ghost Value = { FiniteDomainTask };

    ghost view = { λ s. s.tree };
}

impl<'a, F: StateForm + Drop> Search<'a, F> {
    /// Returns a search from the state `start` to the target, or to the goal if that is `None`. `open` must be empty.
    pub fn start(
        alloc: Global,
        problem: &'a Problem<'a>,
        open: Open,
        rule: Rule,
        start: &[u32],
        target: Option<F>,
        bound: u64,
    ) -> Result<Search<'a, F>, AllocError>
        requires fits { F.Fits (ranges problem.now) }
        requires start { IsState (ranges problem.now) start.now }
        ensures { IfOk result (λ s. s ≡ problem.now) }
    {
        let is_informed = rule.h_weight > 0;
        let tree = Tree::new(
            alloc,
            problem,
            start,
            target,
            is_informed,
            rule.reopens,
            bound,
        )?;
        let mut search = Search { tree, open, rule };
        search.push(0)?;
        Ok(search)
    }

    /// Sets what a path to the target must cost less than.
    pub fn set_bound(&mut self, bound: u64)
        ensures { self.new ≡ self.old }
    {
        self.tree.bound = bound;
    }

    /// Returns whether a state was left out of a layer of a beam.
    pub fn has_cut(&self) -> bool {
        self.open.has_cut()
    }

    /// Returns the operators on the path to the state at the index.
    pub fn path(&self, alloc: Global, index: usize) -> Result<Vec<usize>, AllocError> {
        self.tree.known().path(alloc, index)
    }

    /// Adds the state at the index to the open list.
    fn push(&mut self, index: usize) -> Result<(), AllocError>
        ensures { self.new ≡ self.old }
    {
        let Some(node) = self.tree.known().node(index) else {
            return Ok(());
        };
        let cost = node.cost.saturating_mul(self.rule.cost_weight);
        let key = cost.saturating_add(node.h.saturating_mul(self.rule.h_weight));
        self.open.push(key, node.cost, index)
    }

    /// Adds the states that the last expansion reached to the open list.
    fn push_reached(&mut self) -> Result<(), AllocError>
        ensures { self.new ≡ self.old }
    {
        for position in 0..self.tree.reached.len() {
            if let Some(index) = self.tree.reached.get(position).copied() {
                self.push(index)?;
            }
        }
        Ok(())
    }

    /// Returns whether the state of an entry is still to be expanded.
    fn is_open(&self, entry: Entry) -> bool {
        match self.tree.known().node(entry.index) {
            Some(node) => {
                !node.expanded
                    && node.cost == entry.cost
                    && node.cost.saturating_add(node.h) < self.tree.bound
            }
            None => false,
        }
    }

    /// Removes and returns the next state that is still to be expanded.
    fn next(&mut self) -> Option<usize>
        ensures { self.new ≡ self.old }
    {
        for _ in 0..self.open.len() {
            let entry = self.open.pop()?;
            if self.is_open(entry) {
                return Some(entry.index);
            }
        }
        None
    }

    /// Expands at most `limit` states, until the target is reached at less than the bound, which its cost then replaces.
    /// The run may be continued.
    pub fn run(&mut self, expander: &mut Expander<'_>, limit: usize) -> Result<Outcome, AllocError>
        requires { expander.old ≡ self.old }
        ensures same { self.new ≡ self.old }
        ensures expander { expander.new ≡ expander.old }
        ensures expansions { IfOk result (λ o. o.expansions ≤ limit) }
    {
        for done in 0..limit {
            let Some(index) = self.next() else {
                return Ok(Outcome {
                    expansions: done,
                    ending: Ending::Empty,
                });
            };
            self.tree.expand(expander, index)?;
            self.push_reached()?;
            if let Some(target) = self.tree.found.take() {
                return Ok(Outcome {
                    expansions: done + 1,
                    ending: Ending::Found(target),
                });
            }
        }
        Ok(Outcome {
            expansions: limit,
            ending: Ending::Spent,
        })
    }
}
