//! The best plan so far, and the expansions that are left.

ghost use Rattle.std.specs.Prelude.{◌≡◌, ◌≤◌, IfOk};
ghost use Rattle.fdr.specs.Tasks.{ranges};

use crate::effort::Effort;
use first_plan_search::{Ending, Expander, MAX_TOTAL, Outcome, Plan, Problem, Search, replay};
use packed::StateForm;
use std::alloc::{AllocError, Global};
use std::marker::Model;

/// A search for a first plan. In contracts its value is the task.
#[derive(Drop)]
pub(crate) struct Finder<'a> {
    pub(crate) alloc: Global,
    pub(crate) problem: &'a Problem<'a>,
    pub(crate) expander: Expander<'a>,
    /// The best plan so far.
    pub(crate) best: Option<Plan>,
    /// The number of expansions that may be made in all.
    pub(crate) most: usize,
    /// The number of those that are left.
    pub(crate) left: usize,
    /// A lower bound on the cost of plans.
    floor: u64,
    /// Whether a search found that there is no better plan.
    pub(crate) is_complete: bool,
    pub(crate) effort: Effort,
}

impl<'a> Model for Finder<'a> {
    ghost use Rattle.fdr.specs.Tasks.{FiniteDomainTask};
    ghost use Rattle.first_plan.specs.Finders.{IsFinder};

    ghost Value = { FiniteDomainTask };

    ghost view = { λ f. f.problem.now };

    ghost invariant = { λ f. IsFinder f.problem.now f.expander f.best };
}

impl<'a> Finder<'a> {
    /// Returns a search with no plan yet, which may make `most` expansions. `floor` is a lower bound on the cost of
    /// plans.
    pub(crate) fn new(
        alloc: Global,
        problem: &'a Problem<'a>,
        most: usize,
        floor: u64,
    ) -> Result<Finder<'a>, AllocError>
        ensures { IfOk result (λ f. f ≡ problem.now) }
    {
        Ok(Finder {
            alloc,
            problem,
            expander: Expander::new(alloc, problem)?,
            best: None,
            most,
            left: most,
            floor,
            is_complete: false,
            effort: Effort::default(),
        })
    }

    /// Returns what a better plan must cost less than: the cost of the best plan, and if there is none the greatest cost
    /// of a plan plus 1.
    pub(crate) fn bound(&self) -> u64 {
        match &self.best {
            Some(plan) => plan.cost,
            None => MAX_TOTAL + 1,
        }
    }

    /// Returns the number of steps of the best plan, 0 without one.
    pub(crate) fn step_count(&self) -> usize {
        match &self.best {
            Some(plan) => plan.operators.len(),
            None => 0,
        }
    }

    /// Returns whether no better plan is to be sought: the best one costs what every plan costs at least, a search found
    /// that there is no better one, or no expansions are left.
    pub(crate) fn is_done(&self) -> bool {
        self.is_complete || self.left == 0 || self.bound() <= self.floor
    }

    /// Adds the expansions since `before` of them were left to those of windows.
    pub(crate) fn count_windows(&mut self, before: usize)
        ensures { self.new ≡ self.old }
    {
        let made = before.saturating_sub(self.left);
        self.effort.windows = self.effort.windows.saturating_add(made);
    }

    /// Takes operators as the best plan if they are one, and one that costs less than the best so far, or as much with
    /// fewer operators. Returns whether it costs less.
    pub(crate) fn take(&mut self, operators: Vec<usize>) -> Result<bool, AllocError>
        ensures { self.new ≡ self.old }
    {
        let Some(cost) = replay(self.alloc, self.problem.task(), &operators)? else {
            return Ok(false);
        };
        let bound = self.bound();
        let is_less = cost < bound;
        if is_less || (cost == bound && operators.len() < self.step_count()) {
            self.best = Some(Plan { operators, cost });
        }
        Ok(is_less)
    }

    /// Runs a search for at most `limit` expansions, and takes the plan that it finds.
    pub(crate) fn run<F: StateForm + Drop>(
        &mut self,
        search: &mut Search<'_, F>,
        limit: usize,
    ) -> Result<Outcome, AllocError>
        requires { search.old ≡ self.old }
        ensures same { self.new ≡ self.old }
        ensures search { search.new ≡ search.old }
    {
        search.set_bound(self.bound());
        let limit = limit.min(self.left);
        let outcome = search.run(&mut self.expander, limit)?;
        self.left -= outcome.expansions;
        if let Ending::Found(index) = outcome.ending {
            let operators = search.path(self.alloc, index)?;
            self.take(operators)?;
        }
        Ok(outcome)
    }
}
