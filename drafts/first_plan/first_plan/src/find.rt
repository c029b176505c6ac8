//! The search for a first plan.

ghost use Rattle.std.specs.Prelude.{◌≡◌, ◌≤◌, IfOk, IfSome};
ghost use Rattle.fdr.specs.Tasks.{ranges};
ghost use Rattle.first_plan_search.specs.Replays.{IsPlanOf};

use crate::effort::Effort;
use crate::finder::Finder;
use first_plan_search::{Ending, Open, Plan, Problem, Rule, Search};
use packed::{StateForm, in_smallest_form};
use rand_core::{Rng, SeedableRng};
use rand_xoshiro::SplitMix64;
use scp::Columns;
use std::alloc::{AllocError, Global};

/// The order of greedy best-first search, ties by the least cost.
const GREEDY: Rule = Rule {
    cost_weight: 0,
    h_weight: 1,
    reopens: false,
};

/// The order of weighted A*.
const STAR: Rule = Rule {
    cost_weight: 1,
    h_weight: 3,
    reopens: true,
};

/// The order of beams.
const BEAM: Rule = Rule {
    cost_weight: 1,
    h_weight: 2,
    reopens: true,
};

/// The width of the first beam. Each has four times the width of the one before.
const FIRST_WIDTH: usize = 10;

/// The result of a search for a first plan.
#[derive(Drop)]
pub struct FirstPlan {
    /// The best plan that was found.
    pub plan: Option<Plan>,
    /// The number of states that were expanded.
    pub expansions: usize,
    /// The same by the parts of the search.
    pub effort: Effort,
}

impl<'a> Finder<'a> {
    /// Returns a search from the initial state to the goal.
    fn start<F: StateForm + Drop>(
        &self,
        open: Open,
        rule: Rule,
    ) -> Result<Search<'a, F>, AllocError>
        requires { F.Fits (ranges self.now) }
        ensures { IfOk result (λ s. s ≡ self.now) }
    {
        let initial = self.problem.task().initial();
        Search::start(
            self.alloc,
            self.problem,
            open,
            rule,
            initial,
            None,
            self.bound(),
        )
    }

    /// Continues a search, with at most `limit` expansions in all, and makes each plan that it finds better. Returns how
    /// many expansions it took.
    fn exhaust<F: StateForm + Drop>(
        &mut self,
        search: &mut Search<'_, F>,
        limit: usize,
    ) -> Result<usize, AllocError>
        requires fits { F.Fits (ranges self.old) }
        requires task { search.old ≡ self.old }
        ensures { self.new ≡ self.old }
    {
        let mut made: usize = 0;
        for _ in 0..limit {
            let outcome = self.run(search, limit.saturating_sub(made))?;
            made = made.saturating_add(outcome.expansions);
            match outcome.ending {
                Ending::Found(_) => self.improve::<F>()?,
                Ending::Empty => {
                    self.is_complete = !search.has_cut();
                    break;
                }
                Ending::Spent => break,
            }
            if self.is_done() {
                break;
            }
        }
        Ok(made)
    }

    /// Searches greedily, to the first plan.
    fn greedy<F: StateForm + Drop>(&mut self) -> Result<(), AllocError>
        requires { F.Fits (ranges self.old) }
        ensures { self.new ≡ self.old }
    {
        let mut search = self.start::<F>(Open::best(self.alloc), GREEDY)?;
        let outcome = self.run(&mut search, self.most / 8)?;
        self.effort.greedy = outcome.expansions;
        match outcome.ending {
            Ending::Found(_) => self.improve::<F>(),
            Ending::Empty => {
                self.is_complete = true;
                Ok(())
            }
            Ending::Spent => Ok(()),
        }
    }

    /// Searches with weighted A*.
    fn star<F: StateForm + Drop>(&mut self) -> Result<(), AllocError>
        requires { F.Fits (ranges self.old) }
        ensures { self.new ≡ self.old }
    {
        let mut search = self.start::<F>(Open::best(self.alloc), STAR)?;
        let limit = self.most / 4;
        self.effort.star = self.exhaust(&mut search, limit)?;
        Ok(())
    }

    /// Searches with beams of growing width, until no better plan is to be sought.
    fn beams<F: StateForm + Drop>(&mut self, seed: u64) -> Result<(), AllocError>
        requires { F.Fits (ranges self.old) }
        ensures { self.new ≡ self.old }
    {
        let mut words = SplitMix64::seed_from_u64(seed);
        let mut width = FIRST_WIDTH;
        for _ in 0..self.left {
            if self.is_done() {
                break;
            }
            let open = Open::layers(self.alloc, width, words.next_u64());
            let mut search = self.start::<F>(open, BEAM)?;
            let made = self.exhaust(&mut search, self.left)?;
            self.effort.beams = self.effort.beams.saturating_add(made);
            width = width.saturating_mul(4);
        }
        Ok(())
    }

    /// Makes the parts of the search one after the other, until no better plan is to be sought.
    fn search<F: StateForm + Drop>(&mut self, seed: u64) -> Result<(), AllocError>
        requires { F.Fits (ranges self.old) }
        ensures { self.new ≡ self.old }
    {
        if self.problem.task().is_goal(self.problem.task().initial()) {
            self.take(Vec::new(self.alloc))?;
            self.is_complete = true;
        }
        if !self.is_done() {
            self.greedy::<F>()?;
        }
        if !self.is_done() {
            self.star::<F>()?;
        }
        self.beams::<F>(seed)
    }
}

/// Finds a plan with states in this form.
fn find_in<F: StateForm + Drop>(
    alloc: Global,
    problem: &Problem<'_>,
    most: usize,
    seed: u64,
) -> Result<FirstPlan, AllocError>
    requires { F.Fits (ranges problem.now) }
    ensures plan { IfOk result (λ r. IfSome r.plan (λ p. IsPlanOf problem.now p.operators.items p.cost)) }
    ensures expansions { IfOk result (λ r. r.expansions ≤ most) }
{
    let Some(floor) = problem.columns().h(problem.task().initial()).get() else {
        return Ok(FirstPlan {
            plan: None,
            expansions: 0,
            effort: Effort::default(),
        });
    };
    let mut finder = Finder::new(alloc, problem, most, floor)?;
    finder.search::<F>(seed)?;
    Ok(FirstPlan {
        expansions: most.saturating_sub(finder.left),
        effort: finder.effort,
        plan: finder.best,
    })
}

/// Finds a good plan of the columns' task quickly, with their heuristic. The plan is checked by `replay`, so it is one,
/// and its cost is at most 2^62. That a plan is found if there is one is not promised, nor how much it costs.
///
/// At most `most` states are expanded, and memory grows with these and their successors. Greedy best-first search, with
/// an eighth of the expansions, finds a first plan, and weighted A* with a quarter of them and beams of growing width
/// with the rest find better ones. Each plan is made better without needless steps, and by searches between its states,
/// with an eighth of the expansions. It ends early if the plan costs the heuristic value of the initial state, or if a
/// search finds that there is no better one. The result depends on the arguments alone.
pub fn find_plan(
    alloc: Global,
    columns: &Columns<'_>,
    most: usize,
    seed: u64,
) -> Result<FirstPlan, AllocError>
    ensures plan { IfOk result (λ r. IfSome r.plan (λ p. IsPlanOf columns.now.task p.operators.items p.cost)) }
    ensures expansions { IfOk result (λ r. r.expansions ≤ most) }
{
    let problem = Problem::new(alloc, columns)?;
    in_smallest_form!(problem.layout(), find_in(alloc, &problem, most, seed))
}
