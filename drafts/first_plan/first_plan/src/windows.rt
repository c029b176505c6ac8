//! Better steps between two states of a plan.

ghost use Rattle.std.specs.Prelude.{◌≡◌, ◌≤◌, length};
ghost use Rattle.fdr.specs.Tasks.{ranges, IsState};

use crate::finder::Finder;
use crate::needless::without_needless;
use fdr::FdrTask;
use first_plan_search::{Ending, Expander, Open, Rule, Search};
use packed::StateForm;
use std::alloc::{AllocError, Global};

/// The number of steps of the shortest windows.
const FIRST_LENGTH: usize = 8;

/// The greatest number of expansions in a window.
const MOST_IN_WINDOW: usize = 500;

/// The number of steps that may be tried for each expansion to find needless ones.
const STEPS_FOR_EXPANSION: usize = 20;

/// The order by cost alone.
const BY_COST: Rule = Rule {
    cost_weight: 1,
    h_weight: 0,
    reopens: true,
};

/// Returns the sum of the costs of operators, capped at `u64::MAX`.
fn cost_of(task: &FdrTask, operators: &[usize]) -> u64 {
    let mut sum: u64 = 0;
    for operator in operators {
        sum = sum.saturating_add(task.cost(*operator).get());
    }
    sum
}

/// Applies those of the operators that apply in turn.
fn apply_all(task: &FdrTask, operators: &[usize], state: &mut [u32])
    requires { IsState (ranges task.now) state.old }
    ensures { IsState (ranges task.now) state.new }
{
    task.recall(); // a successor of a state is a state
    for operator in operators {
        task.apply(*operator, state);
    }
}

/// Returns the first `length` of the items from `position` on, or all of these if they are fewer.
fn part(items: &[usize], position: usize, length: usize) -> &[usize] {
    let rest = items.get(position..).unwrap_or(&[]);
    rest.get(..length).unwrap_or(rest)
}

/// Returns the items before `position`, then `middle`, then those from `end` on.
fn joined(
    alloc: Global,
    items: &[usize],
    position: usize,
    middle: &[usize],
    end: usize,
) -> Result<Vec<usize>, AllocError> {
    let mut all = Vec::from_slice(alloc, part(items, 0, position))?;
    all.extend_from_slice(middle)?;
    all.extend_from_slice(part(items, end, items.len()))?;
    Ok(all)
}

/// What a search for the cheapest path found.
#[derive(Clone, Copy)]
struct Cheapest {
    /// The index of the target, if it was reached.
    index: Option<usize>,
    expansions: usize,
}

/// Runs a search until no better path to its target is left, or for `limit` expansions.
fn find_cheapest<F: StateForm + Drop>(
    search: &mut Search<'_, F>,
    expander: &mut Expander<'_>,
    limit: usize,
) -> Result<Cheapest, AllocError>
    requires { expander.old ≡ search.old }
    ensures expansions { IfOk result (λ c. c.expansions ≤ limit) }
    ensures expander { expander.new ≡ expander.old }
{
    let mut index = None;
    let mut expansions: usize = 0;
    for _ in 0..limit {
        let outcome = search.run(expander, limit - expansions)?;
        expansions += outcome.expansions;
        match outcome.ending {
            Ending::Found(target) => index = Some(target),
            Ending::Empty | Ending::Spent => break,
        }
    }
    Ok(Cheapest { index, expansions })
}

impl<'a> Finder<'a> {
    /// Searches for cheaper steps instead of the `length` steps of the best plan from `position` on, at which the plan
    /// is in `state`, with at most `limit` expansions. If the plan ends with these steps, any goal state is the target.
    /// Returns whether it found a better plan.
    fn improve_window<F: StateForm + Drop>(
        &mut self,
        state: &[u32],
        position: usize,
        length: usize,
        limit: usize,
    ) -> Result<bool, AllocError>
        requires fits { F.Fits (ranges self.old) }
        requires state { IsState (ranges self.old) state.now }
        ensures { self.new ≡ self.old }
    {
        let alloc = self.alloc;
        let task = self.problem.task();
        let limit = limit.min(self.left);
        let Some(plan) = &self.best else {
            return Ok(false);
        };
        let window = part(&plan.operators, position, length);
        let end = position.saturating_add(window.len());
        let mut target = None;
        if end < plan.operators.len() {
            let mut values = Vec::from_slice(alloc, state)?;
            apply_all(task, window, &mut values);
            target = Some(F::pack(alloc, self.problem.layout(), &values)?);
        }
        let open = Open::best(alloc);
        let cost = cost_of(task, window);
        let mut search: Search<'_, F> = Search::start(
            alloc,
            self.problem,
            open,
            BY_COST,
            state,
            target,
            cost,
        )?;
        let found = find_cheapest(&mut search, &mut self.expander, limit)?;
        self.left -= found.expansions;
        let Some(index) = found.index else {
            return Ok(false);
        };
        let middle = search.path(alloc, index)?;
        let operators = joined(alloc, &plan.operators, position, &middle, end)?;
        self.take(operators)
    }

    /// Moves from `position` of the best plan, at which it is in `state`, on by `count` steps. Returns whether the plan
    /// has more than `length` steps from `position` on.
    fn move_on(&self, state: &mut [u32], position: usize, count: usize, length: usize) -> bool
        requires { IsState (ranges self.now) state.old }
        ensures { IsState (ranges self.now) state.new }
    {
        let Some(plan) = &self.best else {
            return false;
        };
        apply_all(
            self.problem.task(),
            part(&plan.operators, position, count),
            state,
        );
        position.saturating_add(length) < plan.operators.len()
    }

    /// Searches in windows of `length` steps of the best plan, each a quarter of its length after the one before, until
    /// `until` expansions are left. Returns whether the plan became better.
    fn pass<F: StateForm + Drop>(&mut self, length: usize, until: usize) -> Result<bool, AllocError>
        requires { F.Fits (ranges self.old) }
        ensures { self.new ≡ self.old }
    {
        let mut values = Vec::from_slice(self.alloc, self.problem.task().initial())?;
        let state: &mut [u32] = &mut values;
        let mut position: usize = 0;
        let mut is_better = false;
        for _ in 0..self.left {
            let limit = self.left.saturating_sub(until).min(MOST_IN_WINDOW);
            if limit == 0 {
                break;
            }
            if self.improve_window::<F>(state, position, length, limit)? {
                is_better = true;
            }
            if !self.move_on(state, position, length / 4, length) {
                break;
            }
            position = position.saturating_add(length / 4);
        }
        Ok(is_better)
    }

    /// Searches in windows of 8, 16, 32 .. steps, until `until` expansions are left. Returns whether the best plan became
    /// better.
    fn passes<F: StateForm + Drop>(&mut self, until: usize) -> Result<bool, AllocError>
        requires { F.Fits (ranges self.old) }
        ensures { self.new ≡ self.old }
    {
        let mut length = FIRST_LENGTH;
        let mut is_better = false;
        for _ in 0..usize::BITS {
            if self.pass::<F>(length, until)? {
                is_better = true;
            }
            if self.step_count() <= length {
                break;
            }
            length = length.saturating_mul(2);
        }
        Ok(is_better)
    }

    /// Takes needless steps out of the best plan.
    fn drop_needless(&mut self) -> Result<(), AllocError>
        ensures { self.new ≡ self.old }
    {
        let Some(plan) = &self.best else {
            return Ok(());
        };
        let most = self.most.saturating_mul(STEPS_FOR_EXPANSION);
        let operators = without_needless(self.alloc, self.problem.task(), &plan.operators, most)?;
        self.take(operators)?;
        Ok(())
    }

    /// Makes the best plan better: without needless steps, and by searches between its states with an eighth of all
    /// expansions, as long as one of these finds a better plan.
    pub(crate) fn improve<F: StateForm + Drop>(&mut self) -> Result<(), AllocError>
        requires { F.Fits (ranges self.old) }
        ensures { self.new ≡ self.old }
    {
        self.drop_needless()?;
        let before = self.left;
        let until = before.saturating_sub(self.most / 8);
        for _ in 0..before {
            if self.is_done() || !self.passes::<F>(until)? {
                break;
            }
        }
        self.count_windows(before);
        Ok(())
    }
}
