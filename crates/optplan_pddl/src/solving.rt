//! Solving a planning task, from texts to texts.

ghost use Rattle.std.specs.Prelude.{◌≡◌, ℕ, Bool, List, IfOk, IfErr};
ghost use Rattle.optplan_search.specs.Findings.{IsPlanAt};
ghost use Rattle.optplan_search.specs.Searches.{EndsAfter, IsRefusedAfter, EndsBySeed, IsRefusedBySeed};
ghost use Rattle.optplan_solver.specs.ThreadedSearches.{EndsByThreads, IsRefusedByThreads};
ghost use Rattle.optplan_pddl.specs.Steps.{HasStepNames};
ghost use Rattle.optplan_pddl.specs.Prepared.{IsPrepared};
ghost use Rattle.optplan_pddl.specs.Answers.{IsTranslatedPlan, IsPlanningAnswer, IsSearchRefusal, IsPlanningRefusal};

use crate::fault::PlanningFault;
use crate::preparing::{Prepared, prepare};
use crate::steps::named_steps;
use netcore::WorldStep;
use optplan_solver::{
    Answer, EndingGate, FoundPlan, Observer, Options, PlanForm, SearchFault, SolveFault,
    WrittenPlan, answer_in, found_after, found_by_seed, found_by_threads,
};
use sasfile::sas_plan_text;
use std::alloc::{AllocError, Global};
use std::sync::Wait;
use std::thread::Threads;
use std::time::Clock;
use translate::Translated;
use validate::Step;

/// The answer for a planning task: a plan is the list of its steps, each with the names of its schema and objects.
pub type PlanningAnswer = Answer<WrittenPlan<Vec<Step>>>;

/// Returns the plan of the task that corresponds to a plan of its translation, with its text.
fn plan_text(
    alloc: Global,
    translated: &Translated,
    found: FoundPlan,
) -> Result<WrittenPlan<Vec<Step>>, AllocError>
    requires plan { IsPlanAt translated.now.task found.plan.items found.cost }
    requires names { HasStepNames translated.now.task }
    ensures plan { IfOk result (IsTranslatedPlan translated.now) }
    ensures cost { IfOk result (λ p. p.cost ≡ found.cost) }
{
    let plan = named_steps(alloc, translated.task(), &found.plan)?;
    let plan_text = sas_plan_text(alloc, translated.task(), &found.plan, found.cost)?;
    Ok(WrittenPlan {
        cost: found.cost,
        plan,
        plan_text,
    })
}

/// The form of plans of a planning task: steps that name actions.
#[derive(Drop)]
struct StepPlans<'a> {
    translated: &'a Translated,
}

impl<'a> PlanForm<Vec<Step>> for StepPlans<'a> {
    ghost use Rattle.optplan_pddl.specs.Steps.{HasStepNames};
    ghost use Rattle.optplan_pddl.specs.Answers.{IsTranslatedPlan};

    ghost task = { λ f. f.translated.now.task };

    ghost is_ready = { λ f. HasStepNames f.translated.now.task };

    ghost is_plan = { λ f. IsTranslatedPlan f.translated.now };

    fn plan(&self, alloc: Global, found: FoundPlan) -> Result<WrittenPlan<Vec<Step>>, AllocError> {
        plan_text(alloc, self.translated, found)
    }
}

impl Prepared {
    /// Returns the answer for the task after these steps of a world of owners, as `solve_steps` does.
    fn after_steps<R: AllocGlobal + Threads + Sync>(
        self,
        rt: &R,
        options: &Options,
        steps: &[WorldStep],
    ) -> Result<PlanningAnswer, SearchFault>
        requires prepared { (wanted : Bool) × ((domain : List ℕ) × ((problem : List ℕ) × IsPrepared wanted domain problem self)) }
        ensures answer { (wanted : Bool) (domain problem : List ℕ) → IsPrepared wanted domain problem self →
            IfOk result (IsPlanningAnswer wanted domain problem (EndsAfter options.now steps.now)) }
        ensures refused { (wanted : Bool) (domain problem : List ℕ) → IsPrepared wanted domain problem self →
            IfErr result (IsSearchRefusal domain problem (IsRefusedAfter options.now steps.now)) }
    {
        let Prepared { translated, wanted } = self;
        let alloc = rt.alloc();
        let found = found_after(rt, alloc, translated.task(), options, steps, wanted)?;
        let form = StepPlans {
            translated: &translated,
        };
        Ok(answer_in(alloc, &form, found)?)
    }

    /// Returns the answer for the task after random steps from the seed, as `simulate` does.
    pub fn simulate<R: AllocGlobal + Threads + Sync, O: Observer>(
        self,
        rt: &R,
        options: &Options,
        seed: u64,
        observer: &O,
    ) -> Result<PlanningAnswer, SearchFault>
        requires prepared { (wanted : Bool) × ((domain : List ℕ) × ((problem : List ℕ) × IsPrepared wanted domain problem self)) }
        ensures answer { (wanted : Bool) (domain problem : List ℕ) → IsPrepared wanted domain problem self →
            IfOk result (IsPlanningAnswer wanted domain problem (EndsBySeed options.now seed)) }
        ensures refused { (wanted : Bool) (domain problem : List ℕ) → IsPrepared wanted domain problem self →
            IfErr result (IsSearchRefusal domain problem (IsRefusedBySeed options.now seed)) }
    {
        let Prepared { translated, wanted } = self;
        let alloc = rt.alloc();
        let task = translated.task();
        let found = found_by_seed(rt, alloc, task, options, seed, wanted, observer)?;
        let form = StepPlans {
            translated: &translated,
        };
        Ok(answer_in(alloc, &form, found)?)
    }

    /// Returns the answer for the task by the chosen number of workers, as `solve` does.
    pub fn solve<R: Threads + Wait + Clock + Sync + AllocGlobal, G: EndingGate + Sync>(
        self,
        rt: &R,
        options: &Options,
        gate: &G,
    ) -> Result<PlanningAnswer, SearchFault>
        requires prepared { (wanted : Bool) × ((domain : List ℕ) × ((problem : List ℕ) × IsPrepared wanted domain problem self)) }
        ensures answer { (wanted : Bool) (domain problem : List ℕ) → IsPrepared wanted domain problem self →
            IfOk result (IsPlanningAnswer wanted domain problem (EndsByThreads options.now (G.may_stop gate.now))) }
        ensures refused { (wanted : Bool) (domain problem : List ℕ) → IsPrepared wanted domain problem self →
            IfErr result (IsSearchRefusal domain problem (IsRefusedByThreads options.now (G.may_stop gate.now))) }
    {
        let Prepared { translated, wanted } = self;
        let alloc = rt.alloc();
        let found = found_by_threads(rt, alloc, translated.task(), options, wanted, gate)?;
        let form = StepPlans {
            translated: &translated,
        };
        Ok(answer_in(alloc, &form, found)?)
    }
}

/// Returns the task that the texts spell, prepared for a search, as `prepare` does.
fn prepared(
    alloc: Global,
    domain: &[u8],
    problem: &[u8],
    certificate: bool,
) -> Result<Prepared, PlanningFault>
    ensures prepared { IfOk result (IsPrepared certificate domain.now problem.now) }
    ensures refused { IfErr result (IsPlanningRefusal domain.now problem.now (λ task e. ⊥)) }
{
    match prepare(alloc, domain, problem, certificate) {
        Ok(prepared) => Ok(prepared),
        Err(fault) => Err(SolveFault::Texts(fault)),
    }
}

/// Returns the answer for the task that the texts spell, after these steps of a world of owners: a cheapest plan, or
/// that there is none; `Limit` with a lower bound on the cost of every plan, and possibly a plan, if the owners are not
/// settled. If the options request a certificate, the answer has one, whose text the checker accepts if it has at most
/// 2^30 bytes. Stops before the first step that asks an owner for more nodes than its limit allows.
///
/// Fails with the first fault of the texts, with `Size` if the task or its translation exceeds a limit, with
/// `TotalTooLarge` if a path would have a cost or a number of actions above 2^62, or if allocation fails.
/// The contract states that the answer is that of some world after these steps, or before one that an owner's limit
/// does not allow, and that a total is too large in such a world. It does not state which tables the search has.
pub fn solve_steps<R: AllocGlobal + Threads + Sync>(
    rt: &R,
    domain: &[u8],
    problem: &[u8],
    options: &Options,
    steps: &[WorldStep],
) -> Result<PlanningAnswer, PlanningFault>
    ensures answer { IfOk result (IsPlanningAnswer options.now.certificate domain.now problem.now (EndsAfter options.now steps.now)) }
    ensures refused { IfErr result (IsPlanningRefusal domain.now problem.now (IsRefusedAfter options.now steps.now)) }
{
    let prepared = prepared(rt.alloc(), domain, problem, options.certificate())?;
    Ok(prepared.after_steps(rt, options, steps)?)
}

/// Returns the answer for the task that the texts spell, after random steps from the seed, at most as many as the
/// options allow: each is the step whose number is the next output of Xoshiro256++ modulo the number of steps that
/// would change something. The contract states what that of `solve_steps` does, of a world after such steps. Reports
/// progress to the observer.
pub fn simulate<R: AllocGlobal + Threads + Sync, O: Observer>(
    rt: &R,
    domain: &[u8],
    problem: &[u8],
    options: &Options,
    seed: u64,
    observer: &O,
) -> Result<PlanningAnswer, PlanningFault>
    ensures answer { IfOk result (IsPlanningAnswer options.now.certificate domain.now problem.now (EndsBySeed options.now seed)) }
    ensures refused { IfErr result (IsPlanningRefusal domain.now problem.now (IsRefusedBySeed options.now seed)) }
{
    let prepared = prepared(rt.alloc(), domain, problem, options.certificate())?;
    Ok(prepared.simulate(rt, options, seed, observer)?)
}

/// Returns the answer for the task that the texts spell, by the chosen number of workers, each in a thread of its own:
/// a cheapest plan, or that there is none; `Limit` with a lower bound on the cost of every plan, and possibly a plan,
/// if the search ended before the owners were settled, by an owner's limit or by the gate. If the options request a
/// certificate, the answer has one, whose text the checker accepts if it has at most 2^30 bytes. If the options
/// request stages, up to four searches follow one another, and `Limit` has the best of what all of them know.
///
/// Fails with the first fault of the texts, with `Size` if the task or its translation exceeds a limit, with
/// `TotalTooLarge` if a path would have a cost or a number of actions above 2^62, or if allocation fails. The contract
/// states the causes of `Limit` and `TotalTooLarge` of some end of such a search, not of this one. Termination is not
/// guaranteed: an unfair scheduler may keep every worker from making progress.
pub fn solve<R: Threads + Wait + Clock + Sync + AllocGlobal, G: EndingGate + Sync>(
    rt: &R,
    domain: &[u8],
    problem: &[u8],
    options: &Options,
    gate: &G,
) -> Result<PlanningAnswer, PlanningFault>
    ensures answer { IfOk result (IsPlanningAnswer options.now.certificate domain.now problem.now (EndsByThreads options.now (G.may_stop gate.now))) }
    ensures refused { IfErr result (IsPlanningRefusal domain.now problem.now (IsRefusedByThreads options.now (G.may_stop gate.now))) }
{
    let prepared = prepared(rt.alloc(), domain, problem, options.certificate())?;
    Ok(prepared.solve(rt, options, gate)?)
}
