//! Solving a finite-domain task, from text to texts.

ghost use Rattle.std.specs.Prelude.{◌≡◌, ℕ, List, IfOk, IfErr};
ghost use Rattle.sasfile_reader.specs.SasTexts.{SpellsTask};
ghost use Rattle.optplan_search.specs.Findings.{IsPlanAt};
ghost use Rattle.optplan_search.specs.Searches.{EndsAfter, IsRefusedAfter, EndsBySeed, IsRefusedBySeed};
ghost use Rattle.optplan_solver.specs.ThreadedSearches.{EndsByThreads, IsRefusedByThreads};
ghost use Rattle.optplan_sas.specs.SasAnswers.{IsSasAnswer, IsSasRefusal, IsSasPlan};

use cert_value::CertificateKind;
use fdr::FdrTask;
use netcore::WorldStep;
use optplan_options::Options;
use optplan_solver::{
    Answer, EndingGate, FoundPlan, Observer, PlanForm, SearchFault, SolveFault, WrittenPlan,
    answer_in, found_after, found_by_seed, found_by_threads,
};
use sasfile::{SasFault, read_sas, sas_plan_text};
use std::alloc::{AllocError, Global};
use std::sync::Wait;
use std::thread::Threads;
use std::time::Clock;

/// The answer for a finite-domain task: a plan is the list of its operators' numbers.
pub type SasAnswer = Answer<WrittenPlan<Vec<usize>>>;

/// The reason why a finite-domain task is not solved.
pub type SasSolveFault = SolveFault<SasFault>;

/// Returns the task that the text spells. Fails with the first fault of the text, or if allocation fails.
fn read_task(alloc: Global, sas: &[u8]) -> Result<FdrTask, SasSolveFault>
    ensures found { IfOk result (λ task. SpellsTask sas.now task) }
    ensures fault { IfErr result (IsSasRefusal sas.now (λ task e. ⊥)) }
{
    match read_sas(alloc, sas) {
        Ok(task) => Ok(task),
        Err(fault) => Err(SolveFault::Texts(fault)),
    }
}

/// Returns the plan with its text.
fn plan_text(
    alloc: Global,
    task: &FdrTask,
    found: FoundPlan,
) -> Result<WrittenPlan<Vec<usize>>, AllocError>
    requires { IsPlanAt task.now found.plan.items found.cost }
    ensures plan { IfOk result (IsSasPlan task.now) }
    ensures cost { IfOk result (λ p. p.cost ≡ found.cost) }
{
    let plan_text = sas_plan_text(alloc, task, &found.plan, found.cost)?;
    Ok(WrittenPlan {
        cost: found.cost,
        plan: found.plan,
        plan_text,
    })
}

/// The form of plans of a finite-domain task: the numbers of their operators.
#[derive(Drop)]
struct OperatorPlans<'a> {
    task: &'a FdrTask,
}

impl<'a> PlanForm<Vec<usize>> for OperatorPlans<'a> {
    ghost use Rattle.std.specs.Prelude.{⊤};
    ghost use Rattle.optplan_sas.specs.SasAnswers.{IsSasPlan};

    ghost task = { λ f. f.task.now };

    ghost is_ready = { λ f. ⊤ };

    ghost is_plan = { λ f. IsSasPlan f.task.now };

    fn plan(&self, alloc: Global, found: FoundPlan) -> Result<WrittenPlan<Vec<usize>>, AllocError> {
        plan_text(alloc, self.task, found)
    }
}

/// Returns the answer for the task after these steps, as `solve_sas_steps` does.
fn after_steps<R: AllocGlobal + Threads + Sync>(
    rt: &R,
    task: &FdrTask,
    options: &Options,
    steps: &[WorldStep],
) -> Result<SasAnswer, SearchFault>
    ensures answer { (sas : List ℕ) → SpellsTask sas task.now → IfOk result (IsSasAnswer options.now.certificate sas (EndsAfter options.now steps.now)) }
    ensures refused { IfErr result (IsRefusedAfter options.now steps.now task.now) }
{
    let alloc = rt.alloc();
    let wanted = options.certificate().then_some(CertificateKind::Sas);
    let found = found_after(rt, alloc, task, options, steps, wanted)?;
    Ok(answer_in(alloc, &OperatorPlans { task }, found)?)
}

/// Returns the answer for the task that the text spells, after these steps of a world of owners: a cheapest plan, or
/// that there is none; `Limit` with a lower bound on the cost of every plan, and possibly a plan, if the owners are not
/// settled. If the options request a certificate, the answer has one, whose text the checker accepts if it has at most
/// 2^30 bytes. Stops before the first step that asks an owner for more nodes than its limit allows.
///
/// Fails with the first fault of the text, with `TotalTooLarge` if a path would have a cost or a number of operators
/// above 2^62, or if allocation fails. The contract states that the answer is that of some world after these steps, or
/// before one that an owner's limit does not allow, and that a total is too large in such a world. It does not state
/// which tables the search has.
pub fn solve_sas_steps<R: AllocGlobal + Threads + Sync>(
    rt: &R,
    sas: &[u8],
    options: &Options,
    steps: &[WorldStep],
) -> Result<SasAnswer, SasSolveFault>
    ensures answer { IfOk result (IsSasAnswer options.now.certificate sas.now (EndsAfter options.now steps.now)) }
    ensures refused { IfErr result (IsSasRefusal sas.now (IsRefusedAfter options.now steps.now)) }
{
    let task = read_task(rt.alloc(), sas)?;
    Ok(after_steps(rt, &task, options, steps)?)
}

/// Returns the answer for the task after random steps from the seed, as `simulate_sas` does.
pub fn simulate_task<R: AllocGlobal + Threads + Sync, O: Observer>(
    rt: &R,
    task: &FdrTask,
    options: &Options,
    seed: u64,
    observer: &O,
) -> Result<SasAnswer, SearchFault>
    ensures answer { (sas : List ℕ) → SpellsTask sas task.now → IfOk result (IsSasAnswer options.now.certificate sas (EndsBySeed options.now seed)) }
    ensures refused { IfErr result (IsRefusedBySeed options.now seed task.now) }
{
    let alloc = rt.alloc();
    let wanted = options.certificate().then_some(CertificateKind::Sas);
    let found = found_by_seed(rt, alloc, task, options, seed, wanted, observer)?;
    Ok(answer_in(alloc, &OperatorPlans { task }, found)?)
}

/// Returns the answer for the task that the text spells, after random steps from the seed, at most as many as the
/// options allow: each is the step whose number is the next output of Xoshiro256++ modulo the number of steps that
/// would change something. The contract states what that of `solve_sas_steps` does, of a world after such steps.
/// Reports progress to the observer.
pub fn simulate_sas<R: AllocGlobal + Threads + Sync, O: Observer>(
    rt: &R,
    sas: &[u8],
    options: &Options,
    seed: u64,
    observer: &O,
) -> Result<SasAnswer, SasSolveFault>
    ensures answer { IfOk result (IsSasAnswer options.now.certificate sas.now (EndsBySeed options.now seed)) }
    ensures refused { IfErr result (IsSasRefusal sas.now (IsRefusedBySeed options.now seed)) }
{
    let task = read_task(rt.alloc(), sas)?;
    Ok(simulate_task(rt, &task, options, seed, observer)?)
}

/// Returns the answer for the task by the chosen number of workers, as `solve_sas` does.
pub fn solve_task<R: Threads + Wait + Clock + Sync + AllocGlobal, G: EndingGate + Sync>(
    rt: &R,
    task: &FdrTask,
    options: &Options,
    gate: &G,
) -> Result<SasAnswer, SearchFault>
    ensures answer { (sas : List ℕ) → SpellsTask sas task.now →
        IfOk result (IsSasAnswer options.now.certificate sas (EndsByThreads options.now (G.may_stop gate.now))) }
    ensures refused { IfErr result (IsRefusedByThreads options.now (G.may_stop gate.now) task.now) }
{
    let alloc = rt.alloc();
    let wanted = options.certificate().then_some(CertificateKind::Sas);
    let found = found_by_threads(rt, alloc, task, options, wanted, gate)?;
    Ok(answer_in(alloc, &OperatorPlans { task }, found)?)
}

/// Returns the answer for the task that the text spells, by the chosen number of workers, each in a thread of its own:
/// a cheapest plan, or that there is none; `Limit` with a lower bound on the cost of every plan, and possibly a plan,
/// if the search ended before the owners were settled, by an owner's limit or by the gate. If the options request a
/// certificate, the answer has one, whose text the checker accepts if it has at most 2^30 bytes. If the options request
/// stages, up to four searches follow one another, and `Limit` has the best of what all of them know.
///
/// Fails with the first fault of the text, with `TotalTooLarge` if a path would have a cost or a number of operators
/// above 2^62, or if allocation fails. The contract states the causes of `Limit` and `TotalTooLarge` of some end of
/// such a search, not of this one. Termination is not guaranteed: an unfair scheduler may keep every worker from making
/// progress.
pub fn solve_sas<R: Threads + Wait + Clock + Sync + AllocGlobal, G: EndingGate + Sync>(
    rt: &R,
    sas: &[u8],
    options: &Options,
    gate: &G,
) -> Result<SasAnswer, SasSolveFault>
    ensures answer { IfOk result (IsSasAnswer options.now.certificate sas.now (EndsByThreads options.now (G.may_stop gate.now))) }
    ensures refused { IfErr result (IsSasRefusal sas.now (IsRefusedByThreads options.now (G.may_stop gate.now))) }
{
    let task = read_task(rt.alloc(), sas)?;
    Ok(solve_task(rt, &task, options, gate)?)
}
