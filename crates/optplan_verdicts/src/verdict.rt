//! The answer for the texts of a domain, a problem and a plan: the line that is printed.

ghost use Rattle.std.specs.Prelude.{◌≡◌, ◌≤◌, ℕ, List, IsTrue, IfOk, IfErr, string_bytes};
ghost use Rattle.pddl_task.specs.Planning.{PlanningTask, has_small_costs};
ghost use Rattle.pddl.specs.Texts.{SpellTask};
ghost use Rattle.validate.specs.PlanTexts.{IsPlanFault};
ghost use Rattle.validate.specs.Verdicts.{IsVerdict, CostsAtMost};
ghost use Rattle.validate.specs.Written.{verdict_line_of};
ghost use Rattle.validate.specs.declared.verdict.Verdict.{Verdict};
ghost use Rattle.optplan_replies.specs.Statuses.{IsOfVerdict};
ghost use Rattle.optplan_verdicts.specs.Answers.{IsAnswer, IsRefusal, verdict_status};
ghost use Rattle.pddl_task.specs.Limits.{max_cost};

use optplan_replies::{Fault, Status, task_fault};
use pddl::read_task;
use pddl_task::Task;
use std::alloc::{AllocError, Global};
use validate::{Plan, PlanFault, Verdict, read_plan, validate, verdict_line};

/// Returns the exit status of a verdict: `Done` if the plan is valid, else `Rejected`.
fn verdict_status(verdict: &Verdict) -> Status
    ensures status { result ≡ verdict_status verdict.now }
    ensures judged { IsOfVerdict result }
{
    match verdict {
        Verdict::Valid(_) => Status::Done,
        Verdict::NoSuchAction(_) | Verdict::NotApplicable(_, _) | Verdict::GoalOpen(_) =>
            Status::Rejected,
    }
}

/// Converts the plan's fault into the program's.
fn plan_fault(fault: PlanFault) -> Fault
    ensures { (domain problem plan : List ℕ) (task : PlanningTask) → SpellTask domain problem task → IsPlanFault plan fault →
        IsRefusal domain problem plan result }
{
    match fault {
        PlanFault::OutOfMemory => Fault::OutOfMemory,
        PlanFault::Tree(_) | PlanFault::PlanShape(_) | PlanFault::PlanLimit => Fault::Plan(fault),
    }
}

/// Returns the verdict's line, with its line feed, and the exit status.
fn line_of(alloc: Global, task: &Task, plan: &Plan) -> Result<(String, Status), AllocError>
    requires small { IsTrue (has_small_costs task.now) }
    requires costs { CostsAtMost task.now max_cost }
    ensures verdict { IfOk result (λ r. (v : Verdict) × IsVerdict task.now plan.now v × (string_bytes r.0 ≡ verdict_line_of task.now v) ×
        (r.1 ≡ verdict_status v)) }
    ensures judged { IfOk result (λ r. IsOfVerdict r.1) }
{
    let verdict = validate(alloc, task, plan)?;
    let line = verdict_line(alloc, task, &verdict)?;
    let status = verdict_status(&verdict);
    Ok((line, status))
}

/// Returns the answer for a plan's text: the verdict's line, with its line feed, and the exit status. Fails with the
/// fault of the plan's text, or if allocation fails.
fn answer_of(alloc: Global, task: &Task, plan: &[u8]) -> Result<(String, Status), Fault>
    requires small { IsTrue (has_small_costs task.now) }
    requires costs { CostsAtMost task.now max_cost }
    ensures answer { (domain problem : List ℕ) → SpellTask domain problem task.now →
        IfOk result (λ r. IsAnswer domain problem plan.now (string_bytes r.0) r.1) }
    ensures judged { IfOk result (λ r. IsOfVerdict r.1) }
    ensures refused { (domain problem : List ℕ) → SpellTask domain problem task.now → IfErr result (λ e. IsRefusal domain problem plan.now e) }
{
    let plan = match read_plan(alloc, plan) {
        Ok(plan) => plan,
        Err(fault) => return Err(plan_fault(fault)),
    };
    match line_of(alloc, task, &plan) {
        Ok(answer) => Ok(answer),
        Err(_) => Err(Fault::OutOfMemory),
    }
}

/// Returns the line that is printed for a plan, with its line feed, and the exit status: `Done` if the plan is valid,
/// else `Rejected`.
///
/// Fails with the first fault of the domain and the problem; if they spell a task, with that of the plan's text; or if
/// allocation fails.
#[tactic(auto, unfolding(validate::specs::Verdicts::CostsAtMost))]
pub fn verdict_of(
    alloc: Global,
    domain: &[u8],
    problem: &[u8],
    plan: &[u8],
) -> Result<(String, Status), Fault>
    ensures answer { IfOk result (λ r. IsAnswer domain.now problem.now plan.now (string_bytes r.0) r.1) }
    ensures judged { IfOk result (λ r. IsOfVerdict r.1) }
    ensures refused { IfErr result (λ e. IsRefusal domain.now problem.now plan.now e) }
{
    match read_task(alloc, domain, problem) {
        Ok(task) => answer_of(alloc, &task, plan),
        Err(fault) => Err(task_fault(alloc, fault, domain, problem)),
    }
}
