//! The verdict on the texts of a planning task, of a plan and of a certificate.

ghost use Rattle.std.specs.Prelude.{◌≡◌, ◌<◌, ◌≤◌, ◌↔◌, ℕ, List, IsTrue, IfOk, IfErr, IfSome, IfNone, string_bytes};
ghost use Rattle.cost.specs.Distances.{Distance, Finite, ◌≤ᵈ◌};
ghost use Rattle.pddl_task.specs.Limits.{max_cost};
ghost use Rattle.pddl_task.specs.Planning.{PlanningTask, IsPlanningTask, IsActionOf, has_small_costs, Action};
ghost use Rattle.pddl.specs.Texts.{SpellTask};
ghost use Rattle.translate_theory.specs.Bounds.{ValidPlansCostAtLeast};
ghost use Rattle.validate.specs.Written.{verdict_text};
ghost use Rattle.validate.specs.declared.verdict.Verdict.TheVariants.{Valid};
ghost use Rattle.checker.specs.Answers as checked;
ghost use Rattle.checker.specs.declared.verdict.PlanningVerdict.TheVariants.{Accepted};
ghost use Rattle.optplan_optimal.specs.Plans.{ClaimsUnsolvable, SpellsValidPlan};
ghost use Rattle.optplan_optimal.specs.Answers.{SpellTaskAndValidPlan, IsAnswer, IsRefusal};
ghost use Rattle.optplan_optimal.specs.Guarantees.{Guarantees};

use crate::fault::OptimalityFault;
use crate::verdict::OptimalityVerdict;
use checker::{PlanningVerdict, check_for_task};
use cost::Dist;
use pddl::read_task;
use pddl_task::Task;
use std::alloc::{AllocError, Global};
use std::thread::Threads;
use validate::{Verdict, read_plan, validate, verdict_line};

// ---- verdicts on the plan and on the certificate, together

/// Returns whether the text of a plan is the line `unsolvable`, with its line feed or without: the claim that there is
/// no valid plan.
fn claims_unsolvable(plan: &[u8]) -> bool
    ensures { IsTrue result ↔ ClaimsUnsolvable plan.now }
{
    plan == b"unsolvable".as_slice() || plan == b"unsolvable\n".as_slice()
}

/// Returns the bound as a number if it is less than the cost.
fn bound_below(cost: u64, bound: Dist) -> Option<u64>
    ensures less { IfSome result (λ number. (bound ≡ Finite number) × (number < cost)) }
    ensures reached { IfNone result (Finite cost ≤ᵈ bound) }
{
    let number = bound.get()?;
    if number < cost { Some(number) } else { None }
}

/// Returns the verdict on a plan that is valid at this cost, from the verdict on the certificate.
fn with_valid_plan(cost: u64, certificate: PlanningVerdict) -> OptimalityVerdict
    ensures answer { (domain problem plan cert : List ℕ) → SpellTaskAndValidPlan domain problem plan cost → checked.IsAnswer domain problem cert certificate →
        IsAnswer domain problem plan cert result }
    ensures guarantees { (task : PlanningTask) (plan : List ℕ) → SpellsValidPlan task plan cost →
        ((bound : Distance) → certificate ≡ Accepted bound → ValidPlansCostAtLeast task bound) → Guarantees task plan result }
{
    match certificate {
        PlanningVerdict::Accepted(bound) => match bound_below(cost, bound) {
            Some(bound) => OptimalityVerdict::Gap { cost, bound },
            None => OptimalityVerdict::Optimal(cost),
        },
        PlanningVerdict::Rejected(violation) => {
            OptimalityVerdict::CertificateRejected { cost, violation }
        }
    }
}

/// Returns the verdict on the claim that there is no valid plan, from the verdict on the certificate.
fn with_claim(certificate: PlanningVerdict) -> OptimalityVerdict
    ensures answer { (domain problem plan cert : List ℕ) → ClaimsUnsolvable plan → checked.IsAnswer domain problem cert certificate →
        IsAnswer domain problem plan cert result }
    ensures guarantees { (task : PlanningTask) (plan : List ℕ) →
        ((bound : Distance) → certificate ≡ Accepted bound → ValidPlansCostAtLeast task bound) → Guarantees task plan result }
{
    match certificate {
        PlanningVerdict::Accepted(bound) => match bound.get() {
            Some(bound) => OptimalityVerdict::AtLeast(bound),
            None => OptimalityVerdict::Unsolvable,
        },
        PlanningVerdict::Rejected(violation) => OptimalityVerdict::ClaimRejected(violation),
    }
}

// ---- a task that was read

/// Reads the task that the texts spell. Fails with the first fault of the texts.
fn read_planning_task(alloc: Global, domain: &[u8], problem: &[u8]) -> Result<Task, OptimalityFault>
    ensures found { IfOk result (λ task. SpellTask domain.now problem.now task) }
    ensures small { IfOk result (λ task. IsTrue (has_small_costs task)) }
    ensures costs { IfOk result (λ task. (a : Action) → IsActionOf task a → a.cost ≤ max_cost) }
    ensures refused { (plan cert : List ℕ) → IfErr result (IsRefusal domain.now problem.now plan cert) }
{
    let task = read_task(alloc, domain, problem)?;
    Ok(task)
}

/// Returns the cost if the plan is valid.
fn valid_cost(verdict: &Verdict) -> Option<u64>
    ensures valid { IfSome result (λ cost. verdict.now ≡ Valid cost) }
    ensures not_valid { IfNone result ((cost : ℕ) → verdict.now ≡ Valid cost → ⊥) }
{
    match verdict {
        Verdict::Valid(cost) => Some(*cost),
        Verdict::NoSuchAction(_) | Verdict::NotApplicable(_, _) | Verdict::GoalOpen(_) => None,
    }
}

/// Returns the line of the verdict on a plan, without its line feed.
fn plan_line(alloc: Global, task: &Task, verdict: &Verdict) -> Result<String, AllocError>
    ensures { IfOk result (λ line. string_bytes line ≡ verdict_text task.now.vocabulary verdict.now) }
{
    let mut line = verdict_line(alloc, task, verdict)?;
    let _ = line.pop();
    Ok(line)
}

/// Returns the verdict on a plan that is valid at this cost and the text of a certificate. Fails with the first fault
/// of the certificate's text, if a limit is exceeded, or if allocation fails.
fn judge_valid_plan<R: AllocGlobal + Threads + Sync>(
    rt: &R,
    task: &Task,
    cost: u64,
    cert: &[u8],
) -> Result<OptimalityVerdict, OptimalityFault>
    requires small { IsTrue (has_small_costs task.now) }
    requires costs { (a : Action) → IsActionOf task.now a → a.cost ≤ max_cost }
    ensures answer { (domain problem plan : List ℕ) → SpellTask domain problem task.now → SpellsValidPlan task.now plan cost →
        IfOk result (IsAnswer domain problem plan cert.now) }
    ensures refused { (domain problem plan : List ℕ) → SpellTask domain problem task.now → SpellsValidPlan task.now plan cost →
        IfErr result (IsRefusal domain problem plan cert.now) }
    ensures guarantees { (plan : List ℕ) → IsPlanningTask task.now → SpellsValidPlan task.now plan cost → IfOk result (Guarantees task.now plan) }
{
    let certificate = check_for_task(rt, task, cert)?;
    Ok(with_valid_plan(cost, certificate))
}

/// Returns the verdict on the claim that there is no valid plan and the text of a certificate. Fails with the first
/// fault of the certificate's text, if a limit is exceeded, or if allocation fails.
fn judge_claim<R: AllocGlobal + Threads + Sync>(
    rt: &R,
    task: &Task,
    cert: &[u8],
) -> Result<OptimalityVerdict, OptimalityFault>
    requires small { IsTrue (has_small_costs task.now) }
    requires costs { (a : Action) → IsActionOf task.now a → a.cost ≤ max_cost }
    ensures answer { (domain problem plan : List ℕ) → SpellTask domain problem task.now → ClaimsUnsolvable plan →
        IfOk result (IsAnswer domain problem plan cert.now) }
    ensures refused { (domain problem plan : List ℕ) → SpellTask domain problem task.now → ClaimsUnsolvable plan →
        IfErr result (IsRefusal domain problem plan cert.now) }
    ensures guarantees { (plan : List ℕ) → IsPlanningTask task.now → IfOk result (Guarantees task.now plan) }
{
    let certificate = check_for_task(rt, task, cert)?;
    Ok(with_claim(certificate))
}

/// Returns the verdict on the texts of a plan and of a certificate. Fails with the first fault of the plan's text or,
/// if the plan is valid, of the certificate's, if a limit is exceeded, or if allocation fails.
#[tactic(auto, unfolding(validate::specs::Verdicts::CostsAtMost))]
fn judge_plan<R: AllocGlobal + Threads + Sync>(
    rt: &R,
    task: &Task,
    plan: &[u8],
    cert: &[u8],
) -> Result<OptimalityVerdict, OptimalityFault>
    requires small { IsTrue (has_small_costs task.now) }
    requires costs { (a : Action) → IsActionOf task.now a → a.cost ≤ max_cost }
    ensures answer { (domain problem : List ℕ) → SpellTask domain problem task.now → IfOk result (IsAnswer domain problem plan.now cert.now) }
    ensures refused { (domain problem : List ℕ) → SpellTask domain problem task.now → (ClaimsUnsolvable plan.now → ⊥) →
        IfErr result (IsRefusal domain problem plan.now cert.now) }
    ensures guarantees { IsPlanningTask task.now → IfOk result (Guarantees task.now plan.now) }
{
    let alloc = rt.alloc();
    let steps = read_plan(alloc, plan)?;
    let verdict = validate(alloc, task, &steps)?;
    match valid_cost(&verdict) {
        Some(cost) => judge_valid_plan(rt, task, cost, cert),
        None => {
            let line = plan_line(alloc, task, &verdict)?;
            Ok(OptimalityVerdict::PlanRejected(line))
        }
    }
}

// ---- texts

/// Returns the verdict on the texts of a plan and of a certificate for the planning task that the first two texts
/// spell. It is `Optimal` only if the plan is valid at this cost and no valid plan is cheaper, and `Unsolvable` only if
/// there is no valid plan, whoever wrote the plan and the certificate.
///
/// If the plan is not valid, the verdict says why, and the certificate is not read. If the text of the plan is the line
/// `unsolvable`, with its line feed or without, the verdict is the one on this claim.
///
/// Fails with the first fault of the task's texts; or else with the first fault of the plan's text; or, if the plan is
/// valid or is that claim, with the first fault of the certificate's text, or if a limit on atoms, actions, variables
/// or values is exceeded; or if allocation fails.
pub fn judge_optimality<R: AllocGlobal + Threads + Sync>(
    rt: &R,
    domain: &[u8],
    problem: &[u8],
    plan: &[u8],
    cert: &[u8],
) -> Result<OptimalityVerdict, OptimalityFault>
    // The verdict is the correct one for the four texts.
    ensures answer { IfOk result (IsAnswer domain.now problem.now plan.now cert.now) }
    // An error is the first fault, or that allocation failed.
    ensures refused { IfErr result (IsRefusal domain.now problem.now plan.now cert.now) }
    // What the verdict says of plans holds for the task, whoever wrote the plan and the certificate.
    ensures guarantees { (task : PlanningTask) → SpellTask domain.now problem.now task → IfOk result (Guarantees task plan.now) }
{
    let task = read_planning_task(rt.alloc(), domain, problem)?;
    if claims_unsolvable(plan) {
        judge_claim(rt, &task, cert)
    } else {
        judge_plan(rt, &task, plan, cert)
    }
}
