//! The verdict on the texts of a planning task and of a certificate for it.

ghost use Rattle.std.specs.Prelude.{◌≡◌, ◌≤◌, ◌^◌, ℕ, List, length, IsTrue, IfOk, IfErr};
ghost use Rattle.cost.specs.Distances.{Distance, Infinite};
ghost use Rattle.pddl_task.specs.Planning.{PlanningTask, IsPlanningTask, IsActionOf, has_small_costs, Action};
ghost use Rattle.pddl_task.specs.Plans.{HasNoValidPlan};
ghost use Rattle.translate_theory.specs.Bounds.{ValidPlansCostAtLeast};
ghost use Rattle.cert_value.specs.Certificates.{Planning, Variable};
ghost use Rattle.cert_value.specs.Lawful.{IsLawful};
ghost use Rattle.cert_text.specs.Spelling.{spelling};
ghost use Rattle.pddl.specs.Texts.{SpellTask};
ghost use Rattle.checker.specs.declared.verdict.PlanningVerdict.TheVariants.{Accepted};
ghost use Rattle.checker.specs.Judgements.{IsPlanningVerdict};
ghost use Rattle.checker.specs.Answers.{IsAnswer, IsRefusal, IsRefusedTask, IsRefusedCertificate, IsUnanswered};
ghost use Rattle.pddl_task.specs.Limits.{max_cost};

use crate::fault::PlanningCheckFault;
use crate::judging::judge;
use crate::verdict::PlanningVerdict;
use cert_text::{CertFault, read_cert};
use cert_value::{Certificate, CertificateKind};
use pddl::{PddlFault, read_task};
use pddl_task::Task;
use std::alloc::{AllocError, Global};
use std::thread::Threads;

/// The line that states the kind of a certificate.
const KIND_LINE: usize = 2;

/// Reads the task that the texts spell. Fails with the first fault of the texts.
fn read_planning_task(
    alloc: Global,
    domain: &[u8],
    problem: &[u8],
) -> Result<Task, PlanningCheckFault>
    ensures found { IfOk result (λ task. SpellTask domain.now problem.now task) }
    ensures small { IfOk result (λ task. IsTrue (has_small_costs task)) }
    ensures costs { IfOk result (λ task. (a : Action) → IsActionOf task a → a.cost ≤ max_cost) }
    ensures fault { IfErr result (IsRefusedTask domain.now problem.now) }
{
    match read_task(alloc, domain, problem) {
        Ok(task) => Ok(task),
        Err(PddlFault::OutOfMemory) => Err(PlanningCheckFault::OutOfMemory),
        Err(fault) => Err(PlanningCheckFault::Task(fault)),
    }
}

/// Reads the certificate that the text spells. Fails with the first fault of the text.
#[tactic(auto, using(checker_fdr::proofs::ShortTexts::read_short))]
fn read_certificate(alloc: Global, cert: &[u8]) -> Result<Certificate, PlanningCheckFault>
    ensures found { IfOk result (λ c. IsLawful c × (cert.now ≡ spelling c) × (length cert.now ≤ 2 ^ 30)) }
    ensures fault { IfErr result (IsRefusedCertificate cert.now) }
{
    match read_cert(alloc, cert) {
        Ok(certificate) => Ok(certificate),
        Err(CertFault::OutOfMemory) => Err(PlanningCheckFault::OutOfMemory),
        Err(fault) => Err(PlanningCheckFault::Cert(fault)),
    }
}

/// Returns the verdict on a certificate for a task. Fails if the certificate is not for a planning task, if a limit is
/// exceeded, or if allocation fails.
fn answer<R: AllocGlobal + Threads + Sync>(
    rt: &R,
    task: &Task,
    certificate: &Certificate,
) -> Result<PlanningVerdict, PlanningCheckFault>
    requires small { IsTrue (has_small_costs task.now) }
    requires costs { (a : Action) → IsActionOf task.now a → a.cost ≤ max_cost }
    requires lawful { IsLawful certificate.now }
    ensures verdict { (words : List (List (List ℕ))) (variables : List Variable) → certificate.now.kind ≡ Planning words variables →
        IfOk result (IsPlanningVerdict (record { task = task.now; words = words; variables = variables }) certificate.now) }
    ensures planning { IfOk result (λ _. (words : List (List (List ℕ))) × (variables : List Variable) × (certificate.now.kind ≡ Planning words variables)) }
    ensures bound { (bound : Distance) → IsPlanningTask task.now →
        IfOk result (λ verdict. verdict ≡ Accepted bound → ValidPlansCostAtLeast task.now bound) }
    ensures unjudged { IfErr result (IsUnanswered task.now certificate.now) }
{
    match certificate.kind() {
        CertificateKind::Pddl(parts) => judge(rt, task, parts, certificate),
        CertificateKind::Sas => Err(PlanningCheckFault::Cert(CertFault::Expected(KIND_LINE))),
    }
}

/// Returns the verdict on the text of a certificate for a task that was read, as `check_pddl` does for texts that spell
/// this task. Fails with the first fault of the certificate's text, if a limit is exceeded, or if allocation fails.
pub fn check_for_task<R: AllocGlobal + Threads + Sync>(
    rt: &R,
    task: &Task,
    cert: &[u8],
) -> Result<PlanningVerdict, PlanningCheckFault>
    requires small { IsTrue (has_small_costs task.now) }
    requires costs { (a : Action) → IsActionOf task.now a → a.cost ≤ max_cost }
    ensures answer { (domain problem : List ℕ) → SpellTask domain problem task.now → IfOk result (IsAnswer domain problem cert.now) }
    ensures refused { (domain problem : List ℕ) → SpellTask domain problem task.now → IfErr result (IsRefusal domain problem cert.now) }
    ensures bound { (bound : Distance) → IsPlanningTask task.now →
        IfOk result (λ verdict. verdict ≡ Accepted bound → ValidPlansCostAtLeast task.now bound) }
{
    let certificate = read_certificate(rt.alloc(), cert)?;
    answer(rt, task, &certificate)
}

/// Returns the verdict on the text of a certificate for the planning task that two texts spell. It is `Accepted` with
/// the certificate's bound if the certificate satisfies the clauses C0 to C8 for the task, and otherwise `Rejected`
/// with the first violation. After `Accepted` every valid plan of the task costs at least the bound, whoever wrote the
/// certificate, and there is no valid plan if the bound is infinite.
///
/// Fails with the first fault of the task's texts; or else with the first fault of the certificate's text; or if a
/// limit on atoms, actions, variables or values is exceeded; or if allocation fails.
pub fn check_pddl<R: AllocGlobal + Threads + Sync>(
    rt: &R,
    domain: &[u8],
    problem: &[u8],
    cert: &[u8],
) -> Result<PlanningVerdict, PlanningCheckFault>
    ensures answer { IfOk result (IsAnswer domain.now problem.now cert.now) }
    ensures refused { IfErr result (IsRefusal domain.now problem.now cert.now) }
    ensures bound { (task : PlanningTask) (bound : Distance) → SpellTask domain.now problem.now task →
        IfOk result (λ verdict. verdict ≡ Accepted bound → ValidPlansCostAtLeast task bound) }
    ensures none { (task : PlanningTask) → SpellTask domain.now problem.now task →
        IfOk result (λ verdict. verdict ≡ Accepted Infinite → HasNoValidPlan task) }
{
    let task = read_planning_task(rt.alloc(), domain, problem)?;
    check_for_task(rt, &task, cert)
}
