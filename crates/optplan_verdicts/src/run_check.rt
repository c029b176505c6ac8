//! The command that checks a certificate for a planning task, over any device.

ghost use Rattle.std.specs.Prelude.{◌≡◌, ◌≢◌, ◌≤◌, ◌+◌, ℕ, List, Some, IfOk, IfErr, option_map, string_bytes};
ghost use Rattle.checker.specs.Answers as checked;
ghost use Rattle.optplan_device.specs.Events.{Event};
ghost use Rattle.optplan_explain.specs.Explanations.{IsExplained};
ghost use Rattle.optplan_replies.specs.Runs.{IsAnswered, IsUnput};
ghost use Rattle.optplan_replies.specs.Statuses.{IsOfVerdict};
ghost use Rattle.optplan_verdicts.specs.Checking.{check_status, files, IsCheckAnswer, IsCheckRefusal, Checks};

use crate::texts::{Texts, read_texts};
use checker::{PlanningCheckFault, PlanningVerdict, check_pddl};
use optplan_device::Device;
use optplan_explain::{Sources, refusal_with};
use optplan_replies::{Fault, FileWord, Judge, Refusal, Status, judge_files, line_of, task_fault};
use std::alloc::Global;
use std::thread::Threads;

/// Returns the exit status of a verdict: `Done` if the certificate is accepted, else `Rejected`.
fn check_status(verdict: &PlanningVerdict) -> Status
    ensures status { result ≡ check_status verdict.now }
    ensures judged { IsOfVerdict result }
{
    match verdict {
        PlanningVerdict::Accepted(_) => Status::Done,
        PlanningVerdict::Rejected(_) => Status::Rejected,
    }
}

/// Converts the checker's fault into the program's, with the word that it prints.
fn check_fault(alloc: Global, fault: PlanningCheckFault, domain: &[u8], problem: &[u8]) -> Fault
    ensures { (cert : List ℕ) → checked.IsRefusal domain.now problem.now cert fault → IsCheckRefusal domain.now problem.now cert result }
{
    match fault {
        PlanningCheckFault::OutOfMemory => Fault::OutOfMemory,
        PlanningCheckFault::Task(fault) => task_fault(alloc, fault, domain, problem),
        PlanningCheckFault::Cert(fault) => Fault::Cert(fault),
        PlanningCheckFault::GroundLimit => Fault::GroundLimit,
        PlanningCheckFault::Limit(table) => Fault::TaskTooLarge(table),
    }
}

/// Returns the line that is printed for a certificate's text and the texts of a domain and a problem, with its line
/// feed, and the exit status: `Done` if the certificate is accepted, else `Rejected`.
///
/// Fails with the first fault of the domain and the problem, with the first fault of the certificate, with the limit
/// that is exceeded, or if allocation fails.
fn check_of<R: AllocGlobal + Threads + Sync>(
    rt: &R,
    domain: &[u8],
    problem: &[u8],
    cert: &[u8],
) -> Result<(String, Status), Fault>
    ensures answer { IfOk result (λ r. IsCheckAnswer domain.now problem.now cert.now (string_bytes r.0) r.1) }
    ensures judged { IfOk result (λ r. IsOfVerdict r.1) }
    ensures refused { IfErr result (IsCheckRefusal domain.now problem.now cert.now) }
{
    let verdict = match check_pddl(rt, domain, problem, cert) {
        Ok(verdict) => verdict,
        Err(fault) => return Err(check_fault(rt.alloc(), fault, domain, problem)),
    };
    match line_of(rt.alloc(), &verdict) {
        Ok(line) => Ok((line, check_status(&verdict))),
        Err(_) => Err(Fault::OutOfMemory),
    }
}

/// The check of the certificate of these files.
#[derive(Clone, Copy)]
struct Check<'a> {
    domain: &'a str,
    problem: &'a str,
    cert: &'a str,
    /// Whether a fault is explained.
    explains: bool,
}

impl<'a> Check<'a> {
    /// Returns the answer for the texts, or their fault, with its explanation if that is requested.
    #[tactic(auto, using(crate::proofs::Checks::check_refusal_reported))]
    fn answer<R: AllocGlobal + Threads + Sync>(
        &self,
        rt: &R,
        texts: &Texts,
    ) -> Result<(String, Status), Refusal>
        ensures answer { IfOk result (λ r. IsCheckAnswer texts.now.domain.items texts.now.problem.items texts.now.judged.items (string_bytes r.0) r.1) }
        ensures judged { IfOk result (λ r. IsOfVerdict r.1) }
        ensures refused { IfErr result (λ e. IsCheckRefusal texts.now.domain.items texts.now.problem.items texts.now.judged.items e.fault) }
        ensures explained { IfErr result (λ e. IsExplained self.now.explains
            (files self.now.domain.now texts.now.domain.items self.now.problem.now texts.now.problem.items self.now.cert.now texts.now.judged.items)
            e.fault (option_map string_bytes e.explanation)) }
    {
        match check_of(rt, &texts.domain, &texts.problem, &texts.judged) {
            Ok(answer) => Ok(answer),
            Err(fault) => {
                let sources = Sources::of_task(
                    self.domain,
                    &texts.domain,
                    self.problem,
                    &texts.problem,
                );
                let sources = sources.with_cert(self.cert, &texts.judged);
                Err(refusal_with(rt.alloc(), fault, self.explains, &sources))
            }
        }
    }
}

impl<'a> Judge for Check<'a> {
    ghost use Rattle.optplan_explain.specs.Explanations.{IsExplained};
    ghost use Rattle.optplan_verdicts.specs.Validation.{reads};
    ghost use Rattle.optplan_verdicts.specs.Checking.{files, IsCheckAnswer, IsCheckRefusal};

    type Texts = Texts;

    ghost reads = { λ c t. reads c.domain.now t.domain.items c.problem.now t.problem.items c.cert.now t.judged.items };

    ghost is_answer = { λ t. IsCheckAnswer t.domain.items t.problem.items t.judged.items };

    ghost is_refusal = { λ t. IsCheckRefusal t.domain.items t.problem.items t.judged.items };

    ghost is_explained = { λ c t. IsExplained c.explains
        (files c.domain.now t.domain.items c.problem.now t.problem.items c.cert.now t.judged.items) };

    fn read<D: Device>(&self, alloc: Global, device: &mut D) -> Result<Texts, Fault> {
        read_texts(
            alloc,
            device,
            self.domain,
            self.problem,
            self.cert,
            FileWord::Cert,
        )
    }
}

/// Checks a certificate for a planning task: reads the three files, and prints the verdict's line or reports the fault,
/// with its explanation if that is requested. Returns the exit status.
pub fn run_planning_check<D: Device, R: AllocGlobal + Threads + Sync>(
    rt: &R,
    device: &mut D,
    domain: &str,
    problem: &str,
    cert: &str,
    explains: bool,
) -> Status
    ensures done { (h : List Event) → D.history device.old ≡ Some h → D.failure_count device.new ≡ D.failure_count device.old → result ≢ Status.OutOfMemory →
        (new : List Event) × (D.history device.new ≡ Some new) × Checks h new domain.now problem.now cert.now explains result }
    ensures device_failed { result ≡ Status.DeviceFailed → D.failure_count device.old + 1 ≤ D.failure_count device.new }
    ensures unput { result ≡ Status.OutOfMemory → IsUnput (D.history device.old) (D.history device.new) }
{
    let command = Check {
        domain,
        problem,
        cert,
        explains,
    };
    // The closure makes the command again: proofs know nothing of a closure that captures a struct with references.
    judge_files(
        rt.alloc(),
        device,
        &command,
        |texts: Texts| -> Result<(String, Status), Refusal>
            ensures { IsAnswered (IsCheckAnswer texts.domain.items texts.problem.items texts.judged.items)
                (IsCheckRefusal texts.domain.items texts.problem.items texts.judged.items)
                (IsExplained explains
                (files domain.entry.now texts.domain.items problem.entry.now texts.problem.items cert.entry.now texts.judged.items)) result }
        {
            let command = Check {
                domain,
                problem,
                cert,
                explains,
            };
            command.answer(rt, &texts)
        },
    )
}
