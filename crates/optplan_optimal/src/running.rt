//! The command that judges whether a plan is optimal, over any device.

ghost use Rattle.std.specs.Prelude.{◌≡◌, ◌≢◌, ◌≤◌, ◌+◌, ◌++◌, ◌⊎◌, [], if◌then◌else◌, ℕ, List, Some, IfOk, IfErr, OnOk, codes, option_map, string_bytes};
ghost use Rattle.optplan_device.specs.Events.{Event};
ghost use Rattle.optplan_explain.specs.Explanations.{IsExplained};
ghost use Rattle.optplan_plan_texts.specs.Plain.{plain};
ghost use Rattle.optplan_replies.specs.declared.fault.Fault.TheVariants.{OutOfMemory};
ghost use Rattle.optplan_replies.specs.Runs.{IsAnswered, IsUnput};
ghost use Rattle.optplan_optimal.specs.Lines.{verdict_text};
ghost use Rattle.optplan_optimal.specs.Answers.{IsRefusal};
ghost use Rattle.optplan_optimal.specs.Running.{files, IsOptimalityReply, IsOptimalityReport, JudgesOptimality};

use crate::fault::OptimalityFault;
use crate::judging::judge_optimality;
use crate::verdict::OptimalityVerdict;
use optplan_device::Device;
use optplan_explain::{Sources, refusal_with};
use optplan_plan_texts::to_plain;
use optplan_replies::{
    Fault, FileWord, Judge, Refusal, Status, judge_files, line_of, read_file, task_fault,
};
use std::alloc::{AllocError, Global};
use std::thread::Threads;

/// Converts the fault of the texts into the program's, with the word that it prints.
#[tactic(auto, using(crate::proofs::Runs::report_of_task))]
fn fault_of(alloc: Global, fault: OptimalityFault, domain: &[u8], problem: &[u8]) -> Fault
    ensures { (plan cert : List ℕ) → IsRefusal domain.now problem.now plan cert fault → IsOptimalityReport domain.now problem.now plan cert result }
{
    match fault {
        OptimalityFault::OutOfMemory => Fault::OutOfMemory,
        OptimalityFault::Task(fault) => task_fault(alloc, fault, domain, problem),
        OptimalityFault::Plan(fault) => Fault::Plan(fault),
        OptimalityFault::Cert(fault) => Fault::Cert(fault),
        OptimalityFault::GroundLimit => Fault::GroundLimit,
        OptimalityFault::Limit(table) => Fault::TaskTooLarge(table),
    }
}

/// Returns the line that is printed for the texts of a domain, a problem, a plan and a certificate, with its line feed,
/// and the exit status of the verdict.
///
/// Fails as `judge_optimality` does.
fn answer_of<R: AllocGlobal + Threads + Sync>(
    rt: &R,
    domain: &[u8],
    problem: &[u8],
    plan: &[u8],
    cert: &[u8],
) -> Result<(String, Status), Fault>
    ensures answer { IfOk result (λ r. IsOptimalityReply domain.now problem.now plan.now cert.now (string_bytes r.0) r.1) }
    ensures judged { IfOk result (λ r. r.1 ≢ Status.DeviceFailed) }
    ensures answered { IfOk result (λ r. r.1 ≢ Status.OutOfMemory) }
    ensures refused { IfErr result (IsOptimalityReport domain.now problem.now plan.now cert.now) }
{
    let verdict = match judge_optimality(rt, domain, problem, plan, cert) {
        Ok(verdict) => verdict,
        Err(fault) => return Err(fault_of(rt.alloc(), fault, domain, problem)),
    };
    match line_of(rt.alloc(), &verdict) {
        Ok(line) => Ok((line, verdict.status())),
        Err(_) => Err(Fault::OutOfMemory),
    }
}

/// The texts of a domain, a problem, a plan and a certificate.
#[derive(Drop)]
pub struct Texts {
    pub domain: Vec<u8>,
    pub problem: Vec<u8>,
    pub plan: Vec<u8>,
    pub cert: Vec<u8>,
}

/// Returns the text as it was read, if a fault is to be explained: the explanation shows a line of the plan as it is in
/// its file. Otherwise returns an empty text.
fn kept(alloc: Global, text: &[u8], explains: bool) -> Result<Vec<u8>, AllocError>
    ensures { IfOk result (λ copy. copy.items ≡ (if explains then text.now else [])) }
{
    if explains {
        Vec::from_slice(alloc, text)
    } else {
        Ok(Vec::new(alloc))
    }
}

/// The judgement of the plan of these files.
#[derive(Clone, Copy)]
struct Judgement<'a> {
    domain: &'a str,
    problem: &'a str,
    plan: &'a str,
    cert: &'a str,
    /// Whether a fault is explained.
    explains: bool,
}

impl<'a> Judgement<'a> {
    /// Returns the refusal with this fault of the texts, and with its explanation if that is requested. `plan` is the
    /// plan's text as it was read.
    fn refusal(&self, alloc: Global, fault: Fault, texts: &Texts, plan: &[u8]) -> Refusal
        ensures fault { (result.fault ≡ fault) ⊎ (result.fault ≡ OutOfMemory) }
        ensures explained { IsExplained self.now.explains
            (files self.now.domain.now texts.now.domain.items self.now.problem.now texts.now.problem.items self.now.plan.now plan.now
            self.now.cert.now texts.now.cert.items) result.fault (option_map string_bytes result.explanation) }
    {
        let sources = Sources::of_task(self.domain, &texts.domain, self.problem, &texts.problem);
        let sources = sources.with_plan(self.plan, plan);
        let sources = sources.with_cert(self.cert, &texts.cert);
        refusal_with(alloc, fault, self.explains, &sources)
    }

    /// Returns the line that is printed for the texts, the plan's in its plain form, and the exit status. Fails as
    /// `answer_of` does, with the fault's explanation if that is requested.
    #[tactic(auto, using(crate::proofs::Runs::reported, optplan_explain::proofs::Explained::choosing))]
    fn answer<R: AllocGlobal + Threads + Sync>(
        &self,
        rt: &R,
        texts: Texts,
    ) -> Result<(String, Status), Refusal>
        ensures answer { IfOk result (λ r.
            IsOptimalityReply texts.domain.items texts.problem.items (plain texts.plan.items) texts.cert.items (string_bytes r.0) r.1) }
        ensures judged { IfOk result (λ r. r.1 ≢ Status.DeviceFailed) }
        ensures answered { IfOk result (λ r. r.1 ≢ Status.OutOfMemory) }
        ensures refused { IfErr result (λ e. IsOptimalityReport texts.domain.items texts.problem.items (plain texts.plan.items) texts.cert.items e.fault) }
        ensures explained { IfErr result (λ e. IsExplained self.now.explains
            (files self.now.domain.now texts.domain.items self.now.problem.now texts.problem.items self.now.plan.now texts.plan.items
            self.now.cert.now texts.cert.items) e.fault (option_map string_bytes e.explanation)) }
    {
        let Ok(plan) = kept(rt.alloc(), &texts.plan, self.explains) else {
            return Err(Refusal::from(Fault::OutOfMemory));
        };
        let mut texts = texts;
        to_plain(&mut texts.plan);
        match answer_of(rt, &texts.domain, &texts.problem, &texts.plan, &texts.cert) {
            Ok(answer) => Ok(answer),
            Err(fault) => Err(self.refusal(rt.alloc(), fault, &texts, &plan)),
        }
    }
}

impl<'a> Judge for Judgement<'a> {
    ghost use Rattle.optplan_explain.specs.Explanations.{IsExplained};
    ghost use Rattle.optplan_plan_texts.specs.Plain.{plain};
    ghost use Rattle.optplan_optimal.specs.Running.{files, IsOptimalityReply, IsOptimalityReport, reads};

    type Texts = Texts;

    ghost reads = { λ c t. reads c.domain.now t.domain.items c.problem.now t.problem.items c.plan.now t.plan.items c.cert.now t.cert.items };

    ghost is_answer = { λ t. IsOptimalityReply t.domain.items t.problem.items (plain t.plan.items) t.cert.items };

    ghost is_refusal = { λ t. IsOptimalityReport t.domain.items t.problem.items (plain t.plan.items) t.cert.items };

    ghost is_explained = { λ c t. IsExplained c.explains
        (files c.domain.now t.domain.items c.problem.now t.problem.items c.plan.now t.plan.items c.cert.now t.cert.items) };

    fn read<D: Device>(&self, alloc: Global, device: &mut D) -> Result<Texts, Fault> {
        let domain = read_file(alloc, device, self.domain, FileWord::Domain)?;
        let problem = read_file(alloc, device, self.problem, FileWord::Problem)?;
        let plan = read_file(alloc, device, self.plan, FileWord::Plan)?;
        let cert = read_file(alloc, device, self.cert, FileWord::Cert)?;
        Ok(Texts {
            domain,
            problem,
            plan,
            cert,
        })
    }
}

/// Judges whether a plan is optimal: reads the four files, and prints the verdict's line or reports the fault, with its
/// explanation if that is requested. The plan may be as other tools write it, with a first line `limit N`, time stamps
/// and durations. Returns the exit status: `Done` if the plan is optimal, `Unsolvable` if the plan's text claims that
/// there is no valid plan and the certificate proves it, else `Rejected`; or that of the fault.
pub fn run_optimality<D: Device, R: AllocGlobal + Threads + Sync>(
    rt: &R,
    device: &mut D,
    domain: &str,
    problem: &str,
    plan: &str,
    cert: &str,
    explains: bool,
) -> Status
    ensures done { (h : List Event) → D.history device.old ≡ Some h → D.failure_count device.new ≡ D.failure_count device.old → result ≢ Status.OutOfMemory →
        (new : List Event) × (D.history device.new ≡ Some new) × JudgesOptimality h new domain.now problem.now plan.now cert.now explains result }
    ensures device_failed { result ≡ Status.DeviceFailed → D.failure_count device.old + 1 ≤ D.failure_count device.new }
    ensures unput { result ≡ Status.OutOfMemory → IsUnput (D.history device.old) (D.history device.new) }
{
    let command = Judgement {
        domain,
        problem,
        plan,
        cert,
        explains,
    };
    // The closure makes the command again: proofs know nothing of a closure that captures a struct with references.
    judge_files(
        rt.alloc(),
        device,
        &command,
        |texts: Texts| -> Result<(String, Status), Refusal>
            ensures { IsAnswered
                (IsOptimalityReply texts.domain.items texts.problem.items (plain texts.plan.items) texts.cert.items)
                (IsOptimalityReport texts.domain.items texts.problem.items (plain texts.plan.items) texts.cert.items)
                (IsExplained explains
                (files domain.entry.now texts.domain.items problem.entry.now texts.problem.items plan.entry.now texts.plan.items
                cert.entry.now texts.cert.items)) result }
        {
            let command = Judgement {
                domain,
                problem,
                plan,
                cert,
                explains,
            };
            command.answer(rt, texts)
        },
    )
}
