//! The command that validates a plan, over any device.

ghost use Rattle.std.specs.Prelude.{◌≡◌, ◌≢◌, ◌≤◌, ◌+◌, List, Some, IfOk, IfErr, option_map, string_bytes};
ghost use Rattle.optplan_device.specs.Events.{Event};
ghost use Rattle.optplan_explain.specs.Explanations.{IsExplained};
ghost use Rattle.optplan_replies.specs.Runs.{IsAnswered, IsUnput};
ghost use Rattle.optplan_replies.specs.Statuses.{IsOfVerdict};
ghost use Rattle.optplan_verdicts.specs.Answers.{IsAnswer, IsRefusal};
ghost use Rattle.optplan_verdicts.specs.Validation.{files, Validates};

use crate::texts::{Texts, read_texts};
use crate::verdict::verdict_of;
use optplan_device::Device;
use optplan_explain::{Sources, refusal_with};
use optplan_replies::{Fault, FileWord, Judge, Refusal, Status, judge_files};
use std::alloc::Global;
use std::thread::Threads;

/// The validation of the plan of these files.
#[derive(Clone, Copy)]
struct Validation<'a> {
    domain: &'a str,
    problem: &'a str,
    plan: &'a str,
    /// Whether a fault is explained.
    explains: bool,
}

impl<'a> Validation<'a> {
    /// Returns the answer for the texts, or their fault, with its explanation if that is requested.
    #[tactic(auto, using(crate::proofs::Reports::refusal_reported))]
    fn answer(&self, alloc: Global, texts: &Texts) -> Result<(String, Status), Refusal>
        ensures answer { IfOk result (λ r. IsAnswer texts.now.domain.items texts.now.problem.items texts.now.judged.items (string_bytes r.0) r.1) }
        ensures judged { IfOk result (λ r. IsOfVerdict r.1) }
        ensures refused { IfErr result (λ e. IsRefusal texts.now.domain.items texts.now.problem.items texts.now.judged.items e.fault) }
        ensures explained { IfErr result (λ e. IsExplained self.now.explains
            (files self.now.domain.now texts.now.domain.items self.now.problem.now texts.now.problem.items self.now.plan.now texts.now.judged.items)
            e.fault (option_map string_bytes e.explanation)) }
    {
        match verdict_of(alloc, &texts.domain, &texts.problem, &texts.judged) {
            Ok(answer) => Ok(answer),
            Err(fault) => {
                let sources = Sources::of_task(
                    self.domain,
                    &texts.domain,
                    self.problem,
                    &texts.problem,
                );
                let sources = sources.with_plan(self.plan, &texts.judged);
                Err(refusal_with(alloc, fault, self.explains, &sources))
            }
        }
    }
}

impl<'a> Judge for Validation<'a> {
    ghost use Rattle.optplan_explain.specs.Explanations.{IsExplained};
    ghost use Rattle.optplan_verdicts.specs.Validation.{files, reads};
    ghost use Rattle.optplan_verdicts.specs.Answers.{IsAnswer, IsRefusal};

    type Texts = Texts;

    ghost reads = { λ c t. reads c.domain.now t.domain.items c.problem.now t.problem.items c.plan.now t.judged.items };

    ghost is_answer = { λ t. IsAnswer t.domain.items t.problem.items t.judged.items };

    ghost is_refusal = { λ t. IsRefusal t.domain.items t.problem.items t.judged.items };

    ghost is_explained = { λ c t. IsExplained c.explains
        (files c.domain.now t.domain.items c.problem.now t.problem.items c.plan.now t.judged.items) };

    fn read<D: Device>(&self, alloc: Global, device: &mut D) -> Result<Texts, Fault> {
        read_texts(
            alloc,
            device,
            self.domain,
            self.problem,
            self.plan,
            FileWord::Plan,
        )
    }
}

/// Validates a plan: reads the three files, and prints the verdict's line or reports the fault, with its explanation if
/// that is requested. Returns the exit status.
pub fn run_validation<D: Device, R: AllocGlobal + Threads + Sync>(
    rt: &R,
    device: &mut D,
    domain: &str,
    problem: &str,
    plan: &str,
    explains: bool,
) -> Status
    ensures done { (h : List Event) → D.history device.old ≡ Some h → D.failure_count device.new ≡ D.failure_count device.old → result ≢ Status.OutOfMemory →
        (new : List Event) × (D.history device.new ≡ Some new) × Validates h new domain.now problem.now plan.now explains result }
    ensures device_failed { result ≡ Status.DeviceFailed → D.failure_count device.old + 1 ≤ D.failure_count device.new }
    ensures unput { result ≡ Status.OutOfMemory → IsUnput (D.history device.old) (D.history device.new) }
{
    let command = Validation {
        domain,
        problem,
        plan,
        explains,
    };
    // The closure makes the command again: proofs know nothing of a closure that captures a struct with references.
    judge_files(
        rt.alloc(),
        device,
        &command,
        |texts: Texts| -> Result<(String, Status), Refusal>
            ensures { IsAnswered (IsAnswer texts.domain.items texts.problem.items texts.judged.items)
                (IsRefusal texts.domain.items texts.problem.items texts.judged.items)
                (IsExplained explains
                (files domain.entry.now texts.domain.items problem.entry.now texts.problem.items plan.entry.now texts.judged.items)) result }
        {
            let command = Validation {
                domain,
                problem,
                plan,
                explains,
            };
            command.answer(rt.alloc(), &texts)
        },
    )
}
