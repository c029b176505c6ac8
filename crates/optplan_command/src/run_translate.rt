//! The command that translates a planning task, over any device.

ghost use Rattle.std.specs.Prelude.{◌≡◌, ◌≢◌, ◌≤◌, ◌+◌, ◌++◌, ℕ, List, Some, map, length, IfOk, IfErr, option_map, string_bytes};
ghost use Rattle.pddl_task.specs.Planning.{IsPlanningTask};
ghost use Rattle.pddl.specs.Texts.{SpellTask};
ghost use Rattle.sasfile_writer.specs.Written.{written};
ghost use Rattle.translate.specs.Translated.{IsReadTask};
ghost use Rattle.optplan_device.specs.Events.{Event, HasPut, Adds};
ghost use Rattle.optplan_explain.specs.Explanations.{IsExplained};
ghost use Rattle.optplan_explain.specs.Files.{task_files};
ghost use Rattle.optplan_replies.specs.Faults.{fault_status};
ghost use Rattle.optplan_replies.specs.Runs.{IsQuiet, IsUnput};
ghost use Rattle.optplan_command.specs.Translating.{IsTranslationText, IsTranslationRefusal, Translates};

use optplan_device::Device;
use optplan_explain::{Sources, refusal_with};
use optplan_replies::{
    Fault, Refusal, Status, put_text, read_task_files, report, report_refusal, task_fault,
};
use pddl::read_task;
use pddl_task::Task;
use sasfile::write_sas;
use std::alloc::{AllocError, Global};
use translate::{ListedVariable, SizeFault, Translated, translate};

/// Returns the number of atoms of each variable.
fn sizes_of(alloc: Global, variables: &[ListedVariable]) -> Result<Vec<usize>, AllocError>
    ensures { IfOk result (λ sizes. sizes.items ≡ map (λ v. length v.places) variables.now) }
{
    let mut sizes = Vec::new(alloc);
    for variable in variables {
        sizes.push(variable.places.len())?;
    }
    Ok(sizes)
}

/// Returns the text of a translated task.
fn text_of(alloc: Global, translated: &Translated) -> Result<Vec<u8>, AllocError>
    ensures { IfOk result (λ text. text.items ≡ written translated.now.task (map (λ v. length v.places) translated.now.variables)) }
{
    let sizes = sizes_of(alloc, translated.variables())?;
    write_sas(alloc, translated.task(), &sizes)
}

/// Returns the text of a translation of a task that texts spell. Fails if the task or its translation exceeds a limit,
/// or if allocation fails.
fn translation_text(alloc: Global, task: &Task) -> Result<Vec<u8>, Fault>
    requires read { IsReadTask task.now }
    requires well { IsPlanningTask task.now }
    ensures text { (domain problem : List ℕ) → SpellTask domain problem task.now →
        IfOk result (λ text. IsTranslationText domain problem text.items) }
    ensures refused { (domain problem : List ℕ) → SpellTask domain problem task.now →
        IfErr result (IsTranslationRefusal domain problem) }
{
    match translate(alloc, task) {
        Ok(translated) => match text_of(alloc, &translated) {
            Ok(text) => Ok(text),
            Err(_) => Err(Fault::OutOfMemory),
        },
        Err(SizeFault::OutOfMemory) => Err(Fault::OutOfMemory),
        Err(SizeFault::GroundLimit) => Err(Fault::GroundLimit),
        Err(SizeFault::Limit(table)) => Err(Fault::TaskTooLarge(table)),
    }
}

/// Returns the text of the translation of the task that the texts spell. Fails with the first fault of the texts, with
/// the limit that is exceeded, or if allocation fails.
fn translation_of(alloc: Global, domain: &[u8], problem: &[u8]) -> Result<Vec<u8>, Fault>
    ensures text { IfOk result (λ text. IsTranslationText domain.now problem.now text.items) }
    ensures refused { IfErr result (IsTranslationRefusal domain.now problem.now) }
{
    match read_task(alloc, domain, problem) {
        Ok(task) => translation_text(alloc, &task),
        Err(fault) => Err(task_fault(alloc, fault, domain, problem)),
    }
}

/// Returns the text of the translation of the task of these files, as `translation_of` does, and a fault with its
/// explanation if that is requested.
#[tactic(auto, using(crate::proofs::Translations::translation_refusal_reported))]
fn explained_translation(
    alloc: Global,
    names: (&str, &str),
    domain: &[u8],
    problem: &[u8],
    explains: bool,
) -> Result<Vec<u8>, Refusal>
    ensures text { IfOk result (λ text. IsTranslationText domain.now problem.now text.items) }
    ensures refused { IfErr result (λ e. IsTranslationRefusal domain.now problem.now e.fault) }
    ensures explained { IfErr result (λ e. IsExplained explains
        (task_files names.entry.0.now domain.now names.entry.1.now problem.now) e.fault (option_map string_bytes e.explanation)) }
{
    match translation_of(alloc, domain, problem) {
        Ok(text) => Ok(text),
        Err(fault) => {
            let sources = Sources::of_task(names.0, domain, names.1, problem);
            Err(refusal_with(alloc, fault, explains, &sources))
        }
    }
}

/// Prints the text, or reports the fault for which there is none, with its explanation, and returns the exit status.
pub(crate) fn reply_text<D: Device>(
    alloc: Global,
    device: &mut D,
    answer: &Result<Vec<u8>, Refusal>,
) -> Status
    ensures answered { result ≢ Status.OutOfMemory → result ≢ Status.DeviceFailed →
        IfOk answer.now (λ text. Adds (D.history device.old) (D.history device.new) (HasPut text.items)) }
    ensures status { result ≢ Status.OutOfMemory → result ≢ Status.DeviceFailed → IfOk answer.now (λ _. result ≡ Status.Done) }
    ensures counted { result ≡ Status.DeviceFailed → IfOk answer.now (λ _. D.failure_count device.old + 1 ≤ D.failure_count device.new) }
    ensures refused { (h : List Event) → D.history device.old ≡ Some h →
        IfErr answer.now (λ e. (later : List Event) × (D.history device.new ≡ Some (h ++ later)) × IsQuiet (option_map string_bytes e.explanation) later) }
    ensures refusal { result ≢ Status.OutOfMemory → IfErr answer.now (λ e. result ≡ fault_status e.fault) }
    ensures unput { result ≡ Status.OutOfMemory → IsUnput (D.history device.old) (D.history device.new) }
{
    match answer {
        Ok(text) => put_text(alloc, device, text, Status::Done),
        Err(refusal) => report_refusal(alloc, device, refusal),
    }
}

/// Translates a planning task: reads the two files, and prints the text of its translation or reports the fault, with
/// its explanation if that is requested. Returns the exit status.
pub fn run_translation<D: Device>(
    alloc: Global,
    device: &mut D,
    domain: &str,
    problem: &str,
    explains: bool,
) -> Status
    ensures done { (h : List Event) → D.history device.old ≡ Some h → D.failure_count device.new ≡ D.failure_count device.old → result ≢ Status.OutOfMemory →
        (new : List Event) × (D.history device.new ≡ Some new) × Translates h new domain.now problem.now explains result }
    ensures device_failed { result ≡ Status.DeviceFailed → D.failure_count device.old + 1 ≤ D.failure_count device.new }
    ensures unput { result ≡ Status.OutOfMemory → IsUnput (D.history device.old) (D.history device.new) }
{
    match read_task_files(alloc, device, domain, problem) {
        Ok((domain_text, problem_text)) => {
            let names = (domain, problem);
            let answer = explained_translation(alloc, names, &domain_text, &problem_text, explains);
            reply_text(alloc, device, &answer)
        }
        Err(fault) => report(alloc, device, &fault),
    }
}
