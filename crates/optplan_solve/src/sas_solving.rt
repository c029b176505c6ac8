//! The command that solves a finite-domain task, over any device.

ghost use Rattle.std.specs.Prelude.{◌≡◌, ◌≢◌, ◌≤◌, ◌+◌, ◌++◌, ℕ, List, Some, IfOk, IfErr, option_map, string_bytes};
ghost use Rattle.sasfile_reader.specs.SasTexts.{SpellsTask};
ghost use Rattle.optplan_device.specs.Events.{Event};
ghost use Rattle.optplan_explain.specs.Explanations.{IsExplained};
ghost use Rattle.optplan_replies.specs.Runs.{IsUnput};
ghost use Rattle.optplan_sas.specs.SasAnswers.{IsSasAnswer};
ghost use Rattle.optplan_solve.specs.Outputs.{files_of, creations, Replies, Concludes};
ghost use Rattle.optplan_solve.specs.Schedules.{EndsBy, IsRefusedBy};
ghost use Rattle.optplan_solve.specs.SasSolving.{files, IsSasTextRefusal, IsSasSearchReport, SolvesSas};

use crate::clock::start_of;
use crate::faults::search_fault;
use crate::outputs::{create_files, reply_answer};
use crate::settings::{Schedule, Settings};
use crate::watcher::{Narrator, Watcher};
use fdr::FdrTask;
use optplan_device::Device;
use optplan_explain::{Sources, refusal_with};
use optplan_replies::{
    Fault, FileWord, Refusal, Runtime, Status, read_file, report, report_refusal,
};
use optplan_sas::{SasAnswer, simulate_task, solve_task};
use optplan_solver::SearchFault;
use sasfile::read_sas;
use std::alloc::Global;
use std::time::Instant;

/// Returns the task that the text of a file spells. Fails with the first fault of the text, or if allocation fails;
/// with the fault's explanation if that is requested.
#[tactic(auto, using(crate::proofs::Refusals::sas_text_refusal_reported))]
fn task_in(alloc: Global, name: &str, sas: &[u8], explains: bool) -> Result<FdrTask, Refusal>
    ensures spelled { IfOk result (SpellsTask sas.now) }
    ensures refused { IfErr result (λ e. IsSasTextRefusal sas.now e.fault) }
    ensures explained { IfErr result (λ e. IsExplained explains (files name.now sas.now) e.fault (option_map string_bytes e.explanation)) }
{
    match read_sas(alloc, sas) {
        Ok(task) => Ok(task),
        Err(fault) => {
            let sources = Sources::none().with_sas(name, sas);
            Err(refusal_with(alloc, Fault::from(fault), explains, &sources))
        }
    }
}

/// Returns the answer for a task, by the schedule of the settings, whose seconds count from `start`.
fn solved<R: Runtime>(
    rt: &R,
    task: &FdrTask,
    settings: &Settings<'_>,
    start: Option<Instant>,
) -> Result<SasAnswer, SearchFault>
    ensures answer { (sas : List ℕ) → SpellsTask sas task.now →
        IfOk result (IsSasAnswer settings.now.options.certificate sas (EndsBy settings.now.options settings.now.schedule)) }
    ensures refused { IfErr result (IsRefusedBy settings.now.options settings.now.schedule task.now) }
{
    match settings.schedule {
        Schedule::Threads(watch) => {
            let workers = settings.options.workers();
            let tells = settings.progress;
            let watcher = Watcher::new(rt, rt.alloc(), watch, workers, tells, start)?;
            solve_task(rt, task, &settings.options, &watcher)
        }
        Schedule::Drawn(seed) => {
            let narrator = Narrator::new(rt, settings.progress);
            simulate_task(rt, task, &settings.options, seed, &narrator)
        }
    }
}

/// Returns the answer for a task, as `solved` does, with the program's fault.
fn answer_of<R: Runtime>(
    rt: &R,
    task: &FdrTask,
    settings: &Settings<'_>,
    start: Option<Instant>,
) -> Result<SasAnswer, Fault>
    ensures answer { (sas : List ℕ) → SpellsTask sas task.now →
        IfOk result (IsSasAnswer settings.now.options.certificate sas (EndsBy settings.now.options settings.now.schedule)) }
    ensures refused { (sas : List ℕ) → SpellsTask sas task.now → IfErr result (IsSasSearchReport sas settings.now.options settings.now.schedule) }
{
    match solved(rt, task, settings, start) {
        Ok(answer) => Ok(answer),
        Err(fault) => Err(search_fault(fault)),
    }
}

/// Creates the requested files, searches, and writes and prints the answer, or reports a fault. Returns the exit
/// status.
fn solve_read<D: Device, R: Runtime>(
    rt: &R,
    device: &mut D,
    task: &FdrTask,
    settings: &Settings<'_>,
    start: Option<Instant>,
) -> Status
    requires { (sas : List ℕ) × SpellsTask sas task.now }
    ensures done { (h : List Event) (sas : List ℕ) → SpellsTask sas task.now →
        D.history device.old ≡ Some h → D.failure_count device.new ≡ D.failure_count device.old → result ≢ Status.OutOfMemory →
        (rest : List Event) × (D.history device.new ≡ Some (h ++ (creations (files_of settings.now) ++ rest)))
        × Replies (IsSasAnswer settings.now.options.certificate sas (EndsBy settings.now.options settings.now.schedule))
        (IsSasSearchReport sas settings.now.options settings.now.schedule) (files_of settings.now) rest result }
    ensures device_failed { result ≡ Status.DeviceFailed → D.failure_count device.old + 1 ≤ D.failure_count device.new }
    ensures unput { result ≡ Status.OutOfMemory → IsUnput (D.history device.old) (D.history device.new) }
{
    match create_files(device, settings) {
        Ok(()) => {
            let answer = answer_of(rt, task, settings, start);
            reply_answer(rt.alloc(), device, &answer, settings)
        }
        Err(fault) => report(rt.alloc(), device, &fault),
    }
}

/// Solves the task that the text of this file spells, and returns the exit status. The text is dropped before the
/// search.
fn solve_text<D: Device, R: Runtime>(
    rt: &R,
    device: &mut D,
    name: &str,
    sas: Vec<u8>,
    settings: &Settings<'_>,
) -> Status
    ensures done { (h : List Event) → D.history device.old ≡ Some h → D.failure_count device.new ≡ D.failure_count device.old → result ≢ Status.OutOfMemory →
        (later : List Event) × (D.history device.new ≡ Some (h ++ later))
        × Concludes (IsSasTextRefusal sas.items) (IsExplained settings.now.explains (files name.now sas.items))
        (IsSasAnswer settings.now.options.certificate sas.items (EndsBy settings.now.options settings.now.schedule))
        (IsSasSearchReport sas.items settings.now.options settings.now.schedule) (files_of settings.now) later result }
    ensures device_failed { result ≡ Status.DeviceFailed → D.failure_count device.old + 1 ≤ D.failure_count device.new }
    ensures unput { result ≡ Status.OutOfMemory → IsUnput (D.history device.old) (D.history device.new) }
{
    let start = start_of(rt, settings);
    let task = task_in(rt.alloc(), name, &sas, settings.explains);
    drop(sas);
    match task {
        Ok(task) => solve_read(rt, device, &task, settings, start),
        Err(refusal) => report_refusal(rt.alloc(), device, &refusal),
    }
}

/// Solves a finite-domain task with threads, or by random steps from a seed: reads the file; if it spells a task,
/// creates or empties the files for the certificate and the plan, if requested; then searches, writes the certificate
/// and the plan, and prints the plan, `unsolvable`, or `limit` with a bound and the best plan so far; or reports a
/// fault, that of the text with its explanation if the settings request one.
///
/// Returns the exit status: `Done` with a cheapest plan, `Unsolvable` if there is none, `Limited` at a limit, or the
/// fault's status. The file for the plan stays empty if there is none. If a file or standard output cannot be written,
/// the others still are, and the status is `DeviceFailed`.
pub fn run_solve_sas<D: Device, R: Runtime>(
    rt: &R,
    device: &mut D,
    sas: &str,
    settings: &Settings<'_>,
) -> Status
    ensures done { (h : List Event) → D.history device.old ≡ Some h → D.failure_count device.new ≡ D.failure_count device.old → result ≢ Status.OutOfMemory →
        (new : List Event) × (D.history device.new ≡ Some new) ×
        SolvesSas h new sas.now settings.now.options settings.now.schedule (files_of settings.now) settings.now.explains result }
    ensures device_failed { result ≡ Status.DeviceFailed → D.failure_count device.old + 1 ≤ D.failure_count device.new }
    ensures unput { result ≡ Status.OutOfMemory → IsUnput (D.history device.old) (D.history device.new) }
{
    match read_file(rt.alloc(), device, sas, FileWord::Sas) {
        Ok(text) => solve_text(rt, device, sas, text, settings),
        Err(fault) => report(rt.alloc(), device, &fault),
    }
}
