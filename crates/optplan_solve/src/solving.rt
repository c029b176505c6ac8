//! The command that solves a planning task, over any device.

ghost use Rattle.std.specs.Prelude.{◌≡◌, ◌≢◌, ◌≤◌, ◌+◌, ◌++◌, ℕ, List, Some, IfOk, IfErr, option_map, string_bytes};
ghost use Rattle.optplan_device.specs.Events.{Event};
ghost use Rattle.optplan_explain.specs.Explanations.{IsExplained};
ghost use Rattle.optplan_explain.specs.Files.{task_files};
ghost use Rattle.optplan_replies.specs.Runs.{IsUnput};
ghost use Rattle.optplan_pddl.specs.Answers.{IsPlanningAnswer, IsPrepareRefusal, IsSearchRefusal};
ghost use Rattle.optplan_pddl.specs.Prepared.{IsPrepared};
ghost use Rattle.optplan_solve.specs.Outputs.{files_of, creations, Replies, Concludes};
ghost use Rattle.optplan_solve.specs.Schedules.{EndsBy, IsRefusedBy};
ghost use Rattle.optplan_solve.specs.Solving.{IsTextRefusal, IsSearchReport, Solves};

use crate::clock::start_of;
use crate::faults::search_fault;
use crate::outputs::{create_files, reply_answer};
use crate::settings::{Schedule, Settings};
use crate::watcher::{Narrator, Watcher};
use optplan_device::Device;
use optplan_explain::{Sources, refusal_with};
use optplan_pddl::{PlanningAnswer, PrepareFault, Prepared, prepare};
use optplan_replies::{
    Fault, Refusal, Runtime, Status, read_task_files, report, report_refusal, task_fault,
};
use optplan_solver::SearchFault;
use std::alloc::Global;
use std::time::Instant;
use translate::SizeFault;

/// Converts the fault of the texts into the program's.
fn text_fault(alloc: Global, fault: PrepareFault, domain: &[u8], problem: &[u8]) -> Fault
    requires { IsPrepareRefusal domain.now problem.now fault }
    ensures { IsTextRefusal domain.now problem.now result }
{
    match fault {
        PrepareFault::Reading(fault) => task_fault(alloc, fault, domain, problem),
        PrepareFault::Size(SizeFault::OutOfMemory) => Fault::OutOfMemory,
        PrepareFault::Size(SizeFault::GroundLimit) => Fault::GroundLimit,
        PrepareFault::Size(SizeFault::Limit(table)) => Fault::TaskTooLarge(table),
    }
}

/// The names of the two files of a planning task.
#[derive(Clone, Copy)]
struct TaskNames<'a> {
    domain: &'a str,
    problem: &'a str,
}

/// Returns the task that the texts spell, prepared for a search. Fails with the first fault of the texts, if the task
/// or its translation exceeds a limit, or if allocation fails; with the fault's explanation if that is requested.
#[tactic(auto, using(crate::proofs::Refusals::text_refusal_reported))]
fn prepared(
    alloc: Global,
    names: TaskNames<'_>,
    domain: &[u8],
    problem: &[u8],
    certificate: bool,
    explains: bool,
) -> Result<Prepared, Refusal>
    ensures prepared { IfOk result (IsPrepared certificate domain.now problem.now) }
    ensures refused { IfErr result (λ e. IsTextRefusal domain.now problem.now e.fault) }
    ensures explained { IfErr result (λ e. IsExplained explains
        (task_files names.entry.domain.now domain.now names.entry.problem.now problem.now) e.fault (option_map string_bytes e.explanation)) }
{
    match prepare(alloc, domain, problem, certificate) {
        Ok(prepared) => Ok(prepared),
        Err(fault) => {
            let fault = text_fault(alloc, fault, domain, problem);
            let sources = Sources::of_task(names.domain, domain, names.problem, problem);
            Err(refusal_with(alloc, fault, explains, &sources))
        }
    }
}

/// Returns the answer for a task, by the schedule of the settings, whose seconds count from `start`.
fn planned<R: Runtime>(
    rt: &R,
    prepared: Prepared,
    settings: &Settings<'_>,
    start: Option<Instant>,
) -> Result<PlanningAnswer, SearchFault>
    requires { (domain : List ℕ) × ((problem : List ℕ) × IsPrepared settings.now.options.certificate domain problem prepared) }
    ensures answer { (domain problem : List ℕ) → IsPrepared settings.now.options.certificate domain problem prepared →
        IfOk result (IsPlanningAnswer settings.now.options.certificate domain problem (EndsBy settings.now.options settings.now.schedule)) }
    ensures refused { (domain problem : List ℕ) → IsPrepared settings.now.options.certificate domain problem prepared →
        IfErr result (IsSearchRefusal domain problem (IsRefusedBy settings.now.options settings.now.schedule)) }
{
    match settings.schedule {
        Schedule::Threads(watch) => {
            let workers = settings.options.workers();
            let tells = settings.progress;
            let watcher = Watcher::new(rt, rt.alloc(), watch, workers, tells, start)?;
            prepared.solve(rt, &settings.options, &watcher)
        }
        Schedule::Drawn(seed) => {
            let narrator = Narrator::new(rt, settings.progress);
            prepared.simulate(rt, &settings.options, seed, &narrator)
        }
    }
}

/// Returns the answer for a task, as `planned` does, with the program's fault.
fn answer_of<R: Runtime>(
    rt: &R,
    prepared: Prepared,
    settings: &Settings<'_>,
    start: Option<Instant>,
) -> Result<PlanningAnswer, Fault>
    requires { (domain : List ℕ) × ((problem : List ℕ) × IsPrepared settings.now.options.certificate domain problem prepared) }
    ensures answer { (domain problem : List ℕ) → IsPrepared settings.now.options.certificate domain problem prepared →
        IfOk result (IsPlanningAnswer settings.now.options.certificate domain problem (EndsBy settings.now.options settings.now.schedule)) }
    ensures refused { (domain problem : List ℕ) → IsPrepared settings.now.options.certificate domain problem prepared →
        IfErr result (IsSearchReport domain problem settings.now.options settings.now.schedule) }
{
    match planned(rt, prepared, settings, start) {
        Ok(answer) => Ok(answer),
        Err(fault) => Err(search_fault(fault)),
    }
}

/// Creates the requested files, searches, and writes and prints the answer, or reports a fault. Returns the exit
/// status.
fn solve_prepared<D: Device, R: Runtime>(
    rt: &R,
    device: &mut D,
    prepared: Prepared,
    settings: &Settings<'_>,
    start: Option<Instant>,
) -> Status
    requires { (domain : List ℕ) × ((problem : List ℕ) × IsPrepared settings.now.options.certificate domain problem prepared) }
    ensures done { (h : List Event) (domain problem : List ℕ) → IsPrepared settings.now.options.certificate domain problem prepared →
        D.history device.old ≡ Some h → D.failure_count device.new ≡ D.failure_count device.old → result ≢ Status.OutOfMemory →
        (rest : List Event) × (D.history device.new ≡ Some (h ++ (creations (files_of settings.now) ++ rest)))
        × Replies (IsPlanningAnswer settings.now.options.certificate domain problem (EndsBy settings.now.options settings.now.schedule))
        (IsSearchReport domain problem settings.now.options settings.now.schedule) (files_of settings.now) rest result }
    ensures device_failed { result ≡ Status.DeviceFailed → D.failure_count device.old + 1 ≤ D.failure_count device.new }
    ensures unput { result ≡ Status.OutOfMemory → IsUnput (D.history device.old) (D.history device.new) }
{
    match create_files(device, settings) {
        Ok(()) => {
            let answer = answer_of(rt, prepared, settings, start);
            reply_answer(rt.alloc(), device, &answer, settings)
        }
        Err(fault) => report(rt.alloc(), device, &fault),
    }
}

/// Solves the task that the texts of these files spell, and returns the exit status. The texts are dropped before the
/// search.
fn solve_texts<D: Device, R: Runtime>(
    rt: &R,
    device: &mut D,
    names: TaskNames<'_>,
    domain: Vec<u8>,
    problem: Vec<u8>,
    settings: &Settings<'_>,
) -> Status
    ensures done { (h : List Event) → D.history device.old ≡ Some h → D.failure_count device.new ≡ D.failure_count device.old → result ≢ Status.OutOfMemory →
        (later : List Event) × (D.history device.new ≡ Some (h ++ later))
        × Concludes (IsTextRefusal domain.items problem.items)
        (IsExplained settings.now.explains (task_files names.entry.domain.now domain.items names.entry.problem.now problem.items))
        (IsPlanningAnswer settings.now.options.certificate domain.items problem.items (EndsBy settings.now.options settings.now.schedule))
        (IsSearchReport domain.items problem.items settings.now.options settings.now.schedule) (files_of settings.now) later result }
    ensures device_failed { result ≡ Status.DeviceFailed → D.failure_count device.old + 1 ≤ D.failure_count device.new }
    ensures unput { result ≡ Status.OutOfMemory → IsUnput (D.history device.old) (D.history device.new) }
{
    let start = start_of(rt, settings);
    let certificate = settings.options.certificate();
    let explains = settings.explains;
    let prepared = prepared(rt.alloc(), names, &domain, &problem, certificate, explains);
    drop((domain, problem));
    match prepared {
        Ok(prepared) => solve_prepared(rt, device, prepared, settings, start),
        Err(refusal) => report_refusal(rt.alloc(), device, &refusal),
    }
}

/// Solves a planning task with threads, or by random steps from a seed: reads the two files; if they spell a task,
/// creates or empties the files for the certificate and the plan, if requested; then searches, writes the certificate
/// and the plan, and prints the plan, `unsolvable`, or `limit` with a bound and the best plan so far; or reports a
/// fault, that of a text with its explanation if the settings request one.
///
/// Returns the exit status: `Done` with a cheapest plan, `Unsolvable` if there is none, `Limited` at a limit, or the
/// fault's status. The file for the plan stays empty if there is none. If a file or standard output cannot be written,
/// the others still are, and the status is `DeviceFailed`.
pub fn run_solve<D: Device, R: Runtime>(
    rt: &R,
    device: &mut D,
    domain: &str,
    problem: &str,
    settings: &Settings<'_>,
) -> Status
    ensures done { (h : List Event) → D.history device.old ≡ Some h → D.failure_count device.new ≡ D.failure_count device.old → result ≢ Status.OutOfMemory →
        (new : List Event) × (D.history device.new ≡ Some new)
        × Solves h new domain.now problem.now settings.now.options settings.now.schedule (files_of settings.now) settings.now.explains result }
    ensures device_failed { result ≡ Status.DeviceFailed → D.failure_count device.old + 1 ≤ D.failure_count device.new }
    ensures unput { result ≡ Status.OutOfMemory → IsUnput (D.history device.old) (D.history device.new) }
{
    match read_task_files(rt.alloc(), device, domain, problem) {
        Ok((domain_text, problem_text)) => {
            let names = TaskNames { domain, problem };
            solve_texts(rt, device, names, domain_text, problem_text, settings)
        }
        Err(fault) => report(rt.alloc(), device, &fault),
    }
}
