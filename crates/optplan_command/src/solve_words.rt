//! The arguments of the commands that solve a task.

ghost use Rattle.std.specs.Prelude.{◌≡◌, ◌≢◌, ◌≤◌, ◌+◌, ◌⊎◌, List, Some, IfOk, IfErr, IfSome, IfNone, OnErr, codes};
ghost use Rattle.clap.specs.Matches.{found_of, first_value};
ghost use Rattle.clap.specs.Words.{kind_of};
ghost use Rattle.clap.specs.declared.error.kind.ErrorKind.TheVariants.{OutOfMemory, ValueValidation};
ghost use Rattle.optplan_options.specs.Choices.{Choices};
ghost use Rattle.optplan_solve.specs.declared.settings.Schedule.{Schedule as ScheduleOf};
ghost use Rattle.optplan_device.specs.Events.{Event};
ghost use Rattle.optplan_replies.specs.Runs.{IsUnput};
ghost use Rattle.optplan_command.specs.Options.{AreChoicesOf, IsScheduleOf, AreSettingsOf};
ghost use Rattle.optplan_command.specs.SolveWords.{HasRefusedValue};
ghost use Rattle.optplan_command.specs.SolvingCommands.{name_of, Solved};

use crate::options::{
    RefusedValue, is_set, number_for, own_file, reduction_for, tables_for, ties_for,
};
use clap::{ArgMatches, Command, Error};
use optplan_device::Device;
use optplan_replies::{Runtime, Status};
use optplan_solve::{Schedule, Settings, Watch, run_solve, run_solve_sas};
use optplan_solver::{MAX_RING, MAX_TABLE, MAX_WORKERS, Options};
use optplan_words::{solve_command, solve_sas_command};
use std::alloc::{AllocError, Global};

/// The greatest number of most options, 2^63 - 1.
const MAX_NUMBER: u64 = 9_223_372_036_854_775_807;

/// Returns the options of the search; an option that the arguments omit is as in `Options::new`, but threads search in
/// stages and with a reduction, and a certificate is made only if its file is named. Fails with the first value that is
/// refused.
fn search_options<'a>(words: &ArgMatches<'a>) -> Result<Options, RefusedValue<'a>>
    ensures taken { IfOk result (AreChoicesOf (λ name. first_value (found_of words.now) name)) }
    ensures refused { IfErr result (λ _. (choices : Choices) → AreChoicesOf (λ name. first_value (found_of words.now) name) choices → ⊥) }
{
    let plain = Options::new();
    let workers = number_for(words, "workers", 1, MAX_WORKERS as u64)?.unwrap_or(
        plain.workers() as u64,
    );
    let table = number_for(words, "table", 1, MAX_TABLE as u64)?.unwrap_or(plain.table() as u64);
    let limit = number_for(words, "limit", 0, MAX_NUMBER)?;
    let steps = number_for(words, "steps", 0, MAX_NUMBER)?.unwrap_or(plain.steps());
    let ring = number_for(words, "ring", 1, MAX_RING as u64)?.unwrap_or(plain.ring() as u64);
    let is_simulated = words.get_str("simulate").is_some();
    let ties = ties_for(words, "ties", is_simulated)?;
    let requires_goal = words.get_str("table").is_some() || is_simulated;
    let tables = tables_for(words, "tables", requires_goal)?;
    let has_reduction = reduction_for(words, "reduce", is_simulated)?;
    let has_certificate = words.get_str("cert").is_some();
    let options = plain
        .with_workers(workers as usize)
        .with_table(table as usize)
        .with_ring(ring as usize)
        .with_steps(steps)
        .with_ties(ties)
        .with_certificate(has_certificate)
        .with_reduction(has_reduction)
        .with_tables(tables);
    match limit {
        Some(limit) => Ok(options.with_limit(limit)),
        None => Ok(options),
    }
}

/// Returns the schedule that the arguments request: random steps from a seed, or, if they name no seed, threads, with
/// the seconds and the memory that the arguments name, if any. Fails with the first value that is refused.
fn schedule_of<'a>(words: &ArgMatches<'a>) -> Result<Schedule, RefusedValue<'a>>
    ensures taken { IfOk result (IsScheduleOf (λ name. first_value (found_of words.now) name)) }
    ensures refused { IfErr result (λ _. (schedule : ScheduleOf) → IsScheduleOf (λ name. first_value (found_of words.now) name) schedule → ⊥) }
{
    let seed = number_for(words, "simulate", 0, MAX_NUMBER)?;
    let seconds = number_for(words, "time", 0, MAX_NUMBER)?;
    let mebibytes = number_for(words, "memory", 0, MAX_NUMBER)?;
    match seed {
        Some(seed) => Ok(Schedule::Drawn(seed)),
        None => Ok(Schedule::Threads(Watch { seconds, mebibytes })),
    }
}

/// Returns the settings that the arguments request, apart from the task. Fails with the first value that is refused.
fn settings_of<'a>(words: &ArgMatches<'a>) -> Result<Settings<'a>, RefusedValue<'a>>
    ensures taken { IfOk result (AreSettingsOf (λ name. first_value (found_of words.now) name)) }
    ensures refused { IfErr result (λ _. HasRefusedValue (λ name. first_value (found_of words.now) name)) }
{
    let schedule = schedule_of(words)?;
    let options = search_options(words)?;
    let cert = own_file(words, "cert", None)?;
    let plan = own_file(words, "plan", cert)?;
    Ok(Settings {
        options,
        schedule,
        progress: words.get_flag("progress"),
        explains: is_set(words, "explain"),
        plan,
        cert,
    })
}

/// A command that solves a task.
#[derive(Clone, Copy, Debug)]
pub(crate) enum SolvingCommand {
    /// Solves a planning task.
    Solve,
    /// Solves a finite-domain task.
    SolveSas,
}

/// Returns the command of this name, if it solves a task.
pub(crate) fn solving_command(name: &str) -> Option<SolvingCommand>
    ensures some { IfSome result (λ command. name.now ≡ name_of command) }
    ensures none { IfNone result ((name.now ≢ codes "solve") × (name.now ≢ codes "solve-sas")) }
{
    match name {
        "solve" => Some(SolvingCommand::Solve),
        "solve-sas" => Some(SolvingCommand::SolveSas),
        _ => None,
    }
}

impl SolvingCommand {
    /// Returns the command's definition, for the usage that an error in its arguments shows.
    fn definition<'a>(self, alloc: Global) -> Result<Command<'a>, AllocError> {
        match self {
            SolvingCommand::Solve => solve_command(alloc, "optplan solve"),
            SolvingCommand::SolveSas => solve_sas_command(alloc, "optplan solve-sas"),
        }
    }
}

/// Solves a task as the arguments of this command request, and returns the exit status. Fails with the command's error
/// for the first value that is refused, or if allocation fails.
pub(crate) fn solve_by_words<D: Device, R: Runtime>(
    rt: &R,
    device: &mut D,
    command: SolvingCommand,
    words: &ArgMatches<'_>,
) -> Result<Status, Error>
    ensures done { IfOk result (λ status. (h : List Event) → D.history device.old ≡ Some h → D.failure_count device.new ≡ D.failure_count device.old →
        status ≢ Status.OutOfMemory →
        (new : List Event) × (D.history device.new ≡ Some new) × Solved command (λ name. first_value (found_of words.now) name) h new status) }
    ensures counted { IfOk result (λ status. status ≡ Status.DeviceFailed → D.failure_count device.old + 1 ≤ D.failure_count device.new) }
    ensures same { OnErr result (D.failure_count device.new ≡ D.failure_count device.old) }
    ensures refused { IfErr result (λ e. (kind_of e ≡ OutOfMemory) ⊎ ((kind_of e ≡ ValueValidation) ×
        HasRefusedValue (λ name. first_value (found_of words.now) name))) }
    ensures kept { OnErr result (D.history device.new ≡ D.history device.old) }
    ensures unput { IfOk result (λ status. status ≡ Status.OutOfMemory → IsUnput (D.history device.old) (D.history device.new)) }
{
    let settings = match settings_of(words) {
        Ok(settings) => settings,
        Err(refused) => {
            let definition = command.definition(rt.alloc())?;
            return Err(refused.error(rt.alloc(), definition));
        }
    };
    match command {
        SolvingCommand::Solve => {
            let domain = words.get_str("DOMAIN").unwrap_or("");
            let problem = words.get_str("PROBLEM").unwrap_or("");
            Ok(run_solve(rt, device, domain, problem, &settings))
        }
        SolvingCommand::SolveSas => {
            let sas = words.get_str("SAS").unwrap_or("");
            Ok(run_solve_sas(rt, device, sas, &settings))
        }
    }
}
