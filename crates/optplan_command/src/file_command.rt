//! The commands that work on files alone.

ghost use Rattle.std.specs.Prelude.{◌≡◌, ◌≢◌, ◌≤◌, ◌+◌, List, Some};
ghost use Rattle.optplan_device.specs.Events.{Event};
ghost use Rattle.optplan_replies.specs.Runs.{IsUnput};
ghost use Rattle.optplan_command.specs.FileCommands.{DoesCommand};

use crate::run_migrate_cert::run_migration;
use crate::run_translate::run_translation;
use optplan_device::Device;
use optplan_optimal::run_optimality;
use optplan_replies::Status;
use optplan_verdicts::{run_planning_check, run_sas_check, run_validation};
use std::thread::Threads;

/// A command that works on files alone, with their names.
#[derive(Clone, Copy, Debug)]
pub(crate) enum FileCommand<'a> {
    /// Validates a plan.
    Validate {
        domain: &'a str,
        problem: &'a str,
        plan: &'a str,
    },
    /// Checks a certificate for a planning task.
    Check {
        domain: &'a str,
        problem: &'a str,
        cert: &'a str,
    },
    /// Checks a certificate for a finite-domain task.
    CheckSas {
        sas: &'a str,
        cert: &'a str,
    },
    /// Judges whether a plan is optimal.
    Optimal {
        domain: &'a str,
        problem: &'a str,
        plan: &'a str,
        cert: &'a str,
    },
    /// Translates a planning task.
    Translate {
        domain: &'a str,
        problem: &'a str,
    },
    /// Prints a certificate, one of version 1 as version 2.
    MigrateCert {
        cert: &'a str,
    },
}

/// Runs the command, which explains a fault of its texts if that is requested, and returns the exit status.
pub(crate) fn run_files<D: Device, R: AllocGlobal + Threads + Sync>(
    rt: &R,
    device: &mut D,
    command: FileCommand<'_>,
    explains: bool,
) -> Status
    ensures done { (h : List Event) → D.history device.old ≡ Some h → D.failure_count device.new ≡ D.failure_count device.old → result ≢ Status.OutOfMemory →
        (new : List Event) × (D.history device.new ≡ Some new) × DoesCommand h new command.entry explains result }
    ensures device_failed { result ≡ Status.DeviceFailed → D.failure_count device.old + 1 ≤ D.failure_count device.new }
    ensures unput { result ≡ Status.OutOfMemory → IsUnput (D.history device.old) (D.history device.new) }
{
    match command {
        FileCommand::Validate {
            domain,
            problem,
            plan,
        } => run_validation(rt, device, domain, problem, plan, explains),
        FileCommand::Check {
            domain,
            problem,
            cert,
        } => run_planning_check(rt, device, domain, problem, cert, explains),
        FileCommand::CheckSas { sas, cert } => run_sas_check(rt, device, sas, cert, explains),
        FileCommand::Optimal {
            domain,
            problem,
            plan,
            cert,
        } => run_optimality(rt, device, domain, problem, plan, cert, explains),
        FileCommand::Translate { domain, problem } => {
            run_translation(rt.alloc(), device, domain, problem, explains)
        }
        FileCommand::MigrateCert { cert } => run_migration(rt.alloc(), device, cert, explains),
    }
}
