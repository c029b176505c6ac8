//! The command line.

ghost use Rattle.std.specs.Prelude.{◌≡◌, ◌≢◌, ◌≤◌, ◌+◌, ◌⊎◌, ℕ, List, [], Some, false, IfOk, IfErr, OnErr};
ghost use Rattle.clap.specs.Walk.{Row};
ghost use Rattle.clap.specs.Kinds.{HasKind};
ghost use Rattle.clap.specs.Words.{fault_of, kind_of, subcommand_of};
ghost use Rattle.clap.specs.declared.error.kind.ErrorKind.TheVariants.{DisplayHelp, DisplayVersion, OutOfMemory, ValueValidation};
ghost use Rattle.pddl_names.specs.Names.{texts_of};
ghost use Rattle.optplan_words.specs.Commands.{program};
ghost use Rattle.optplan_device.specs.Events.{Event};
ghost use Rattle.optplan_replies.specs.Runs.{IsUnput};
ghost use Rattle.optplan_optimal.specs.Running.{AskForOptimality, JudgesOptimality};
ghost use Rattle.optplan_verdicts.specs.Validation.{AskForValidation, Validates};
ghost use Rattle.optplan_verdicts.specs.SasChecking.{AskForSasCheck, ChecksSas};
ghost use Rattle.optplan_verdicts.specs.Checking.{AskForCheck, Checks};
ghost use Rattle.optplan_command.specs.Translating.{AskForTranslation, Translates};
ghost use Rattle.optplan_command.specs.Migrating.{AskForMigration, Migrates};
ghost use Rattle.optplan_command.specs.Requests.{DoesRequest, IsMisuse, IsRefusedRequest, value_in};

use crate::file_command::run_files;
use crate::file_words::file_command;
use crate::options::is_set;
use crate::solve_words::{solve_by_words, solving_command};
use clap::Error;
use clap::error::ErrorKind;
use optplan_device::Device;
use optplan_replies::{Fault, Runtime, Status, put_text, report};
use optplan_words::requested;
use std::alloc::Global;

/// Runs the command that `clap` finds in the arguments, and returns the exit status. Fails with the error in the
/// arguments, with help or the version if they are requested, or if allocation fails.
fn run_words<D: Device, R: Runtime>(
    rt: &R,
    words: &[String],
    device: &mut D,
) -> Result<Status, Error>
    ensures done { IfOk result (λ status. (h : List Event) (name : List ℕ) (rows : List Row) → D.history device.old ≡ Some h →
        subcommand_of program (texts_of words.now) ≡ Some (name, rows) → D.failure_count device.new ≡ D.failure_count device.old → status ≢ Status.OutOfMemory →
        (new : List Event) × (D.history device.new ≡ Some new) × DoesRequest name (value_in rows) h new status) }
    ensures fits { IfOk result (λ _. fault_of program (texts_of words.now) ≡ []) }
    ensures kinds { IfErr result (λ e. fault_of program (texts_of words.now) ≢ [] → HasKind (fault_of program (texts_of words.now)) e) }
    ensures refused { IfErr result (λ e. fault_of program (texts_of words.now) ≡ [] → (kind_of e ≡ OutOfMemory) ⊎ ((kind_of e ≡ ValueValidation) ×
        ((name : List ℕ) (rows : List Row) → subcommand_of program (texts_of words.now) ≡ Some (name, rows) → IsRefusedRequest name (value_in rows)))) }
    ensures counted { IfOk result (λ status. status ≡ Status.DeviceFailed → D.failure_count device.old + 1 ≤ D.failure_count device.new) }
    ensures same { OnErr result (D.failure_count device.new ≡ D.failure_count device.old) }
    ensures kept { OnErr result (D.history device.new ≡ D.history device.old) }
    ensures unput { IfOk result (λ status. status ≡ Status.OutOfMemory → IsUnput (D.history device.old) (D.history device.new)) }
{
    let matches = requested(rt.alloc(), words)?;
    let Some((name, words)) = matches.subcommand() else {
        return Ok(Status::Misused);
    };
    if let Some(command) = solving_command(name) {
        return solve_by_words(rt, device, command, words);
    }
    match file_command(name, words) {
        Some(command) => {
            let explains = is_set(words, "explain");
            Ok(run_files(rt, device, command, explains))
        }
        None => Ok(Status::Misused),
    }
}

/// Prints help or the version on standard output, or reports an error in the arguments on standard error. Returns the
/// exit status.
fn show<D: Device>(alloc: Global, device: &mut D, error: &Error) -> Status
    ensures memory { kind_of error.now ≡ OutOfMemory → result ≡ Status.OutOfMemory }
    ensures misused { kind_of error.now ≢ DisplayHelp → kind_of error.now ≢ DisplayVersion → (result ≡ Status.Misused) ⊎ (result ≡ Status.OutOfMemory) }
    ensures counted { result ≡ Status.DeviceFailed → D.failure_count device.old + 1 ≤ D.failure_count device.new }
    ensures unput { result ≡ Status.OutOfMemory → IsUnput (D.history device.old) (D.history device.new) }
{
    let Ok(text) = format!(in alloc; "{error}") else {
        return report(alloc, device, &Fault::OutOfMemory);
    };
    if error.kind() == ErrorKind::OutOfMemory {
        return report(alloc, device, &Fault::OutOfMemory);
    }
    if error.use_stderr() {
        let _ = device.err(text.as_bytes());
        return Status::Misused;
    }
    put_text(alloc, device, text.as_bytes(), Status::Done)
}

/// Runs the whole program: does what the arguments request, the first of which is the program's name, and returns the
/// exit status.
///
/// All I/O is through the device. If a report on standard error fails, the exit status is unchanged.
///
/// The meaning of the arguments, with operands and options in any order, is that of the definitions of `clap`. For a
/// command that works on files alone, none of which begins with `-`, the contract also states it without them, for
/// arguments without `--explain`: then there is at most one report.
pub fn run<D: Device, R: Runtime>(words: &[String], device: &mut D, rt: &R) -> Status
    ensures validates { (h : List Event) (domain problem plan : List ℕ) → D.history device.old ≡ Some h →
        AskForValidation (texts_of words.now) domain problem plan →
        D.failure_count device.new ≡ D.failure_count device.old → result ≢ Status.OutOfMemory →
        (new : List Event) × (D.history device.new ≡ Some new) × Validates h new domain problem plan false result }
    ensures checks_sas { (h : List Event) (sas cert : List ℕ) → D.history device.old ≡ Some h → AskForSasCheck (texts_of words.now) sas cert →
        D.failure_count device.new ≡ D.failure_count device.old → result ≢ Status.OutOfMemory →
        (new : List Event) × (D.history device.new ≡ Some new) × ChecksSas h new sas cert false result }
    ensures checks { (h : List Event) (domain problem cert : List ℕ) → D.history device.old ≡ Some h →
        AskForCheck (texts_of words.now) domain problem cert → D.failure_count device.new ≡ D.failure_count device.old → result ≢ Status.OutOfMemory →
        (new : List Event) × (D.history device.new ≡ Some new) × Checks h new domain problem cert false result }
    ensures judges { (h : List Event) (domain problem plan cert : List ℕ) → D.history device.old ≡ Some h →
        AskForOptimality (texts_of words.now) domain problem plan cert → D.failure_count device.new ≡ D.failure_count device.old → result ≢ Status.OutOfMemory →
        (new : List Event) × (D.history device.new ≡ Some new) × JudgesOptimality h new domain problem plan cert false result }
    ensures translates { (h : List Event) (domain problem : List ℕ) → D.history device.old ≡ Some h →
        AskForTranslation (texts_of words.now) domain problem → D.failure_count device.new ≡ D.failure_count device.old → result ≢ Status.OutOfMemory →
        (new : List Event) × (D.history device.new ≡ Some new) × Translates h new domain problem false result }
    ensures migrates { (h : List Event) (cert : List ℕ) → D.history device.old ≡ Some h → AskForMigration (texts_of words.now) cert →
        D.failure_count device.new ≡ D.failure_count device.old → result ≢ Status.OutOfMemory →
        (new : List Event) × (D.history device.new ≡ Some new) × Migrates h new cert false result }
    ensures requests { (h : List Event) (name : List ℕ) (rows : List Row) → D.history device.old ≡ Some h →
        fault_of program (texts_of words.now) ≡ [] → subcommand_of program (texts_of words.now) ≡ Some (name, rows) →
        D.failure_count device.new ≡ D.failure_count device.old → result ≢ Status.OutOfMemory →
        ((new : List Event) × (D.history device.new ≡ Some new) × DoesRequest name (value_in rows) h new result)
        ⊎ ((result ≡ Status.Misused) × IsRefusedRequest name (value_in rows)) }
    ensures misuses { IsMisuse (fault_of program (texts_of words.now)) → (result ≡ Status.Misused) ⊎ (result ≡ Status.OutOfMemory) }
    ensures device_failed { result ≡ Status.DeviceFailed → D.failure_count device.old + 1 ≤ D.failure_count device.new }
    ensures unput { result ≡ Status.OutOfMemory → IsUnput (D.history device.old) (D.history device.new) }
{
    match run_words(rt, words, device) {
        Ok(status) => status,
        Err(error) => show(rt.alloc(), device, &error),
    }
}
