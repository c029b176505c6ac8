//! Commands that judge the texts of their files.

ghost use Rattle.std.specs.Prelude.{◌≡◌, ◌≢◌, ◌≤◌, ◌+◌, ◌++◌, ℕ, List, Some, IfOk, codes, string_bytes};
ghost use Rattle.optplan_device.specs.Events.{Event};
ghost use Rattle.optplan_replies.specs.Runs.{AcceptsAll, AnswersAll, IsUnput, Judges};

use crate::fault::Fault;
use crate::refusal::Refusal;
use crate::status::Status;
use crate::surroundings::{reply, report};
use optplan_device::Device;
use std::alloc::{AllocError, Global};
use std::fmt::Display;

/// A command that judges the texts of its files, with their names.
pub trait Judge {
    ghost use Rattle.std.specs.Prelude.{◌≡◌, ◌++◌, ℕ, List, Option, Some, IfOk, IfErr, OnOk};
    ghost use Rattle.optplan_device.specs.Events.{Event};
    ghost use Rattle.optplan_replies.specs.declared.fault.Fault.{Fault};
    ghost use Rattle.optplan_replies.specs.declared.status.Status.{Status};
    ghost use Rattle.optplan_replies.specs.Runs.{IsDeviceFault, IsUnput};

    /// The texts of the files.
    type Texts: Drop;

    /// The events of reading these texts.
    ghost reads: { Self → Self.Texts → List Event };

    /// The line, with its line feed, and the exit status are those of the verdict on the texts.
    ghost is_answer: { Self.Texts → List ℕ → Status → Type 0 };

    /// The texts are refused with this fault.
    ghost is_refusal: { Self.Texts → Fault → Type 0 };

    /// After the line of this fault of the texts, this explanation of it is printed, or none.
    ghost is_explained: { Self → Self.Texts → Fault → Option (List ℕ) → Type 0 };

    /// Returns the texts of the files. Fails as `read_file` does.
    fn read<D: Device>(&self, alloc: Global, device: &mut D) -> Result<Self::Texts, Fault>
        ensures told { (h : List Event) → D.history device.old ≡ Some h → IfOk result (λ t. D.history device.new ≡ Some (h ++ reads self.now t)) }
        ensures same { OnOk result (D.failure_count device.new ≡ D.failure_count device.old) }
        ensures failed { IfErr result (λ e. IsDeviceFault e (D.failure_count device.old) (D.failure_count device.new)) }
        ensures unput { IsUnput (D.history device.old) (D.history device.new) };
}

/// Returns the text of a verdict as a line, with its line feed.
pub fn line_of<V: Display>(alloc: Global, verdict: &V) -> Result<String, AllocError>
    ensures { (text : List ℕ) → V.output verdict.now ≡ Some text → IfOk result (λ line. string_bytes line ≡ text ++ codes "\n") }
{
    let mut line = format!(in alloc; "{verdict}")?;
    line.push('\n')?;
    Ok(line)
}

/// Reads the files of a command, and prints the line of `answer` for their texts or reports its fault, with the
/// explanation that it has. Returns the exit status.
pub fn judge_files<D: Device, J: Judge, F: FnOnce(J::Texts) -> Result<(String, Status), Refusal>>(
    alloc: Global,
    device: &mut D,
    command: &J,
    answer: F,
) -> Status
    requires texts { AcceptsAll (F.pre answer) }
    requires answers { AnswersAll J.is_answer J.is_refusal (J.is_explained command.now) (F.post answer) }
    ensures done { (h : List Event) → D.history device.old ≡ Some h → D.failure_count device.new ≡ D.failure_count device.old → result ≢ Status.OutOfMemory →
        (new : List Event) × (D.history device.new ≡ Some new) × Judges (J.reads command.now) J.is_answer J.is_refusal (J.is_explained command.now) h new result }
    ensures device_failed { result ≡ Status.DeviceFailed → D.failure_count device.old + 1 ≤ D.failure_count device.new }
    ensures unput { result ≡ Status.OutOfMemory → IsUnput (D.history device.old) (D.history device.new) }
{
    match command.read(alloc, device) {
        Ok(texts) => {
            let answered = answer(texts);
            reply(alloc, device, &answered)
        }
        Err(fault) => report(alloc, device, &fault),
    }
}
