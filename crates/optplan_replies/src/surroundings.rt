//! The I/O that all commands share: reading files, printing an answer, and reporting a fault.

ghost use Rattle.std.specs.Prelude.{◌≡◌, ◌≢◌, ◌≤◌, ◌+◌, ◌∷◌, [], ◌++◌, ◌⊎◌, List, Some, None, IfOk, IfErr, OnOk, OnErr, option_map, string_bytes};
ghost use Rattle.optplan_device.specs.Events.{Event, HasRead, HasPut, Adds};
ghost use Rattle.optplan_replies.specs.Faults.{fault_status};
ghost use Rattle.optplan_replies.specs.declared.fault.Fault.TheVariants.{OutOfMemory, CannotRead, CannotWrite};
ghost use Rattle.optplan_replies.specs.Runs.{IsDeviceFault, IsQuiet, task_reads, IsUnput};

use crate::fault::{Fault, FileWord};
use crate::refusal::Refusal;
use crate::status::Status;
use optplan_device::{Device, DeviceFault};
use std::alloc::{AllocError, Global};

/// Returns the bytes of a file. Fails with `CannotRead(file)` if the device fails, or with `OutOfMemory` if allocation
/// fails.
pub fn read_file<D: Device>(
    alloc: Global,
    device: &mut D,
    name: &str,
    file: FileWord,
) -> Result<Vec<u8>, Fault>
    ensures told { IfOk result (λ bytes. Adds (D.history device.old) (D.history device.new) (HasRead name.now bytes.items)) }
    ensures word { IfErr result (λ e. (e ≡ OutOfMemory) ⊎ (e ≡ CannotRead file)) }
    ensures same { OnOk result (D.failure_count device.new ≡ D.failure_count device.old) }
    ensures kept { OnErr result (D.history device.new ≡ D.history device.old) }
    ensures failed { IfErr result (λ e. IsDeviceFault e (D.failure_count device.old) (D.failure_count device.new)) }
    ensures unput { IsUnput (D.history device.old) (D.history device.new) }
{
    match device.read(alloc, name) {
        Ok(bytes) => Ok(bytes),
        Err(DeviceFault::Memory) => Err(Fault::OutOfMemory),
        Err(DeviceFault::Failed) => Err(Fault::CannotRead(file)),
    }
}

/// Returns the bytes of the two files of a planning task, read in this order. Fails as `read_file` does.
pub fn read_task_files<D: Device>(
    alloc: Global,
    device: &mut D,
    domain: &str,
    problem: &str,
) -> Result<(Vec<u8>, Vec<u8>), Fault>
    ensures told { (h : List Event) → D.history device.old ≡ Some h →
        IfOk result (λ t. D.history device.new ≡ Some (h ++ task_reads domain.now t.0.items problem.now t.1.items)) }
    ensures same { OnOk result (D.failure_count device.new ≡ D.failure_count device.old) }
    ensures failed { IfErr result (λ e. IsDeviceFault e (D.failure_count device.old) (D.failure_count device.new)) }
    ensures unput { IsUnput (D.history device.old) (D.history device.new) }
{
    let domain = read_file(alloc, device, domain, FileWord::Domain)?;
    let problem = read_file(alloc, device, problem, FileWord::Problem)?;
    Ok((domain, problem))
}

/// Writes a text to standard output. Fails if the device fails, or if allocation fails.
pub fn put<D: Device>(device: &mut D, text: &[u8]) -> Result<(), Fault>
    ensures told { OnOk result (Adds (D.history device.old) (D.history device.new) (HasPut text.now)) }
    ensures word { IfErr result (λ e. (e ≡ OutOfMemory) ⊎ (e ≡ CannotWrite FileWord.Output)) }
    ensures same { OnOk result (D.failure_count device.new ≡ D.failure_count device.old) }
    ensures kept { OnErr result (D.history device.new ≡ D.history device.old) }
    ensures failed { IfErr result (λ e. IsDeviceFault e (D.failure_count device.old) (D.failure_count device.new)) }
{
    match device.out(text) {
        Ok(()) => Ok(()),
        Err(DeviceFault::Memory) => Err(Fault::OutOfMemory),
        Err(DeviceFault::Failed) => Err(Fault::CannotWrite(FileWord::Output)),
    }
}

/// The line for `OutOfMemory`, with its line feed. It is a constant because building it must not allocate.
const OUT_OF_MEMORY_LINE: &[u8] = b"optplan: out of memory\n";

/// Returns the line of a fault, with its line feed.
fn fault_line(alloc: Global, fault: &Fault) -> Result<String, AllocError> {
    format!(in alloc; "optplan: {fault}\n")
}

/// Writes the line of a fault to standard error, and after it the explanation, if there is one and the line was
/// written: there is no explanation without the line. A failure to write is ignored.
#[tactic(auto, using(crate::proofs::Reporting::reporting))]
fn write_report<D: Device>(device: &mut D, line: &[u8], explanation: Option<&str>)
    ensures told { (h : List Event) → D.history device.old ≡ Some h →
        (later : List Event) × (D.history device.new ≡ Some (h ++ later)) × IsQuiet (option_map (λ t. t.now) explanation.entry) later }
    ensures counted { D.failure_count device.old ≤ D.failure_count device.new }
    ensures unput { IsUnput (D.history device.old) (D.history device.new) }
{
    let Ok(()) = device.err(line) else {
        return;
    };
    if let Some(explanation) = explanation {
        let _ = device.err(explanation.as_bytes());
    }
}

/// Reports a fault on standard error, with an explanation after its line if there is one, and returns the fault's exit
/// status. If there is no memory for the fault's line, line and status are those for `OutOfMemory`, without an
/// explanation. A failure to write is ignored.
#[tactic(auto, using(crate::proofs::Reporting::told_without))]
fn report_with<D: Device>(
    alloc: Global,
    device: &mut D,
    fault: &Fault,
    explanation: Option<&str>,
) -> Status
    ensures told { (h : List Event) → D.history device.old ≡ Some h →
        (later : List Event) × (D.history device.new ≡ Some (h ++ later)) × IsQuiet (option_map (λ t. t.now) explanation.entry) later }
    ensures counted { D.failure_count device.old ≤ D.failure_count device.new }
    ensures status { result ≢ Status.OutOfMemory → result ≡ fault_status fault.now }
    ensures unput { IsUnput (D.history device.old) (D.history device.new) }
{
    match fault_line(alloc, fault) {
        Ok(line) => {
            write_report(device, line.as_bytes(), explanation);
            fault.status()
        }
        Err(_) => {
            write_report(device, OUT_OF_MEMORY_LINE, None);
            Status::OutOfMemory
        }
    }
}

/// Reports a fault on standard error and returns the fault's exit status. If there is no memory for the fault's line,
/// line and status are those for `OutOfMemory`. A failure to write the line is ignored.
pub fn report<D: Device>(alloc: Global, device: &mut D, fault: &Fault) -> Status
    ensures told { (h : List Event) → D.history device.old ≡ Some h →
        (later : List Event) × (D.history device.new ≡ Some (h ++ later)) × IsQuiet None later }
    ensures counted { D.failure_count device.old ≤ D.failure_count device.new }
    ensures status { result ≢ Status.OutOfMemory → result ≡ fault_status fault.now }
    ensures unput { IsUnput (D.history device.old) (D.history device.new) }
{
    report_with(alloc, device, fault, None)
}

/// Reports a fault as `report` does, and then its explanation, if there is one. A failure to write it is ignored.
pub fn report_refusal<D: Device>(alloc: Global, device: &mut D, refusal: &Refusal) -> Status
    ensures told { (h : List Event) → D.history device.old ≡ Some h →
        (later : List Event) × (D.history device.new ≡ Some (h ++ later)) × IsQuiet (option_map string_bytes refusal.now.explanation) later }
    ensures counted { D.failure_count device.old ≤ D.failure_count device.new }
    ensures status { result ≢ Status.OutOfMemory → result ≡ fault_status refusal.now.fault }
    ensures unput { IsUnput (D.history device.old) (D.history device.new) }
{
    match &refusal.explanation {
        Some(text) => report_with(alloc, device, &refusal.fault, Some(text.as_str())),
        None => report_with(alloc, device, &refusal.fault, None),
    }
}

/// Writes a text to standard output, and returns this exit status; if that fails, reports the fault, and returns the
/// fault's status.
pub fn put_text<D: Device>(alloc: Global, device: &mut D, text: &[u8], status: Status) -> Status
    ensures told { result ≢ Status.OutOfMemory → result ≢ Status.DeviceFailed → Adds (D.history device.old) (D.history device.new) (HasPut text.now) }
    ensures status { result ≢ Status.OutOfMemory → result ≢ Status.DeviceFailed → result ≡ status }
    ensures counted { result ≡ Status.DeviceFailed → status ≢ Status.DeviceFailed → D.failure_count device.old + 1 ≤ D.failure_count device.new }
    ensures unput { result ≡ Status.OutOfMemory → status ≢ Status.OutOfMemory → IsUnput (D.history device.old) (D.history device.new) }
{
    match put(device, text) {
        Ok(()) => status,
        Err(fault) => report(alloc, device, &fault),
    }
}

/// Prints the answer for the texts of a command's files, or reports their fault with its explanation, and returns the
/// exit status.
pub fn reply<D: Device>(
    alloc: Global,
    device: &mut D,
    answer: &Result<(String, Status), Refusal>,
) -> Status
    ensures answered { result ≢ Status.OutOfMemory → result ≢ Status.DeviceFailed →
        IfOk answer.now (λ r. Adds (D.history device.old) (D.history device.new) (HasPut (string_bytes r.0))) }
    ensures status { result ≢ Status.OutOfMemory → result ≢ Status.DeviceFailed → IfOk answer.now (λ r. result ≡ r.1) }
    ensures counted { result ≡ Status.DeviceFailed →
        IfOk answer.now (λ r. r.1 ≢ Status.DeviceFailed → D.failure_count device.old + 1 ≤ D.failure_count device.new) }
    ensures refused { (h : List Event) → D.history device.old ≡ Some h →
        IfErr answer.now (λ e. (later : List Event) × (D.history device.new ≡ Some (h ++ later)) × IsQuiet (option_map string_bytes e.explanation) later) }
    ensures refusal { result ≢ Status.OutOfMemory → IfErr answer.now (λ e. result ≡ fault_status e.fault) }
    ensures unput { result ≡ Status.OutOfMemory → IfOk answer.now (λ r. r.1 ≢ Status.OutOfMemory) → IsUnput (D.history device.old) (D.history device.new) }
{
    match answer {
        Ok((line, status)) => put_text(alloc, device, line.as_bytes(), *status),
        Err(refusal) => report_refusal(alloc, device, refusal),
    }
}
