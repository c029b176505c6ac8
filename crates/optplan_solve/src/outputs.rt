//! The files and the output of an answer.

ghost use Rattle.std.specs.Prelude.{◌≡◌, ◌≢◌, ◌≤◌, ◌+◌, ◌++◌, ◌∷◌, [], List, Some, None, IfOk, IfErr, OnOk, IsErrAnd, IsTrue, ◌↔◌, string_bytes};
ghost use Rattle.std.specs.Option.{option_map};
ghost use Rattle.cert_text.specs.Spelling.{spelling};
ghost use Rattle.optplan_device.specs.Events.{Event, HasPut};
ghost use Rattle.optplan_replies.specs.Faults.{fault_status};
ghost use Rattle.optplan_replies.specs.Runs.{IsDeviceFault, IsQuiet, IsUnput};
ghost use Rattle.optplan_solve.specs.Outputs.{files_of, writes, text_writes, certificate_of, plan_text_of, best_text, limit_text, answer_text, creations, length_line, length_report, outputs, answer_status, IsOutputFault};

use crate::settings::Settings;
use cert::{MAX_LENGTH, write_cert};
use cert_value::Certificate;
use optplan_device::{Device, DeviceFault};
use optplan_replies::{Fault, FileWord, Status, put, report};
use optplan_solver::{Answer, SoFar, WrittenPlan};
use std::alloc::{AllocError, Global};

/// Returns the text of the best plan so far, empty if there is none.
fn best_text<P: Drop>(best: &Option<WrittenPlan<P>>) -> &str
    ensures { result.now ≡ best_text best.now }
{
    match best {
        Some(best) => best.plan_text.as_str(),
        None => "",
    }
}

/// Returns the output at a limit: a line with the bound, followed by the best plan so far.
fn limit_text<P: Drop>(alloc: Global, known: &SoFar<WrittenPlan<P>>) -> Result<String, AllocError>
    ensures { IfOk result (λ text. string_bytes text ≡ limit_text known.now) }
{
    let bound = known.bound;
    let best = best_text(&known.best);
    format!(in alloc; "limit {bound}\n{best}")
}

/// Returns the output: the plan, or a line, which at a limit is followed by the best plan so far.
fn answer_text<P: Drop>(
    alloc: Global,
    answer: &Answer<WrittenPlan<P>>,
) -> Result<String, AllocError>
    ensures { IfOk result (λ text. string_bytes text ≡ answer_text answer.now) }
{
    match answer {
        Answer::Solved(solution) => String::from_str(alloc, solution.found.plan_text.as_str()),
        Answer::Unsolvable(_) => String::from_str(alloc, "unsolvable\n"),
        Answer::Limit(known) => limit_text(alloc, known),
    }
}

/// Returns the exit status of an answer.
fn answer_status<P: Drop>(answer: &Answer<WrittenPlan<P>>) -> Status
    ensures status { result ≡ answer_status answer.now }
    ensures answered { (result ≢ Status.OutOfMemory) × (result ≢ Status.DeviceFailed) }
{
    match answer {
        Answer::Solved(_) => Status::Done,
        Answer::Unsolvable(_) => Status::Unsolvable,
        Answer::Limit(_) => Status::Limited,
    }
}

/// Writes a file, if it has a name. Fails with `CannotWrite(file)` if the device fails, or if allocation fails.
fn write_file<D: Device>(
    device: &mut D,
    name: Option<&str>,
    bytes: &[u8],
    file: FileWord,
) -> Result<(), Fault>
    ensures told { (h : List Event) → D.history device.old ≡ Some h →
        OnOk result (D.history device.new ≡ Some (h ++ writes (option_map (λ n. n.now) name.entry) bytes.now)) }
    ensures same { OnOk result (D.failure_count device.new ≡ D.failure_count device.old) }
    ensures failed { IfErr result (λ e. IsDeviceFault e (D.failure_count device.old) (D.failure_count device.new)) }
    ensures unput { IsUnput (D.history device.old) (D.history device.new) }
{
    let Some(name) = name else {
        return Ok(());
    };
    match device.write(name, bytes) {
        Ok(()) => Ok(()),
        Err(DeviceFault::Memory) => Err(Fault::OutOfMemory),
        Err(DeviceFault::Failed) => Err(Fault::CannotWrite(file)),
    }
}

/// Returns the certificate of an answer, if it has one.
fn certificate_of<P: Drop>(answer: &Answer<WrittenPlan<P>>) -> &Option<Certificate>
    ensures { result.now ≡ certificate_of answer.now }
{
    match answer {
        Answer::Solved(solution) => &solution.certificate,
        Answer::Unsolvable(certificate) => certificate,
        Answer::Limit(known) => &known.certificate,
    }
}

/// Returns the text of an answer's plan, if there is a plan.
fn plan_text_of<P: Drop>(answer: &Answer<WrittenPlan<P>>) -> Option<&str>
    ensures { option_map (λ t. t.now) result ≡ plan_text_of answer.now }
{
    match answer {
        Answer::Solved(solution) => Some(solution.found.plan_text.as_str()),
        Answer::Unsolvable(_) => None,
        Answer::Limit(known) => match &known.best {
            Some(best) => Some(best.plan_text.as_str()),
            None => None,
        },
    }
}

/// Returns the text of the certificate, if there is one.
fn certificate_text(
    alloc: Global,
    certificate: &Option<Certificate>,
) -> Result<Option<Vec<u8>>, AllocError>
    ensures { IfOk result (λ text. option_map (λ t. t.items) text ≡ option_map spelling certificate.now) }
{
    match certificate {
        Some(certificate) => Ok(Some(write_cert(alloc, certificate)?)),
        None => Ok(None),
    }
}

/// Writes the certificate to a file, if there is one and the file has a name. Fails as `write_file` does.
fn write_certificate<D: Device>(
    device: &mut D,
    name: Option<&str>,
    cert: &Option<Vec<u8>>,
) -> Result<(), Fault>
    ensures told { (h : List Event) → D.history device.old ≡ Some h →
        OnOk result (D.history device.new ≡ Some (h ++ text_writes (option_map (λ n. n.now) name.entry) (option_map (λ t. t.items) cert.now))) }
    ensures same { OnOk result (D.failure_count device.new ≡ D.failure_count device.old) }
    ensures failed { IfErr result (λ e. IsDeviceFault e (D.failure_count device.old) (D.failure_count device.new)) }
    ensures unput { IsUnput (D.history device.old) (D.history device.new) }
{
    match cert {
        Some(cert) => write_file(device, name, cert, FileWord::Cert),
        None => Ok(()),
    }
}

/// Writes a plan to a file, if there is a plan and the file has a name. Fails as `write_file` does.
fn write_plan<D: Device>(
    device: &mut D,
    name: Option<&str>,
    plan: Option<&str>,
) -> Result<(), Fault>
    ensures told { (h : List Event) → D.history device.old ≡ Some h →
        OnOk result (D.history device.new ≡ Some (h ++ text_writes (option_map (λ n. n.now) name.entry) (option_map (λ t. t.now) plan.entry))) }
    ensures same { OnOk result (D.failure_count device.new ≡ D.failure_count device.old) }
    ensures failed { IfErr result (λ e. IsDeviceFault e (D.failure_count device.old) (D.failure_count device.new)) }
    ensures unput { IsUnput (D.history device.old) (D.history device.new) }
{
    match plan {
        Some(plan) => write_file(device, name, plan.as_bytes(), FileWord::Plan),
        None => Ok(()),
    }
}

/// Creates the files that are requested, or empties them: the certificate's first. Fails as `write_file` does.
pub(crate) fn create_files<D: Device>(device: &mut D, settings: &Settings<'_>) -> Result<(), Fault>
    ensures told { (h : List Event) → D.history device.old ≡ Some h →
        OnOk result (D.history device.new ≡ Some (h ++ creations (files_of settings.now))) }
    ensures same { OnOk result (D.failure_count device.new ≡ D.failure_count device.old) }
    ensures failed { IfErr result (λ e. IsDeviceFault e (D.failure_count device.old) (D.failure_count device.new)) }
    ensures unput { IsUnput (D.history device.old) (D.history device.new) }
{
    write_file(device, settings.cert, &[], FileWord::Cert)?;
    write_file(device, settings.plan, &[], FileWord::Plan)
}

/// Returns the line that reports a certificate as too long for the checker.
fn length_line(alloc: Global, length: usize) -> Result<String, AllocError>
    ensures { IfOk result (λ line. string_bytes line ≡ length_line length) }
{
    format!(in alloc;
        "optplan: the certificate has {length} bytes, and check reads at most 1073741824\n"
    )
}

/// Reports a certificate that is too long for the checker. That the device fails is ignored. Fails if allocation fails.
fn report_length<D: Device>(
    alloc: Global,
    device: &mut D,
    cert: &Option<Vec<u8>>,
) -> Result<(), AllocError>
    ensures told { (h : List Event) → D.history device.old ≡ Some h → D.failure_count device.new ≡ D.failure_count device.old →
        OnOk result (D.history device.new ≡ Some (h ++ length_report (option_map (λ t. t.items) cert.now))) }
    ensures counted { D.failure_count device.old ≤ D.failure_count device.new }
    ensures unput { IsUnput (D.history device.old) (D.history device.new) }
{
    let Some(cert) = cert else {
        return Ok(());
    };
    if cert.len() <= MAX_LENGTH {
        return Ok(());
    }
    let line = length_line(alloc, cert.len())?;
    match device.err(line.as_bytes()) {
        Ok(()) | Err(DeviceFault::Failed) => Ok(()),
        Err(DeviceFault::Memory) => Err(AllocError),
    }
}

/// Returns whether allocation failed.
fn is_out_of_memory(written: &Result<(), Fault>) -> bool
    ensures { IsTrue result ↔ IsErrAnd written.now (λ e. fault_status e ≡ Status.OutOfMemory) }
{
    match written {
        Err(fault) => fault.status() == Status::OutOfMemory,
        Ok(()) => false,
    }
}

/// Writes the files that are requested, the certificate's first, and prints the text. What the device fails to write
/// does not keep the rest from being written; a failure to allocate does. Fails with the first failure.
fn write_all<D: Device>(
    device: &mut D,
    cert: &Option<Vec<u8>>,
    plan: Option<&str>,
    text: &str,
    settings: &Settings<'_>,
) -> Result<(), Fault>
    ensures told { (h : List Event) → D.history device.old ≡ Some h →
        OnOk result (D.history device.new ≡ Some (h ++ ((text_writes (files_of settings.now).cert (option_map (λ t. t.items) cert.now)
        ++ text_writes (files_of settings.now).plan (option_map (λ t. t.now) plan.entry)) ++ HasPut text.now ∷ []))) }
    ensures same { OnOk result (D.failure_count device.new ≡ D.failure_count device.old) }
    ensures failed { IfErr result (IsOutputFault (D.failure_count device.old) (D.failure_count device.new)) }
    ensures unput { IfErr result (λ e. fault_status e ≡ Status.OutOfMemory → IsUnput (D.history device.old) (D.history device.new)) }
{
    let cert_written = write_certificate(device, settings.cert, cert);
    if is_out_of_memory(&cert_written) {
        return cert_written;
    }
    let plan_written = write_plan(device, settings.plan, plan);
    if is_out_of_memory(&plan_written) {
        cert_written?;
        return plan_written;
    }
    let printed = put(device, text.as_bytes());
    cert_written?;
    plan_written?;
    printed
}

/// Writes an answer's files and prints its plan or line, and returns the exit status. The texts are made before
/// anything is written, so that running out of memory for them writes and prints nothing.
fn put_answer<D: Device, P: Drop>(
    alloc: Global,
    device: &mut D,
    answer: &Answer<WrittenPlan<P>>,
    settings: &Settings<'_>,
) -> Status
    ensures told { (h : List Event) → D.history device.old ≡ Some h → D.failure_count device.new
        ≡ D.failure_count device.old → result ≢ Status.OutOfMemory → result ≢ Status.DeviceFailed →
        D.history device.new ≡ Some (h ++ outputs (files_of settings.now) answer.now) }
    ensures status { result ≢ Status.OutOfMemory → result ≢ Status.DeviceFailed → result ≡ answer_status answer.now }
    ensures counted { result ≡ Status.DeviceFailed → D.failure_count device.old + 1 ≤ D.failure_count device.new }
    ensures unput { result ≡ Status.OutOfMemory → IsUnput (D.history device.old) (D.history device.new) }
{
    let Ok(text) = answer_text(alloc, answer) else {
        return report(alloc, device, &Fault::OutOfMemory);
    };
    let Ok(cert) = certificate_text(alloc, certificate_of(answer)) else {
        return report(alloc, device, &Fault::OutOfMemory);
    };
    let Ok(()) = report_length(alloc, device, &cert) else {
        return report(alloc, device, &Fault::OutOfMemory);
    };
    match write_all(device, &cert, plan_text_of(answer), text.as_str(), settings) {
        Ok(()) => answer_status(answer),
        // The text may be printed by now, so the status is the fault's even if there is no memory for its line.
        Err(fault) => {
            let _ = report(alloc, device, &fault);
            fault.status()
        }
    }
}

/// Writes and prints the answer for the texts of a task, or reports their fault, and returns the exit status.
pub(crate) fn reply_answer<D: Device, P: Drop>(
    alloc: Global,
    device: &mut D,
    answer: &Result<Answer<WrittenPlan<P>>, Fault>,
    settings: &Settings<'_>,
) -> Status
    ensures answered { (h : List Event) → D.history device.old ≡ Some h → D.failure_count device.new
        ≡ D.failure_count device.old → result ≢ Status.OutOfMemory → result ≢ Status.DeviceFailed →
        IfOk answer.now (λ a. D.history device.new ≡ Some (h ++ outputs (files_of settings.now) a)) }
    ensures status { result ≢ Status.OutOfMemory → result ≢ Status.DeviceFailed → IfOk answer.now (λ a. result ≡ answer_status a) }
    ensures counted { result ≡ Status.DeviceFailed → IfOk answer.now (λ a. D.failure_count device.old + 1 ≤ D.failure_count device.new) }
    ensures refused { (h : List Event) → D.history device.old ≡ Some h →
        IfErr answer.now (λ e. (later : List Event) × (D.history device.new ≡ Some (h ++ later)) × IsQuiet None later) }
    ensures refusal { result ≢ Status.OutOfMemory → IfErr answer.now (λ e. result ≡ fault_status e) }
    ensures unput { result ≡ Status.OutOfMemory → IsUnput (D.history device.old) (D.history device.new) }
{
    match answer {
        Ok(answer) => put_answer(alloc, device, answer, settings),
        Err(fault) => report(alloc, device, fault),
    }
}
