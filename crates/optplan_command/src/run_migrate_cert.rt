//! The command that prints a certificate of version 1 as version 2, over any device.

ghost use Rattle.std.specs.Prelude.{◌≡◌, ◌≢◌, ◌≤◌, ◌+◌, List, Some, IfOk, IfErr, option_map, string_bytes};
ghost use Rattle.cert_value.specs.Classes.{has_classes};
ghost use Rattle.optplan_device.specs.Events.{Event};
ghost use Rattle.optplan_explain.specs.Explanations.{IsExplained};
ghost use Rattle.optplan_replies.specs.Runs.{IsUnput};
ghost use Rattle.optplan_command.specs.Migrating.{version_after, files, IsMigrated, IsMigrationRefusal, Migrates};

use crate::run_translate::reply_text;
use cert::{read_cert, write_cert};
use cert_value::Version;
use optplan_device::Device;
use optplan_explain::{Sources, refusal_with};
use optplan_replies::{Fault, FileWord, Refusal, Status, read_file, report};
use std::alloc::Global;

/// Returns the version to which a certificate of this version is converted.
fn version_after(version: Version) -> Version
    ensures after { result ≡ version_after version }
    ensures classes { has_classes result ≡ has_classes version }
{
    match version {
        Version::One => Version::Two,
        Version::Two => Version::Two,
        Version::Three => Version::Three,
    }
}

/// Returns the text of the converted certificate of a file. The input text is dropped before that one is made. Fails
/// with the first fault of the text, and its explanation if that is requested, or if allocation fails.
#[tactic(auto, using(crate::proofs::Migrations::reported, optplan_explain::proofs::Explained::choosing))]
fn migrated(alloc: Global, name: &str, cert: Vec<u8>, explains: bool) -> Result<Vec<u8>, Refusal>
    ensures text { IfOk result (λ text. IsMigrated cert.items text.items) }
    ensures refused { IfErr result (λ e. IsMigrationRefusal cert.items e.fault) }
    ensures explained { IfErr result (λ e. IsExplained explains (files name.now cert.items) e.fault (option_map string_bytes e.explanation)) }
{
    let certificate = match read_cert(alloc, &cert) {
        Ok(certificate) => {
            let version = version_after(certificate.version());
            certificate.with_version(version)
        }
        Err(fault) => {
            let sources = Sources::none().with_cert(name, &cert);
            return Err(refusal_with(alloc, Fault::from(fault), explains, &sources));
        }
    };
    drop(cert);
    match write_cert(alloc, &certificate) {
        Ok(text) => Ok(text),
        Err(_) => Err(Refusal::from(Fault::OutOfMemory)),
    }
}

/// Prints a certificate, one of version 1 as version 2: reads the file, and prints the text or reports the fault of the
/// file's text, with its explanation if that is requested. Returns the exit status.
pub fn run_migration<D: Device>(alloc: Global, device: &mut D, cert: &str, explains: bool) -> Status
    ensures done { (h : List Event) → D.history device.old ≡ Some h → D.failure_count device.new ≡ D.failure_count device.old → result ≢ Status.OutOfMemory →
        (new : List Event) × (D.history device.new ≡ Some new) × Migrates h new cert.now explains result }
    ensures device_failed { result ≡ Status.DeviceFailed → D.failure_count device.old + 1 ≤ D.failure_count device.new }
    ensures unput { result ≡ Status.OutOfMemory → IsUnput (D.history device.old) (D.history device.new) }
{
    match read_file(alloc, device, cert, FileWord::Cert) {
        Ok(text) => {
            let answer = migrated(alloc, cert, text, explains);
            reply_text(alloc, device, &answer)
        }
        Err(fault) => report(alloc, device, &fault),
    }
}
