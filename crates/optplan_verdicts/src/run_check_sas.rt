//! The command that checks a certificate for a finite-domain task, over any device.

ghost use Rattle.std.specs.Prelude.{◌≡◌, ◌≢◌, ◌≤◌, ◌+◌, ◌++◌, ℕ, List, Some, None, true, IfOk, IfErr, option_map, string_bytes};
ghost use Rattle.checker_fdr.specs.Answers as checked;
ghost use Rattle.optplan_device.specs.Events.{Event};
ghost use Rattle.optplan_explain.specs.Explanations.{IsExplained};
ghost use Rattle.optplan_replies.specs.Runs.{IsAnswered, IsUnput};
ghost use Rattle.optplan_replies.specs.Statuses.{IsOfVerdict};
ghost use Rattle.optplan_verdicts.specs.SasChecking.{sas_check_status, files, IsSasCheckAnswer, IsSasCheckRefusal, ChecksSas};

use checker::{CheckFault, Verdict, check_sas, check_sas_owned};
use optplan_device::Device;
use optplan_explain::{Sources, refusal_with};
use optplan_replies::{Fault, FileWord, Judge, Refusal, Status, judge_files, line_of, read_file};
use std::alloc::Global;
use std::thread::Threads;

/// Returns the exit status of a verdict: `Done` if the certificate is accepted, else `Rejected`.
fn sas_check_status(verdict: &Verdict) -> Status
    ensures status { result ≡ sas_check_status verdict.now }
    ensures judged { IsOfVerdict result }
{
    match verdict {
        Verdict::Accepted(_) => Status::Done,
        Verdict::Rejected(_) => Status::Rejected,
    }
}

/// Returns the line that is printed for a verdict, with its line feed, and the exit status: `Done` if the certificate
/// is accepted, else `Rejected`. Fails with the fault for which there is no verdict, or if allocation fails.
fn line_for(alloc: Global, verdict: Result<Verdict, CheckFault>) -> Result<(String, Status), Fault>
    ensures answer { (sas cert : List ℕ) → IfOk verdict (checked.IsAnswer sas cert) → IfErr verdict (checked.IsRefusal sas cert) →
        IfOk result (λ r. IsSasCheckAnswer sas cert (string_bytes r.0) r.1) }
    ensures judged { IfOk result (λ r. IsOfVerdict r.1) }
    ensures refused { (sas cert : List ℕ) → IfOk verdict (checked.IsAnswer sas cert) → IfErr verdict (checked.IsRefusal sas cert) →
        IfErr result (IsSasCheckRefusal sas cert) }
{
    let verdict = match verdict {
        Ok(verdict) => verdict,
        Err(fault) => return Err(Fault::from(fault)),
    };
    match line_of(alloc, &verdict) {
        Ok(line) => Ok((line, sas_check_status(&verdict))),
        Err(_) => Err(Fault::OutOfMemory),
    }
}

/// The texts of a finite-domain task and a certificate.
#[derive(Drop)]
pub struct SasTexts {
    pub sas: Vec<u8>,
    pub cert: Vec<u8>,
}

/// The check of the certificate of these files.
#[derive(Clone, Copy)]
struct CheckSas<'a> {
    sas: &'a str,
    cert: &'a str,
    /// Whether a fault is explained.
    explains: bool,
}

impl<'a> CheckSas<'a> {
    /// Returns the answer for the texts, or their fault. Each text is dropped as soon as it is parsed.
    ///
    /// The fault is the first one of the task's text; if that spells a task, the first one of the certificate's; or
    /// that allocation failed.
    fn brief_answer<R: AllocGlobal + Threads + Sync>(
        rt: &R,
        texts: SasTexts,
    ) -> Result<(String, Status), Refusal>
        ensures answer { IfOk result (λ r. IsSasCheckAnswer texts.sas.items texts.cert.items (string_bytes r.0) r.1) }
        ensures judged { IfOk result (λ r. IsOfVerdict r.1) }
        ensures refused { IfErr result (λ e. IsSasCheckRefusal texts.sas.items texts.cert.items e.fault) }
        ensures explained { IfErr result (λ e. e.explanation ≡ None) }
    {
        let verdict = check_sas_owned(rt, texts.sas, texts.cert);
        match line_for(rt.alloc(), verdict) {
            Ok(answer) => Ok(answer),
            Err(fault) => Err(Refusal::from(fault)),
        }
    }

    /// Returns the answer for the texts, or their fault with its explanation. The texts are stored until then.
    #[tactic(auto, using(crate::proofs::SasChecks::sas_check_refusal_reported))]
    fn explained_answer<R: AllocGlobal + Threads + Sync>(
        &self,
        rt: &R,
        texts: &SasTexts,
    ) -> Result<(String, Status), Refusal>
        ensures answer { IfOk result (λ r. IsSasCheckAnswer texts.now.sas.items texts.now.cert.items (string_bytes r.0) r.1) }
        ensures judged { IfOk result (λ r. IsOfVerdict r.1) }
        ensures refused { IfErr result (λ e. IsSasCheckRefusal texts.now.sas.items texts.now.cert.items e.fault) }
        ensures explained { IfErr result (λ e. IsExplained true
            (files self.now.sas.now texts.now.sas.items self.now.cert.now texts.now.cert.items) e.fault (option_map string_bytes e.explanation)) }
    {
        let verdict = check_sas(rt, &texts.sas, &texts.cert);
        match line_for(rt.alloc(), verdict) {
            Ok(answer) => Ok(answer),
            Err(fault) => {
                let sources = Sources::none().with_sas(self.sas, &texts.sas);
                let sources = sources.with_cert(self.cert, &texts.cert);
                Err(refusal_with(rt.alloc(), fault, true, &sources))
            }
        }
    }

    /// Returns the answer for the texts, or their fault, with its explanation if that is requested.
    #[tactic(auto, using(optplan_explain::proofs::Explained::choosing))]
    fn answer<R: AllocGlobal + Threads + Sync>(
        &self,
        rt: &R,
        texts: SasTexts,
    ) -> Result<(String, Status), Refusal>
        ensures answer { IfOk result (λ r. IsSasCheckAnswer texts.sas.items texts.cert.items (string_bytes r.0) r.1) }
        ensures judged { IfOk result (λ r. IsOfVerdict r.1) }
        ensures refused { IfErr result (λ e. IsSasCheckRefusal texts.sas.items texts.cert.items e.fault) }
        ensures explained { IfErr result (λ e. IsExplained self.now.explains
            (files self.now.sas.now texts.sas.items self.now.cert.now texts.cert.items) e.fault (option_map string_bytes e.explanation)) }
    {
        if self.explains {
            self.explained_answer(rt, &texts)
        } else {
            CheckSas::brief_answer(rt, texts)
        }
    }
}

impl<'a> Judge for CheckSas<'a> {
    ghost use Rattle.optplan_explain.specs.Explanations.{IsExplained};
    ghost use Rattle.optplan_verdicts.specs.SasChecking.{files, IsSasCheckAnswer, IsSasCheckRefusal, sas_check_reads};

    type Texts = SasTexts;

    ghost reads = { λ c t. sas_check_reads c.sas.now t.sas.items c.cert.now t.cert.items };

    ghost is_answer = { λ t. IsSasCheckAnswer t.sas.items t.cert.items };

    ghost is_refusal = { λ t. IsSasCheckRefusal t.sas.items t.cert.items };

    ghost is_explained = { λ c t. IsExplained c.explains (files c.sas.now t.sas.items c.cert.now t.cert.items) };

    fn read<D: Device>(&self, alloc: Global, device: &mut D) -> Result<SasTexts, Fault> {
        let sas = read_file(alloc, device, self.sas, FileWord::Sas)?;
        let cert = read_file(alloc, device, self.cert, FileWord::Cert)?;
        Ok(SasTexts { sas, cert })
    }
}

/// Checks a certificate for a finite-domain task: reads the two files, and prints the verdict's line or reports the
/// fault, with its explanation if that is requested. Returns the exit status.
///
/// Each text is dropped as soon as it is parsed, but not if a fault is explained, which takes the memory for both.
pub fn run_sas_check<D: Device, R: AllocGlobal + Threads + Sync>(
    rt: &R,
    device: &mut D,
    sas: &str,
    cert: &str,
    explains: bool,
) -> Status
    ensures done { (h : List Event) → D.history device.old ≡ Some h → D.failure_count device.new ≡ D.failure_count device.old → result ≢ Status.OutOfMemory →
        (new : List Event) × (D.history device.new ≡ Some new) × ChecksSas h new sas.now cert.now explains result }
    ensures device_failed { result ≡ Status.DeviceFailed → D.failure_count device.old + 1 ≤ D.failure_count device.new }
    ensures unput { result ≡ Status.OutOfMemory → IsUnput (D.history device.old) (D.history device.new) }
{
    let command = CheckSas {
        sas,
        cert,
        explains,
    };
    // The closure makes the command again: proofs know nothing of a closure that captures a struct with references.
    judge_files(
        rt.alloc(),
        device,
        &command,
        |texts: SasTexts| -> Result<(String, Status), Refusal>
            ensures { IsAnswered (IsSasCheckAnswer texts.sas.items texts.cert.items) (IsSasCheckRefusal texts.sas.items texts.cert.items)
                (IsExplained explains (files sas.entry.now texts.sas.items cert.entry.now texts.cert.items)) result }
        {
            let command = CheckSas {
                sas,
                cert,
                explains,
            };
            command.answer(rt, texts)
        },
    )
}
