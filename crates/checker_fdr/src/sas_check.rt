//! The verdict on the texts of a task and of a certificate for it.

ghost use Rattle.std.specs.Prelude.{◌≡◌, ◌≢◌, IfOk, IfErr};
ghost use Rattle.cost.specs.Distances.{Distance, Infinite};
ghost use Rattle.fdr.specs.Tasks.{FiniteDomainTask, EveryPlanCostsAtLeast, HasNoPlan};
ghost use Rattle.sasfile_reader.specs.SasTexts.{SpellsTask};
ghost use Rattle.cert_value.specs.Certificates.{CertificateValue};
ghost use Rattle.cert_value.specs.Views.{kind_of};
ghost use Rattle.checker_fdr.specs.declared.verdict.Verdict.TheVariants.{Accepted};
ghost use Rattle.checker_fdr.specs.Answers.{is_for_finite_domain, SpellsSasCertificate, IsAnswer, IsCertificateFault, IsSasRefusal, IsCertRefusal, IsRefusal};

use crate::fault::CheckFault;
use crate::fdr_check::check_fdr;
use crate::verdict::Verdict;
use cert_text::{CertFault, read_cert};
use cert_value::{Certificate, CertificateKind};
use fdr::FdrTask;
use sasfile_reader::{SasFault, read_sas};
use std::alloc::{AllocError, Global};
use std::thread::Threads;

/// Returns whether a certificate is for a finite-domain task.
fn is_for_finite_domain(kind: &CertificateKind) -> bool
    ensures { result ≡ is_for_finite_domain (kind_of kind.now) }
{
    match kind {
        CertificateKind::Sas => true,
        CertificateKind::Pddl(_) => false,
    }
}

/// The line that states the kind of a certificate.
const KIND_LINE: usize = 2;

/// Reads the certificate for a finite-domain task that the text spells. Fails with the first fault of the text; a
/// certificate for a planning task has the fault `Expected` on line 2.
#[tactic(auto, using(crate::proofs::ShortTexts::read_short))]
fn read_sas_certificate(alloc: Global, cert: &[u8]) -> Result<Certificate, CertFault>
    ensures found { IfOk result (λ c. SpellsSasCertificate cert.now c) }
    ensures fault { IfErr result (λ e. e ≢ CertFault.OutOfMemory → IsCertificateFault cert.now e) }
{
    let certificate = read_cert(alloc, cert)?;
    if is_for_finite_domain(certificate.kind()) {
        Ok(certificate)
    } else {
        Err(CertFault::Expected(KIND_LINE))
    }
}

/// Reads the task that the text spells. Fails with the first fault of the text.
fn read_task(alloc: Global, sas: &[u8]) -> Result<FdrTask, CheckFault>
    ensures found { IfOk result (λ task. SpellsTask sas.now task) }
    ensures fault { IfErr result (IsSasRefusal sas.now) }
{
    match read_sas(alloc, sas) {
        Ok(task) => Ok(task),
        Err(SasFault::OutOfMemory) => Err(CheckFault::OutOfMemory),
        Err(fault) => Err(CheckFault::Sas(fault)),
    }
}

/// Reads the certificate that the text spells. Fails with the first fault of the text.
fn read_certificate(alloc: Global, cert: &[u8]) -> Result<Certificate, CheckFault>
    ensures found { IfOk result (λ c. SpellsSasCertificate cert.now c) }
    ensures fault { IfErr result (IsCertRefusal cert.now) }
{
    match read_sas_certificate(alloc, cert) {
        Ok(certificate) => Ok(certificate),
        Err(CertFault::OutOfMemory) => Err(CheckFault::OutOfMemory),
        Err(fault) => Err(CheckFault::Cert(fault)),
    }
}

/// Returns the verdict on the text of a certificate for the text of a task (`output.sas`). It is `Accepted` with the
/// certificate's bound if the certificate satisfies the clauses C0 and C3 to C8 for the task, and otherwise `Rejected`
/// with the first violation. After `Accepted` every plan of the task costs at least the bound, whoever wrote the
/// certificate, and there is no plan if the bound is infinite.
///
/// Fails with the first fault of the task's text, or else with the first fault of the certificate's text, or if
/// allocation fails.
pub fn check_sas<R: AllocGlobal + Threads + Sync>(
    rt: &R,
    sas: &[u8],
    cert: &[u8],
) -> Result<Verdict, CheckFault>
    ensures answer { IfOk result (IsAnswer sas.now cert.now) }
    ensures refused { IfErr result (IsRefusal sas.now cert.now) }
    ensures bound { (task : FiniteDomainTask) (bound : Distance) → SpellsTask sas.now task →
        IfOk result (λ verdict. verdict ≡ Accepted bound → EveryPlanCostsAtLeast task bound) }
    ensures none { (task : FiniteDomainTask) → SpellsTask sas.now task →
        IfOk result (λ verdict. verdict ≡ Accepted Infinite → HasNoPlan task) }
{
    let task = read_task(rt.alloc(), sas)?;
    let certificate = read_certificate(rt.alloc(), cert)?;
    let verdict = check_fdr(rt, &task, &certificate)?;
    Ok(verdict)
}

/// Does the same as `check_sas`, but drops each text as soon as it has been read, so that a certificate with millions
/// of states is checked without its text in memory.
pub fn check_sas_owned<R: AllocGlobal + Threads + Sync>(
    rt: &R,
    sas: Vec<u8>,
    cert: Vec<u8>,
) -> Result<Verdict, CheckFault>
    ensures answer { IfOk result (IsAnswer sas.items cert.items) }
    ensures refused { IfErr result (IsRefusal sas.items cert.items) }
    ensures bound { (task : FiniteDomainTask) (bound : Distance) → SpellsTask sas.items task →
        IfOk result (λ verdict. verdict ≡ Accepted bound → EveryPlanCostsAtLeast task bound) }
    ensures none { (task : FiniteDomainTask) → SpellsTask sas.items task →
        IfOk result (λ verdict. verdict ≡ Accepted Infinite → HasNoPlan task) }
{
    let task = read_task(rt.alloc(), &sas)?;
    drop(sas);
    let certificate = read_certificate(rt.alloc(), &cert)?;
    drop(cert);
    let verdict = check_fdr(rt, &task, &certificate)?;
    Ok(verdict)
}
