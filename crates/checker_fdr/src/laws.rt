//! Laws of verdicts.

ghost use Rattle.std.specs.Prelude.{◌≡◌, ◌<◌, ◌-◌, ◌^◌, ℕ, List, length};
ghost use Rattle.fdr.specs.Tasks.{FiniteDomainTask};
ghost use Rattle.cert_value.specs.Certificates.{CertificateValue};
ghost use Rattle.checker_fdr.specs.Verdicts.{IsVerdict};
ghost use Rattle.checker_fdr.specs.Answers.{IsAnswer};
ghost use Rattle.checker_fdr.specs.declared.verdict.Verdict.{Verdict};

/// Proves that a certificate has at most one verdict for a task.
#[tactic(auto, using(crate::proofs::OneAnswer::one_verdict))]
pub fn one_verdict()
    ensures { (task : FiniteDomainTask) (c : CertificateValue) (v w : Verdict) → IsVerdict task c v → IsVerdict task c w → v ≡ w }
{}

/// Proves that the text of a task, if it fits in memory, and the text of a certificate have at most one answer.
pub fn one_answer()
    ensures { (sas cert : List ℕ) (v w : Verdict) → length sas < 2 ^ 64 - 1 → IsAnswer sas cert v → IsAnswer sas cert w → v ≡ w }
{}
