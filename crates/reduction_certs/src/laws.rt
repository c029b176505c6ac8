//! Laws of certificates of reduced tasks, for every task and every certificate.

ghost use Rattle.std.specs.Prelude.{◌≡◌, ℕ, ◌≤◌, List, [], Option, IfSome, sum_by, length};
ghost use Rattle.fdr.specs.Tasks.{FiniteDomainTask, IsTask, IsWithinLimits, cost_of};
ghost use Rattle.cert_value.specs.declared.certificate.Version.TheVariants.{Two};
ghost use Rattle.cert_value.specs.declared.table.Share.{Share};
ghost use Rattle.cert_value.specs.Certificates.{CertificateValue};
ghost use Rattle.cert_value.specs.Lawful.{IsLawful};
ghost use Rattle.checker_clauses.specs.Clauses.{share_of};
ghost use Rattle.checker_clauses.specs.Violations.{IsHeld};
ghost use Rattle.reduction.specs.Reductions.{IsReduction, retained_task};
ghost use Rattle.reduction.specs.Represented.{AreRepresented};
ghost use Rattle.reduction_certs.specs.InTask.{HaveNumberedRows, share_in_task, shares_in_task, certificate_in_task};

/// Proves that in the certificate of a task each operator has the share of its representative, and 0 without one.
pub fn shares_of_operators()
    ensures { (representatives : List (Option ℕ)) (shares : List Share) (o : ℕ) →
        share_of (shares_in_task representatives shares) o ≡ share_in_task representatives shares o }
{}

/// Proves that a certificate of the reduced task over the retained operators becomes a certificate of the task: if the
/// former has no violation, then neither has the latter, since an operator makes the abstract transitions and the steps
/// of its representative and costs at least as much, and one without a representative leaves each state as it is;
/// and if the former has a text, then so has the latter.
pub fn certificates_of_reduced_tasks()
    ensures held { (task : FiniteDomainTask) (classes : List (List ℕ)) (retained : List ℕ) (representatives : List (Option ℕ)) (c : CertificateValue) →
        IsTask task → IsReduction task classes retained → AreRepresented task classes retained representatives →
        c.classes ≡ [] → HaveNumberedRows c.columns → IsHeld (retained_task task classes retained) c →
        IsHeld task (certificate_in_task classes representatives c) }
    ensures lawful { (task : FiniteDomainTask) (classes : List (List ℕ)) (retained : List ℕ) (representatives : List (Option ℕ)) (c : CertificateValue) →
        IsTask task → IsWithinLimits task → IsReduction task classes retained → AreRepresented task classes retained representatives →
        c.version ≡ Two → IsLawful c → IsLawful (certificate_in_task classes representatives c) }
{}
