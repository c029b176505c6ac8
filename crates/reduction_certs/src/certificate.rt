//! The certificate of a task from one of its reduced task.

ghost use Rattle.std.specs.Prelude.{◌≡◌, IfOk};
ghost use Rattle.std.specs.List.{list_any};
ghost use Rattle.abstraction_domain.specs.Rows.{shares_class};
ghost use Rattle.cert_value.specs.declared.certificate.Version.TheVariants.{Two};
ghost use Rattle.cert_value.specs.Lawful.{IsLawful};
ghost use Rattle.checker_clauses.specs.Violations.{IsHeld};
ghost use Rattle.reduction.specs.Reductions.{IsReduction, retained_task};
ghost use Rattle.reduction.specs.Represented.{AreRepresented};
ghost use Rattle.reduction_certs.specs.InTask.{certificate_in_task};

use crate::columns::columns_for;
use abstraction_domain::{ClassRow, copied_rows};
use cert_value::{Certificate, Version};
use fdr::FdrTask;
use reduction::Reduction;
use std::alloc::{AllocError, Global};

/// Returns whether two values of some variable share a class.
fn do_share_classes(rows: &[ClassRow]) -> bool
    ensures { result ≡ list_any (λ r. shares_class r.classes) rows.now }
{
    rows.iter()
        .any(|row| row.class_count() < row.classes().len())
}

/// Returns the certificate of a task that says the same as the certificate of its reduced task: an operator has the
/// shares of its representative, and mappings, values, closed list, bound and kind are those of the given certificate.
/// If two values of the task share a class, it is of version 3 with the classes of the reduction; otherwise it is of
/// version 2, since nothing is left out. Takes time linear in the size of the given certificate, and for each of its
/// tables in the number of the task's operators.
pub fn certificate_for_task(
    alloc: Global,
    task: &FdrTask,
    reduction: &Reduction,
    certificate: Certificate,
) -> Result<Certificate, AllocError>
    requires reduction { IsReduction task.now reduction.now.classes reduction.now.retained.items }
    requires represented { AreRepresented task.now reduction.now.classes reduction.now.retained.items reduction.now.representatives.items }
    requires task { reduction.now.task ≡ retained_task task.now reduction.now.classes reduction.now.retained.items }
    requires version { certificate.version ≡ Two }
    ensures value { IfOk result (λ c. c ≡ certificate_in_task reduction.now.classes reduction.now.representatives.items certificate) }
    ensures held { IsHeld reduction.now.task certificate → IfOk result (IsHeld task.now) }
    ensures lawful { IsLawful certificate → IfOk result IsLawful }
{
    // only for the proof: the task is well-formed and within the limits
    task.recall();
    let count = reduction.retained.len();
    let _ = certificate.classes(); // only for the proof: there is none
    let (kind, bound, columns, closed) = certificate.into_parts();
    let columns = columns_for(alloc, count, &reduction.representatives, columns)?;
    let made = Certificate::new(Version::Two, kind, bound, columns, closed);
    let rows = reduction.classes.rows();
    if do_share_classes(rows) {
        Ok(made.with_classes(copied_rows(alloc, rows)?))
    } else {
        Ok(made)
    }
}
