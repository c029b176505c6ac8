//! The clause C0 on the classes of a certificate, and the reduced task under them.

ghost use Rattle.std.specs.Prelude.{◌≡◌, ◌<◌, length, IfOk};
ghost use Rattle.abstraction_domain.specs.Rows.{classes_in};
ghost use Rattle.checker_clauses.specs.Clauses.{fits_row, judged_task};
ghost use Rattle.checker_clauses.specs.Violations.{IsMet, IsFoundIn};

use abstraction_domain::{ClassRow, copied_rows};
use cert_value::Certificate;
use checker_clauses::Violation;
use fdr::FdrTask;
use reduction_classes::Classes;
use std::alloc::{AllocError, Global};

/// Returns whether the row with this number has one class for each value of the variable with this number, or neither
/// exists.
fn fits_row(task: &FdrTask, rows: &[ClassRow], variable: usize) -> bool
    ensures { result ≡ fits_row task.now (classes_in rows.now) variable }
{
    let exists = variable < task.variable_count();
    match rows.get(variable) {
        Some(row) => exists && row.classes().len() == task.range(variable),
        None => !exists,
    }
}

/// Returns the first violation of C0: the least number for which a row or a variable is missing, or the row does not
/// have one class for each value of the variable. A certificate without classes has none.
pub(crate) fn first_class_violation(task: &FdrTask, certificate: &Certificate) -> Option<Violation>
    ensures { IsFoundIn task.now certificate.now 0 result }
{
    let rows = certificate.classes();
    if rows.is_empty() {
        return None;
    }
    let count = rows.len().max(task.variable_count());
    for variable in 0..count {
        if !fits_row(task, rows, variable) {
            return Some(Violation::Classes(variable));
        }
    }
    None
}

/// Returns the task that a certificate with classes is judged for, the reduced one. Takes time linear in the sizes of
/// the task and the classes.
pub(crate) fn reduced(
    alloc: Global,
    task: &FdrTask,
    certificate: &Certificate,
) -> Result<FdrTask, AllocError>
    requires some { 0 < length certificate.now.classes }
    requires fit { IsMet task.now certificate.now 0 }
    ensures { IfOk result (λ t. t ≡ judged_task task.now certificate.now.classes) }
{
    let rows = copied_rows(alloc, certificate.classes())?;
    let classes = Classes::new(alloc, rows)?;
    classes.task(alloc, task)
}
