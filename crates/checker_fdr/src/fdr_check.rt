//! The verdict on a certificate for a task in memory.

ghost use Rattle.std.specs.Prelude.{◌≡◌, IfOk};
ghost use Rattle.cost.specs.Distances.{Distance, Infinite};
ghost use Rattle.fdr.specs.Tasks.{IsTask, EveryPlanCostsAtLeast, HasNoPlan};
ghost use Rattle.checker_fdr.specs.Verdicts.{IsVerdict, AreMetBelow, IsFoundBelow, IsFirstOrNone};
ghost use Rattle.checker_fdr.specs.declared.verdict.Verdict.TheVariants.{Accepted};

use crate::classes::{first_class_violation, reduced};
use crate::verdict::Verdict;
use cert_value::Certificate;
use checker_clauses::Violation;
use checker_states::{Coverage, first_closed_violation, first_goal_violation};
use checker_tables::{first_share_violation, first_table_violation};
use fdr::FdrTask;
use std::alloc::{AllocError, Global};
use std::thread::Threads;

/// Returns the first violation of the clauses on tables, C3 and C4, if they are for this task.
fn table_violation<R: Threads + Sync>(
    rt: &R,
    alloc: Global,
    task: &FdrTask,
    certificate: &Certificate,
) -> Result<Option<Violation>, AllocError>
    ensures { IfOk result (IsFoundBelow task.now certificate.now 5) }
{
    if let Some(shares) = first_share_violation(alloc, task, certificate)? {
        return Ok(Some(shares));
    }
    first_table_violation(rt, alloc, task, certificate)
}

/// Returns the first violation of the clauses C6 to C8, if all earlier ones are satisfied.
fn covering_violation<R: Threads + Sync>(
    rt: &R,
    alloc: Global,
    task: &FdrTask,
    certificate: &Certificate,
    coverage: &Coverage<'_>,
) -> Result<Option<Violation>, AllocError>
    requires clauses { AreMetBelow task.now certificate.now 6 }
    requires task { coverage.now.task ≡ task.now }
    requires certificate { coverage.now.certificate ≡ certificate.now }
    ensures { IfOk result (IsFoundBelow task.now certificate.now 9) }
{
    if let Some(start) = coverage.start_violation() {
        return Ok(Some(start));
    }
    if let Some(goal) = first_goal_violation(rt, alloc, task, certificate)? {
        return Ok(Some(goal));
    }
    coverage.first_successor_violation(rt, alloc)
}

/// Returns the first violation of the clauses on the closed list, C5 to C8, if those on tables are satisfied.
fn closed_violation<R: Threads + Sync>(
    rt: &R,
    alloc: Global,
    task: &FdrTask,
    certificate: &Certificate,
) -> Result<Option<Violation>, AllocError>
    requires { AreMetBelow task.now certificate.now 5 }
    ensures { IfOk result (IsFoundBelow task.now certificate.now 9) }
{
    if let Some(state) = first_closed_violation(rt, alloc, task, certificate)? {
        return Ok(Some(state));
    }
    let coverage = Coverage::new(rt, alloc, task, certificate)?;
    covering_violation(rt, alloc, task, certificate, &coverage)
}

/// Returns the first violation of the clauses C3 to C8, if the columns and the closed list are for this task.
fn clause_violation<R: Threads + Sync>(
    rt: &R,
    alloc: Global,
    task: &FdrTask,
    certificate: &Certificate,
) -> Result<Option<Violation>, AllocError>
    ensures { IfOk result (IsFoundBelow task.now certificate.now 9) }
{
    if let Some(table) = table_violation(rt, alloc, task, certificate)? {
        return Ok(Some(table));
    }
    closed_violation(rt, alloc, task, certificate)
}

/// Returns the first violation, or `None` if there is none. If the certificate has classes, its columns and its closed
/// list are for the reduced task.
fn first_violation<R: Threads + Sync>(
    rt: &R,
    alloc: Global,
    task: &FdrTask,
    certificate: &Certificate,
) -> Result<Option<Violation>, AllocError>
    ensures { IfOk result (IsFirstOrNone task.now certificate.now) }
{
    if let Some(classes) = first_class_violation(task, certificate) {
        return Ok(Some(classes));
    }
    if certificate.classes().is_empty() {
        return clause_violation(rt, alloc, task, certificate);
    }
    // operators that change no image are operators of this task too, but C4 and C8 pass over them
    let reduced = reduced(alloc, task, certificate)?;
    clause_violation(rt, alloc, &reduced, certificate)
}

/// Returns the verdict on a certificate for a task, whatever kind of task the certificate is for: `Accepted` with its
/// bound if it satisfies the clauses C0 and C3 to C8, and otherwise `Rejected` with its first violation. If it has
/// classes, C3 to C8 are those of the reduced task. After `Accepted` every plan of the task itself costs at least the
/// bound, whoever wrote the certificate, and there is no plan if the bound is infinite.
/// The verdict does not depend on the number of threads that test the tables and search a long closed list. Fails if
/// allocation fails, or if there are 2^32 closed states or more, which no certificate text can have.
pub fn check_fdr<R: AllocGlobal + Threads + Sync>(
    rt: &R,
    task: &FdrTask,
    certificate: &Certificate,
) -> Result<Verdict, AllocError>
    ensures verdict { IfOk result (IsVerdict task.now certificate.now) }
    ensures bound { (bound : Distance) → IfOk result (λ verdict. verdict ≡ Accepted bound → EveryPlanCostsAtLeast task.now bound) }
    ensures none { IfOk result (λ verdict. verdict ≡ Accepted Infinite → HasNoPlan task.now) }
{
    task.recall();
    match first_violation(rt, rt.alloc(), task, certificate)? {
        Some(violation) => Ok(Verdict::Rejected(violation)),
        None => Ok(Verdict::Accepted(certificate.bound())),
    }
}
