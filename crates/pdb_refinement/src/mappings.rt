//! Rows as mappings.

ghost use Rattle.std.specs.Prelude.{◌≡◌, ◌*◌, ◌^◌, ◌≤◌, ◌<◌, true, length, map, All, Contains, IfOk, IfSome};
ghost use Rattle.fdr.specs.Tasks.{ranges};
ghost use Rattle.abstraction_domain.specs.Rows.{are_numbered};
ghost use Rattle.abstraction_domain.specs.Domains.{IsFit, variables};
ghost use Rattle.abstraction_mapping.specs.Views.{mapping_of};
ghost use Rattle.pdb_patterns.specs.Patterns.{IsPattern};
ghost use Rattle.abstraction_mapping.specs.Mappings.{is_mapping, variables_of};
ghost use Rattle.pdb_patterns.specs.Choices.{IsMappingWithin};
ghost use Rattle.pdb_refinement.specs.Refinements.{is_of_kind};
ghost use Rattle.pdb_refinement.specs.Classes.{AreOrderedWithin, rows_by, whole_row};

use crate::rows::{own_classes, position_of};
use crate::split::numbered_row;
use abstraction_domain::{ClassRow, copied_rows};
use abstraction_mapping::Mapping;
use fdr::FdrTask;
use pdb_flaws::Kind;
use std::alloc::{AllocError, Global};

/// The product of two numbers, if it is within the limit.
fn larger_size(count: usize, size: usize, limit: usize) -> Option<usize>
    ensures { IfSome result (λ larger. (larger ≡ count * size) × (larger ≤ limit)) }
{
    match count.checked_mul(size) {
        Some(larger) if larger <= limit => Some(larger),
        _ => None,
    }
}

/// The variables that have a row, in order, as far as their values have at most `limit` combinations.
fn pattern_of(
    alloc: Global,
    task: &FdrTask,
    rows: &[ClassRow],
    limit: usize,
) -> Result<Vec<u32>, AllocError>
    requires { 1 ≤ limit }
    ensures pattern { IfOk result (λ pattern. IsPattern task.now limit pattern.items) }
    ensures among { IfOk result (λ pattern. All (Contains (variables rows.now)) pattern.items) }
{
    task.recall(); // there are fewer than 2^32 variables
    let mut pattern = Vec::with_capacity(alloc, rows.len())?;
    let mut size = 1;
    for variable in 0..task.variable_count() {
        let Some(_) = position_of(rows, variable) else {
            continue;
        };
        if let Some(larger) = larger_size(task.range(variable), size, limit) {
            pattern.push(variable as u32)?;
            size = larger;
        }
    }
    Ok(pattern)
}

/// Copies of the rows, ordered by variable, as far as their classes have at most `limit` combinations.
fn domains_of(
    alloc: Global,
    task: &FdrTask,
    rows: &[ClassRow],
    limit: usize,
) -> Result<Vec<ClassRow>, AllocError>
    requires limit { 1 ≤ limit }
    requires fit { All (IsFit (ranges task.now)) rows.now }
    requires numbered { All (λ r. are_numbered r.classes ≡ true) rows.now }
    ensures { IfOk result (λ ordered. AreOrderedWithin task.now limit rows.now ordered.items) }
{
    let mut ordered = Vec::with_capacity(alloc, rows.len())?;
    let mut size = 1;
    for variable in 0..task.variable_count() {
        let Some(position) = position_of(rows, variable) else {
            continue;
        };
        let row = &rows[position];
        if let Some(larger) = larger_size(row.class_count(), size, limit) {
            ordered.push(row.copied(alloc)?)?;
            size = larger;
        }
    }
    Ok(ordered)
}

/// The mapping by rows, or `None` if there are none.
pub(crate) fn mapping_by(
    alloc: Global,
    task: &FdrTask,
    kind: Kind,
    rows: &[ClassRow],
    limit: usize,
) -> Result<Option<Mapping>, AllocError>
    requires some { 1 ≤ limit }
    requires small { limit ≤ 2 ^ 24 }
    requires fit { All (IsFit (ranges task.now)) rows.now }
    requires numbered { All (λ r. are_numbered r.classes ≡ true) rows.now }
    ensures within { IfOk result (λ found. IfSome found (λ mapping. IsMappingWithin task.now limit (mapping_of mapping))) }
    ensures among { IfOk result (λ found. IfSome found (λ mapping. All (Contains (variables rows.now)) (variables_of (mapping_of mapping)))) }
    ensures kind { IfOk result (λ found. IfSome found (λ mapping. is_of_kind kind (mapping_of mapping) ≡ true)) }
{
    match kind {
        Kind::Pattern => {
            let pattern = pattern_of(alloc, task, rows, limit)?;
            if pattern.is_empty() {
                return Ok(None);
            }
            Ok(Some(Mapping::Pattern(pattern)))
        }
        Kind::Domain => {
            let ordered = domains_of(alloc, task, rows, limit)?;
            if ordered.is_empty() {
                return Ok(None);
            }
            Ok(Some(Mapping::Domains(ordered)))
        }
    }
}

/// The rows of the variables of a pattern, in which each value has a class of its own.
fn whole_rows(alloc: Global, task: &FdrTask, pattern: &[u32]) -> Result<Vec<ClassRow>, AllocError>
    requires { All (λ v. v < length task.now.value_names) pattern.now }
    ensures { IfOk result (λ rows. rows.items ≡ map (whole_row task.now) pattern.now) }
{
    task.recall(); // a variable has at most 65,536 values
    let mut rows = Vec::with_capacity(alloc, pattern.len())?;
    for variable in pattern {
        let variable = *variable as usize;
        let classes = own_classes(alloc, task.range(variable))?;
        rows.push(numbered_row(variable, classes))?;
    }
    Ok(rows)
}

/// The rows of a mapping. Those of a pattern have each value of its variables in a class of its own.
pub(crate) fn rows_of(
    alloc: Global,
    task: &FdrTask,
    mapping: &Mapping,
) -> Result<Vec<ClassRow>, AllocError>
    requires { is_mapping task.now (mapping_of mapping.now) ≡ true }
    ensures { IfOk result (λ rows. rows.items ≡ rows_by task.now (mapping_of mapping.now)) }
{
    match mapping {
        Mapping::Pattern(pattern) => {
            let rows = whole_rows(alloc, task, pattern)?;
            Ok(rows)
        }
        Mapping::Domains(rows) => {
            let copies = copied_rows(alloc, rows)?;
            Ok(copies)
        }
    }
}
