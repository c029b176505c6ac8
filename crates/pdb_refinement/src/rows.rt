//! Rows of classes that are split.

ghost use Rattle.std.specs.Prelude.{◌≡◌, ℕ, ◌≤◌, ◌<◌, true, length, slice_index, All, IfOk, IfSome, IfNone, OnOk};
ghost use Rattle.std.specs.List.{range_with_len};
ghost use Rattle.fdr.specs.Tasks.{ranges};
ghost use Rattle.abstraction_domain.specs.Domains.{IsFit};
ghost use Rattle.abstraction_domain.specs.Rows.{are_numbered, class_count};
ghost use Rattle.pdb_refinement.specs.Refinements.{Refines};
ghost use Rattle.pdb_refinement.specs.Classes.{class_in, IsFirstOf, IsSplitAt, with_row};

use abstraction_domain::ClassRow;
use fdr::FdrTask;
use pdb_flaws::{at, put};
use std::alloc::{AllocError, Global};

/// The number of abstract states by the rows, or the greatest number if it is greater.
pub(crate) fn size_by(rows: &[ClassRow]) -> usize {
    let mut size: usize = 1;
    for row in rows {
        size = size.saturating_mul(row.class_count());
    }
    size
}

/// The number of the first row of a variable.
pub(crate) fn position_of(rows: &[ClassRow], variable: usize) -> Option<usize>
    ensures first { IfSome result (λ k. IsFirstOf rows.now variable k) }
    ensures none { IfNone result (All (λ r. r.variable ≡ variable → ⊥) rows.now) }
{
    for (position, row) in rows.iter().enumerate() {
        if row.variable() == variable {
            return Some(position);
        }
    }
    None
}

/// The classes of a variable's values: those of its row, and class 0 for each without a row.
pub(crate) fn classes_of(
    alloc: Global,
    task: &FdrTask,
    rows: &[ClassRow],
    variable: usize,
) -> Result<Vec<u32>, AllocError>
    requires variable { variable < length task.now.value_names }
    requires rows { All (IsFit (ranges task.now)) rows.now }
    ensures len { IfOk result (λ classes. length classes.items ≡ slice_index (ranges task.now) variable) }
    ensures classes { IfOk result (λ classes. (x : ℕ) → slice_index classes.items x ≡ class_in rows.now variable x) }
{
    match position_of(rows, variable) {
        Some(position) => {
            let classes = Vec::from_slice(alloc, rows[position].classes())?;
            Ok(classes)
        }
        None => {
            let zeros = vec![in alloc; 0; task.range(variable)]?;
            Ok(zeros)
        }
    }
}

/// The numbers below `range`, so that each value is its own class.
pub(crate) fn own_classes(alloc: Global, range: usize) -> Result<Vec<u32>, AllocError>
    requires { range ≤ 65536 }
    ensures { IfOk result (λ classes. classes.items ≡ range_with_len 0 range) }
{
    let mut classes = Vec::with_capacity(alloc, range)?;
    for value in 0..range {
        classes.push(value as u32)?;
    }
    Ok(classes)
}

/// The new number of an old class, if it has one. `classes` are the old classes by their new numbers, and `numbers`
/// are hints.
fn number_of(classes: &[u32], numbers: &[u32], class: u32) -> Option<u32>
    ensures within { IfSome result (λ n. n < length classes.now) }
    ensures old { IfSome result (λ n. slice_index classes.now n ≡ class) }
{
    let number = at(numbers, class as usize);
    if classes.get(number as usize) == Some(&class) {
        Some(number)
    } else {
        None
    }
}

/// The same classes, numbered in the order in which they first occur.
fn renumbered(alloc: Global, classes: &[u32]) -> Result<Vec<u32>, AllocError>
    requires { length classes.now ≤ 65536 }
    ensures refines { IfOk result (λ new. Refines classes.now new.items) }
    ensures numbered { IfOk result (λ new. are_numbered new.items ≡ true) }
{
    let mut numbers = vec![in alloc; 0; classes.len().saturating_add(1)]?;
    let mut olds: Vec<u32> = Vec::new(alloc);
    let mut renumbered = Vec::with_capacity(alloc, classes.len())?;
    for class in classes {
        let number = match number_of(&olds, &numbers, *class) {
            Some(number) => number,
            None => {
                let next = olds.len() as u32;
                put(&mut numbers, *class as usize, next);
                olds.push(*class)?;
                next
            }
        };
        renumbered.push(number)?;
    }
    Ok(renumbered)
}

/// The classes after one value was given a class of its own.
pub(crate) fn with_single(
    alloc: Global,
    classes: &[u32],
    value: usize,
    fresh: u32,
) -> Result<Vec<u32>, AllocError>
    requires small { length classes.now ≤ 65536 }
    requires value { value < length classes.now }
    requires fresh { All (λ c. c < fresh) classes.now }
    ensures { IfOk result (λ new. IsSplitAt classes.now value new.items) }
{
    let mut split = Vec::from_slice(alloc, classes)?;
    split[value] = fresh;
    let numbered = renumbered(alloc, &split)?;
    Ok(numbered)
}

/// Replaces the row of the variable by a row, or appends the row if there is none.
pub(crate) fn put_row(rows: &mut Vec<ClassRow>, row: ClassRow) -> Result<(), AllocError>
    ensures { OnOk result (rows.new.items ≡ with_row row rows.old.items) }
{
    match position_of(rows, row.variable()) {
        Some(position) => rows[position] = row,
        None => rows.push(row)?,
    }
    Ok(())
}
