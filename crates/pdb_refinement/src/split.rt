//! Splits of classes.

ghost use Rattle.std.specs.Prelude.{◌≡◌, ◌≢◌, ◌≤◌, ◌<◌, true, false, length, All, IfOk, IfSome, OnOk};
ghost use Rattle.abstraction_domain.specs.Rows.{are_numbered};
ghost use Rattle.pdb_refinement.specs.Classes.{class_in, IsRowOf, IsSplitAt, RefineRows};

use crate::rows::{classes_of, own_classes, put_row, size_by, with_single};
use abstraction_domain::ClassRow;
use fdr::FdrTask;
use pdb_flaws::{Bounds, Flaw, Kind, is_set};
use std::alloc::{AllocError, Global};

/// The classes of a variable's values after its split. A class of its own is given to `value`, and `fresh` is above
/// all classes.
fn split_classes(
    alloc: Global,
    kind: Kind,
    classes: &[u32],
    value: usize,
    fresh: u32,
) -> Result<Vec<u32>, AllocError>
    requires small { length classes.now ≤ 65536 }
    requires value { value < length classes.now }
    requires fresh { All (λ c. c < fresh) classes.now }
    ensures { IfOk result (λ new. IsSplitAt classes.now value new.items) }
{
    match kind {
        Kind::Pattern => {
            let own = own_classes(alloc, classes.len())?;
            Ok(own)
        }
        Kind::Domain => {
            let single = with_single(alloc, classes, value, fresh)?;
            Ok(single)
        }
    }
}

/// The row of a variable with classes that are numbered in the order of their first occurrence.
pub(crate) fn numbered_row(variable: usize, classes: Vec<u32>) -> ClassRow
    requires { are_numbered classes.items ≡ true }
    ensures variable { result.variable ≡ variable }
    ensures classes { result.classes ≡ classes.items }
{
    match ClassRow::new(variable, classes) {
        Ok(row) => row,
        Err(_) => unreachable!(),
    }
}

/// A number above all classes, if there is one.
fn fresh_class(classes: &[u32]) -> Option<u32>
    ensures { IfSome result (λ fresh. All (λ c. c < fresh) classes.now) }
{
    match classes.iter().copied().max() {
        Some(greatest) => greatest.checked_add(1),
        None => Some(0),
    }
}

/// Splits the variable of a flaw. Returns whether it was split: it is not if it is banned or fixed, if its two values
/// are in two classes already, or if there would be too many abstract states.
pub(crate) fn split(
    alloc: Global,
    task: &FdrTask,
    banned: &[bool],
    bounds: &Bounds<'_>,
    flaw: &Flaw,
    rows: &mut Vec<ClassRow>,
) -> Result<bool, AllocError>
    requires rows { All (IsRowOf task.now banned.now) rows.old.items }
    ensures rows { OnOk result (All (IsRowOf task.now banned.now) rows.new.items) }
    ensures refined { OnOk result (RefineRows task.now rows.old.items rows.new.items) }
    ensures same { IfOk result (λ is_split. is_split ≡ false → rows.new.items ≡ rows.old.items) }
    ensures apart { IfOk result (λ is_split. is_split ≡ true →
        class_in rows.new.items flaw.now.variable flaw.now.wanted ≢ class_in rows.new.items flaw.now.variable flaw.now.present) }
{
    task.recall(); // a variable has at most 65,536 values
    let variable = flaw.variable;
    let wanted = flaw.wanted as usize;
    let present = flaw.present as usize;
    if variable >= task.variable_count()
        || is_set(banned, variable)
        || is_set(bounds.fixed, variable)
    {
        return Ok(false);
    }
    let classes = classes_of(alloc, task, rows, variable)?;
    let len = classes.len();
    if wanted == present || wanted >= len || present >= len || classes[wanted] != classes[present] {
        return Ok(false);
    }
    let Some(fresh) = fresh_class(&classes) else {
        return Ok(false);
    };
    let split = split_classes(alloc, bounds.kind, &classes, wanted, fresh)?;
    let row = numbered_row(variable, split);
    let count = (fresh as usize).max(1);
    if (size_by(rows) / count).saturating_mul(row.class_count()) > bounds.limit {
        return Ok(false);
    }
    put_row(rows, row)?;
    Ok(true)
}
