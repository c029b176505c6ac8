//! The classes of the values of a task by its asked facts.

ghost use Rattle.std.specs.Prelude.{◌≡◌, ◌<◌, ◌^◌, if◌then◌else◌, length, map, unwrap_or, IfOk};
ghost use Rattle.fdr.specs.Tasks.{ranges};
ghost use Rattle.abstraction_domain.specs.Rows.{AreNumbered};
ghost use Rattle.reduction.specs.Facts.{is_in};
ghost use Rattle.reduction.specs.Asked.{AreClassesBy};
ghost use Rattle.reduction.specs.Rows.{ShareBy};

use crate::facts::FactSet;
use abstraction_domain::ClassRow;
use fdr::FdrTask;
use reduction_classes::Classes;
use std::alloc::{AllocError, Global};

/// Returns the class of the next value of a variable. `others` is the class of the values that nobody asks for, once
/// there is one, and `next` is the least number that is not used.
fn next_class(is_asked: bool, others: Option<u32>, next: u32) -> u32
    ensures { result ≡ (if is_asked then next else unwrap_or others next) }
{
    if is_asked {
        next
    } else {
        others.unwrap_or(next)
    }
}

/// Returns the class of the values that nobody asks for, after a value with this class.
fn next_others(is_asked: bool, others: Option<u32>, class: u32) -> Option<u32>
    ensures { result ≡ (if is_asked then others else Some class) }
{
    if is_asked { others } else { Some(class) }
}

/// Returns the class of each value of a variable: each asked value is a class of its own, and the other values share
/// one. The classes are numbered in the order of their first occurrences.
fn classes_by(alloc: Global, asked: &[bool]) -> Result<Vec<u32>, AllocError>
    requires { length asked.now < 2 ^ 32 }
    ensures numbered { IfOk result (λ classes. AreNumbered classes.items) }
    ensures len { IfOk result (λ classes. length classes.items ≡ length asked.now) }
    ensures shared { IfOk result (λ classes. ShareBy asked.now classes.items) }
{
    let mut classes = Vec::with_capacity(alloc, asked.len())?;
    let mut next = 0;
    let mut others = None;
    for value in 0..asked.len() {
        let class = next_class(asked[value], others, next);
        others = next_others(asked[value], others, class);
        next = next.max(class + 1);
        classes.push(class)?;
    }
    Ok(classes)
}

/// Returns the classes of the values of a task by its asked facts.
pub(crate) fn rows_by(alloc: Global, task: &FdrTask, asked: &FactSet) -> Result<Classes, AllocError>
    requires { map length asked.now ≡ ranges task.now }
    ensures { IfOk result (λ classes. AreClassesBy (ranges task.now) (is_in asked.now) classes) }
{
    // only for the proof: the variables have at most 65,536 values
    task.recall();
    let mut rows = Vec::with_capacity(alloc, task.variable_count())?;
    for variable in 0..task.variable_count() {
        let classes = classes_by(alloc, asked.values_of(variable))?;
        match ClassRow::new(variable, classes) {
            Ok(row) => rows.push(row)?,
            Err(_) => unreachable!(),
        }
    }
    Classes::new(alloc, rows)
}
