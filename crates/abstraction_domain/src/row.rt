//! Rows of classes.

ghost use Rattle.std.specs.Prelude.{◌≡◌, ◌<◌, length, slice_index, IfOk, IfErr, OnOk};
ghost use Rattle.abstraction_domain.specs.Rows as spec;

use std::alloc::{AllocError, Global};
use std::marker::Model;

/// A variable, and the class of each of its values, in the order of the values. Values in one class are not
/// distinguished. The classes are numbered in the order of their first occurrences in the row: each is one that occurs
/// earlier, or the least number that does not.
#[derive(Drop)]
pub struct ClassRow {
    variable: usize,
    classes: Vec<u32>,
    class_count: usize,
}

impl Model for ClassRow {
    ghost use Rattle.std.specs.Prelude.{◌≡◌};
    ghost use Rattle.abstraction_domain.specs.Rows as spec;

    ghost Value = { spec.Row };

    ghost view = { λ r. record { variable = r.variable; classes = r.classes.items } };

    ghost invariant = { λ r. (r.class_count ≡ spec.class_count r.classes.items) × spec.AreNumbered r.classes.items };
}

/// Classes that are not numbered in the order of their first occurrences in their row.
#[derive(Debug, Drop)]
pub struct ClassFault {
    /// The first index whose class neither occurs earlier nor is the least number that does not.
    pub place: usize,
    /// The classes that were refused.
    pub classes: Vec<u32>,
}

/// Returns the number of classes, or as an error the first index whose class neither occurs earlier nor is the least
/// number that does not.
fn counted(classes: &[u32]) -> Result<usize, usize>
    ensures count { IfOk result (λ n. n ≡ spec.class_count classes.now) }
    ensures numbered { OnOk result (spec.AreNumbered classes.now) }
    ensures misnumbered { IfErr result (λ k. spec.IsFirstMisnumbered classes.now k) }
{
    let mut count = 0;
    for place in 0..classes.len() {
        let class = classes[place] as usize;
        if class > count {
            return Err(place);
        }
        if class == count {
            count += 1;
        }
    }
    Ok(count)
}

/// Returns copies of the rows.
pub fn copied_rows(alloc: Global, rows: &[ClassRow]) -> Result<Vec<ClassRow>, AllocError>
    ensures { IfOk result (λ copies. copies.items ≡ rows.now) }
{
    let mut copies = Vec::with_capacity(alloc, rows.len())?;
    for row in rows {
        copies.push(row.copied(alloc)?)?;
    }
    Ok(copies)
}

impl ClassRow {
    /// Returns the row with the classes of the values of a variable. It may be empty.
    ///
    /// Fails with the first index whose class neither occurs earlier in the row nor is the least number that does not,
    /// and returns the classes.
    pub fn new(variable: usize, classes: Vec<u32>) -> Result<ClassRow, ClassFault>
        ensures row { IfOk result (λ r. r ≡ record { variable = variable; classes = classes.items }) }
        ensures numbered { OnOk result (spec.AreNumbered classes.items) }
        ensures misnumbered { IfErr result (λ f. spec.IsFirstMisnumbered classes.items f.place) }
        ensures returned { IfErr result (λ f. f.classes ≡ classes) }
    {
        match counted(&classes) {
            Ok(class_count) => Ok(ClassRow {
                variable,
                classes,
                class_count,
            }),
            Err(place) => Err(ClassFault { place, classes }),
        }
    }

    /// Returns the number of the variable.
    pub fn variable(&self) -> usize
        ensures { result ≡ self.now.variable }
    {
        self.variable
    }

    /// Returns the class of each value of the variable, in the order of the values.
    pub fn classes(&self) -> &[u32]
        ensures value { result.now ≡ self.now.classes }
        ensures numbered { spec.AreNumbered result.now }
    {
        &self.classes
    }

    /// Returns the number of classes: one more than the greatest, and 0 for an empty row.
    pub fn class_count(&self) -> usize
        ensures { result ≡ spec.class_count self.now.classes }
    {
        self.class_count
    }

    /// Returns the class of a value of the variable.
    pub fn class(&self, value: u32) -> usize
        requires { value < length self.now.classes }
        ensures { result ≡ slice_index self.now.classes value }
    {
        self.classes[value as usize] as usize
    }

    /// Returns a copy of the row.
    pub fn copied(&self, alloc: Global) -> Result<ClassRow, AllocError>
        ensures { IfOk result (λ r. r ≡ self.now) }
    {
        let classes = Vec::from_slice(alloc, &self.classes)?;
        Ok(ClassRow {
            variable: self.variable,
            classes,
            class_count: self.class_count,
        })
    }
}
