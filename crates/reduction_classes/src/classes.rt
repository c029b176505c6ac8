//! Classes of the values of a task.

ghost use Rattle.std.specs.Prelude.{◌≡◌, ◌<◌, ◌||◌, not, nat_lt, All, length, map, IfOk};
ghost use Rattle.std.specs.List.{list_any, range_with_len};
ghost use Rattle.fdr.specs.Tasks.{IsInRange};
ghost use Rattle.abstraction_domain.specs.Rows.{AreNumbered, class_count, shares_class, classes_in};
ghost use Rattle.abstraction_domain.specs.Domains.{variables};
ghost use Rattle.reduction_classes.specs.Classes as spec;
ghost use Rattle.reduction_classes.specs.Classes.{row_of};
ghost use Rattle.reduction_classes.specs.Reduced.{reduced_fact, reduced_facts};

use abstraction_domain::ClassRow;
use fdr::Fact;
use std::alloc::{AllocError, Global};
use std::marker::Model;

/// Classes of the values of a task: a row for each variable. Values in one class are not distinguished, and a variable
/// with one class is left out, if any two values of the task share a class. In contracts its value is the list of the
/// rows.
#[derive(Drop)]
pub struct Classes {
    rows: Vec<ClassRow>,
    /// The variables that stay, in their order.
    staying: Vec<usize>,
    /// For each variable its number among those that stay.
    numbers: Vec<Option<usize>>,
}

impl Model for Classes {
    ghost use Rattle.std.specs.Prelude.{ℕ, List};
    ghost use Rattle.abstraction_domain.specs.Rows.{classes_in};
    ghost use Rattle.reduction_classes.specs.Classes.{AreIndexed};

    ghost Value = { List (List ℕ) };

    ghost view = { λ c. classes_in c.rows.items };

    ghost invariant = { λ c. AreIndexed c.rows.items c.staying.items c.numbers.items };
}

/// Returns whether two values of some variable share a class.
fn share_classes(rows: &[ClassRow]) -> bool
    ensures { result ≡ list_any (λ r. shares_class r.classes) rows.now }
{
    rows.iter()
        .any(|row| row.class_count() < row.classes().len())
}

/// Returns whether no two values of any variable share a class.
fn all_apart(rows: &[ClassRow]) -> bool
    ensures { result ≡ not (list_any (λ r. shares_class r.classes) rows.now) }
{
    !share_classes(rows)
}

/// Returns whether the variable of a row stays. `all_stay` says that no two values of any variable share a class.
fn stays(row: &ClassRow, all_stay: bool) -> bool
    ensures { result ≡ (nat_lt 1 (class_count row.now.classes) || all_stay) }
{
    row.class_count() > 1 || all_stay
}

/// Returns the variables that stay, and for each variable its number among them.
fn numbering(
    alloc: Global,
    rows: &[ClassRow],
) -> Result<(Vec<usize>, Vec<Option<usize>>), AllocError>
    ensures staying { IfOk result (λ made. made.0.items ≡ spec.staying (classes_in rows.now)) }
    ensures numbers { IfOk result (λ made. made.1.items ≡ map (spec.number_of (classes_in rows.now)) (range_with_len 0 (length rows.now))) }
{
    let all_stay = all_apart(rows);
    let mut staying = Vec::new(alloc);
    let mut numbers = Vec::new(alloc);
    for variable in 0..rows.len() {
        if stays(&rows[variable], all_stay) {
            numbers.push(Some(staying.len()))?;
            staying.push(variable)?;
        } else {
            numbers.push(None)?;
        }
    }
    Ok((staying, numbers))
}

/// Reads the rows, whose type says that their classes are numbered. Only for the proof.
fn recall_rows(rows: &[ClassRow])
    ensures { All AreNumbered (classes_in rows.now) }
{
    for row in rows {
        let _ = row.classes();
    }
}

impl Classes {
    /// Returns the classes in the rows, one for each variable, in the order of the variables.
    pub fn new(alloc: Global, rows: Vec<ClassRow>) -> Result<Classes, AllocError>
        requires { variables rows.items ≡ range_with_len 0 (length rows.items) }
        ensures { IfOk result (λ c. c ≡ classes_in rows.items) }
    {
        recall_rows(&rows);
        let (staying, numbers) = numbering(alloc, &rows)?;
        Ok(Classes {
            rows,
            staying,
            numbers,
        })
    }

    /// Proves the type's invariant: the classes are numbered in the order of their first occurrences. Only for the
    /// proof.
    pub fn recall(&self)
        ensures { All AreNumbered self.now }
    {
        // only for the proof: reading a field makes the type's invariant available
        let _ = self.rows.len();
    }

    /// Returns the rows, one for each variable, in the order of the variables.
    pub fn rows(&self) -> &[ClassRow]
        ensures rows { classes_in result.now ≡ self.now }
        ensures variables { variables result.now ≡ range_with_len 0 (length self.now) }
    {
        &self.rows
    }

    /// Returns the variables that stay, in their order.
    pub fn staying(&self) -> &[usize]
        ensures value { result.now ≡ spec.staying self.now }
        ensures exist { All (λ v. v < length self.now) result.now }
    {
        &self.staying
    }

    /// Returns the number of a variable among those that stay, or `None` if it is left out.
    pub fn number(&self, variable: usize) -> Option<usize>
        requires { variable < length self.now }
        ensures { result ≡ spec.number_of self.now variable }
    {
        self.numbers[variable]
    }

    /// Returns the class of a value of a variable.
    pub fn class(&self, variable: usize, value: u32) -> u32
        requires variable { variable < length self.now }
        requires value { value < length (row_of self.now variable) }
        ensures { result ≡ spec.class_of self.now variable value }
    {
        self.rows[variable].classes()[value as usize]
    }

    /// Returns the number of classes of a variable.
    pub fn class_count(&self, variable: usize) -> usize
        requires { variable < length self.now }
        ensures { result ≡ class_count (row_of self.now variable) }
    {
        self.rows[variable].class_count()
    }

    /// Returns the image of a fact, or `None` if its variable is left out.
    pub fn fact(&self, fact: Fact) -> Option<Fact>
        requires { IsInRange (map length self.now) fact }
        ensures { result ≡ reduced_fact self.now fact }
    {
        match self.number(fact.variable) {
            Some(variable) => Some(Fact {
                variable,
                value: self.class(fact.variable, fact.value),
            }),
            None => None,
        }
    }

    /// Returns the images of the facts, in their order.
    pub fn facts(&self, alloc: Global, facts: &[Fact]) -> Result<Vec<Fact>, AllocError>
        requires { All (IsInRange (map length self.now)) facts.now }
        ensures { IfOk result (λ images. images.items ≡ reduced_facts self.now facts.now) }
    {
        let mut images = Vec::new(alloc);
        for fact in facts {
            if let Some(image) = self.fact(*fact) {
                images.push(image)?;
            }
        }
        Ok(images)
    }
}
