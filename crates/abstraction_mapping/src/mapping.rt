//! Abstraction mappings as values.

ghost use Rattle.std.specs.Prelude.{◌≡◌, ◌≢◌, true, false, IfOk, length, slice_get};
ghost use Rattle.abstraction_mapping.specs.Views as kept;

use abstraction_domain::ClassRow;
use std::alloc::{AllocError, Global};

/// What a table distinguishes of a state. In contracts its value is a `Mapping`.
#[derive(Drop)]
pub enum Mapping {
    /// The values of the variables of a pattern, by their numbers (Culberson and Schaeffer 1998).
    Pattern(Vec<u32>),
    /// The classes of the values of the variables that have a row (Hernádvölgyi and Holte 2000).
    Domains(Vec<ClassRow>),
}

/// Returns copies of the rows.
fn copied_rows(alloc: Global, rows: &[ClassRow]) -> Result<Vec<ClassRow>, AllocError>
    ensures { IfOk result (λ copies. copies.items ≡ rows.now) }
{
    let mut copies = Vec::with_capacity(alloc, rows.len())?;
    for row in rows {
        copies.push(row.copied(alloc)?)?;
    }
    Ok(copies)
}

/// Returns whether the rows are the same.
fn are_same(rows: &[ClassRow], others: &[ClassRow]) -> bool
    ensures same { result ≡ true → rows.now ≡ others.now }
    ensures different { result ≡ false → rows.now ≢ others.now }
{
    if rows.len() != others.len() {
        return false;
    }
    for place in 0..rows.len() {
        let row = &rows[place];
        let other = &others[place];
        if row.variable() != other.variable() || row.classes() != other.classes() {
            return false;
        }
    }
    true
}

impl Mapping {
    /// Returns a copy of the mapping.
    pub fn copied(&self, alloc: Global) -> Result<Mapping, AllocError>
        ensures { IfOk result (λ copy. kept.mapping_of copy ≡ kept.mapping_of self.now) }
    {
        match self {
            Mapping::Pattern(pattern) => Ok(Mapping::Pattern(Vec::from_slice(alloc, pattern)?)),
            Mapping::Domains(rows) => Ok(Mapping::Domains(copied_rows(alloc, rows)?)),
        }
    }

    /// Returns whether the mappings are the same.
    pub fn is_same(&self, other: &Mapping) -> bool
        ensures same { result ≡ true → kept.mapping_of self.now ≡ kept.mapping_of other.now }
        ensures different { result ≡ false → kept.mapping_of self.now ≢ kept.mapping_of other.now }
    {
        match (self, other) {
            (Mapping::Pattern(pattern), Mapping::Pattern(others)) => pattern == others,
            (Mapping::Domains(rows), Mapping::Domains(others)) => are_same(rows, others),
            _ => false,
        }
    }
}
