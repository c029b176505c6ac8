//! Rows that grow one by one.

ghost use Rattle.std.specs.Prelude.{◌≡◌, ◌<◌, ◌==◌, ◌&&◌, ◌||◌, ◌++◌, ℕ, [], ◌∷◌, length, replicate, slice_index_or, IfOk, OnOk};
ghost use Rattle.std.specs.List.Sorted.{IsStrictlyIncreasing};
ghost use Rattle.index_rows.specs.Numbers.{has, AreSameSet};

use smallvec::SmallVec;
use std::alloc::{AllocError, Global};
use std::marker::Model;

/// A short list of numbers.
#[derive(Drop)]
pub struct Row {
    numbers: SmallVec<usize, 4>,
}

impl Model for Row {
    ghost use Rattle.std.specs.Prelude.{ℕ, List};

    ghost Value = { List ℕ };

    ghost view = { λ r. r.numbers.items };
}

impl Row {
    /// Creates an empty row.
    pub fn new(alloc: Global) -> Row
        ensures { result ≡ [] }
    {
        Row {
            numbers: SmallVec::new(alloc),
        }
    }

    /// Returns the numbers.
    pub fn as_slice(&self) -> &[usize]
        ensures { result.now ≡ self.now }
    {
        self.numbers.as_slice()
    }

    /// Appends a number.
    pub fn push(&mut self, number: usize) -> Result<(), AllocError>
        ensures { OnOk result (self.new ≡ self.old ++ number ∷ []) }
    {
        self.numbers.push(number)?;
        Ok(())
    }

    /// Removes all numbers.
    pub fn clear(&mut self)
        ensures { self.new ≡ [] }
    {
        self.numbers.clear();
    }

    /// Sorts the numbers in increasing order, and removes repetitions.
    pub fn sort(&mut self)
        ensures rising { IsStrictlyIncreasing self.new }
        ensures same { AreSameSet self.new self.old }
    {
        self.numbers.as_mut_slice().sort_unstable();
        self.numbers.dedup();
    }
}

/// Returns `count` empty rows.
pub fn empty_rows(alloc: Global, count: usize) -> Result<Vec<Row>, AllocError>
    ensures { IfOk result (λ rows. rows.items ≡ replicate count []) }
{
    let mut rows = Vec::new(alloc);
    for _row in 0..count {
        rows.push(Row::new(alloc))?;
    }
    Ok(rows)
}

/// Appends the number to the row at this index, if there is one.
pub fn put(rows: &mut [Row], at: usize, number: usize) -> Result<(), AllocError>
    ensures { OnOk result ((p k : ℕ) → p < length rows.old →
        has (slice_index_or rows.new p []) k ≡ (has (slice_index_or rows.old p []) k || (number == k && at == p))) }
{
    if at < rows.len() {
        rows[at].push(number)?;
    }
    Ok(())
}
