//! Rows of numbers, stored in one vector.

ghost use Rattle.std.specs.Prelude.{◌≡◌, ◌++◌, [], ◌∷◌, length, slice_index_or, OnOk};

use std::alloc::{AllocError, Global};
use std::marker::Model;

/// The start of a row in the vector, and its end, which is exclusive.
#[derive(Debug, Clone, Copy)]
struct Span {
    start: usize,
    end: usize,
}

/// Rows of numbers.
#[derive(Drop)]
pub struct Rows {
    spans: Vec<Span>,
    numbers: Vec<usize>,
}

impl Model for Rows {
    ghost use Rattle.std.specs.Prelude.{ℕ, List, map, length};
    ghost use Rattle.index_rows.specs.Spans.{part, LieWithin};

    ghost Value = { List (List ℕ) };

    ghost view = { λ r. map (part r.numbers.items) r.spans.items };

    ghost invariant = { λ r. LieWithin r.spans.items (length r.numbers.items) };
}

impl Rows {
    /// Creates a list of no rows.
    pub fn new(alloc: Global) -> Rows
        ensures { result ≡ [] }
    {
        Rows {
            spans: Vec::new(alloc),
            numbers: Vec::new(alloc),
        }
    }

    /// Returns the number of rows.
    pub fn len(&self) -> usize
        ensures { result ≡ length self.now }
    {
        self.spans.len()
    }

    /// Appends the row.
    pub fn push(&mut self, row: &[usize]) -> Result<(), AllocError>
        ensures { OnOk result (self.new ≡ self.old ++ row.now ∷ []) }
    {
        let start = self.numbers.len();
        self.numbers.extend_from_slice(row)?;
        let end = self.numbers.len();
        self.spans.push(Span { start, end })?;
        Ok(())
    }

    /// Returns the row with this number, or an empty one if there is none.
    pub fn row(&self, number: usize) -> &[usize]
        ensures { result.now ≡ slice_index_or self.now number [] }
    {
        match self.spans.get(number) {
            Some(span) => &self.numbers[span.start..span.end],
            None => &[],
        }
    }
}
