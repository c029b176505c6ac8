//! Fields: the bits of a variable's value in words of 64 bits.

ghost use Rattle.std.specs.Prelude.{◌≡◌, ◌+◌, ◌<◌, ◌≤◌, All, IfOk};
ghost use Rattle.packed.specs.Fields as spec;

use std::alloc::{AllocError, Global};

/// The bits of one variable, all in one word.
#[derive(Clone, Copy, Debug, PartialEq, Eq)]
pub(crate) struct Field {
    /// The index of the word.
    pub(crate) word: usize,
    /// The number of bits of the word below the field. It is 64 only if the field is empty.
    pub(crate) shift: u32,
    /// The number of bits of the field.
    pub(crate) width: u32,
}

/// Returns the number of bits of a variable with `range` values: the binary digits of its greatest value.
fn width_of(range: usize) -> u32
    ensures { result ≡ spec.width_of range }
{
    usize::BITS - range.saturating_sub(1).leading_zeros()
}

/// Returns the field of each variable with these ranges, and the number of words that they take, at least one. Fields
/// are laid out in order from the lowest bit of word 0 on; one that does not fit in the rest of a word starts the next.
pub(crate) fn place_fields(
    alloc: Global,
    ranges: &[usize],
) -> Result<(Vec<Field>, usize), AllocError>
    ensures fields { IfOk result (λ placed. placed.0.items ≡ spec.fields ranges.now) }
    ensures word_count { IfOk result (λ placed. placed.1 ≡ spec.word_count ranges.now) }
{
    let mut fields = Vec::with_capacity(alloc, ranges.len())?;
    let mut word = 0;
    let mut shift = 0;
    for range in ranges {
        let width = width_of(*range);
        if shift + width > u64::BITS {
            word += 1;
            shift = 0;
        }
        fields.push(Field { word, shift, width })?;
        shift += width;
    }
    Ok((fields, word + 1))
}
