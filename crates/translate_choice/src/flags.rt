//! Flags by index.

ghost use Rattle.std.specs.Prelude.{◌≡◌, ◌<◌, ◌==◌, ◌||◌, ℕ, false, length, slice_index_or, IfOk};
ghost use Rattle.index_rows.specs.Numbers.{has};

use std::alloc::{AllocError, Global};

/// Returns whether the flag at index `place` is set: false past the end.
pub(crate) fn is_set(flags: &[bool], place: usize) -> bool
    ensures { result ≡ slice_index_or flags.now place false }
{
    flags.get(place).copied().unwrap_or(false)
}

/// Sets the flag at index `place`, if there is one.
fn set_one(flags: &mut [bool], place: usize)
    ensures { (p : ℕ) → p < length flags.old →
        slice_index_or flags.new p false ≡ (slice_index_or flags.old p false || place == p) }
{
    if place < flags.len() {
        flags[place] = true;
    }
}

/// Sets the flags at the indices `places`.
pub(crate) fn set(flags: &mut [bool], places: &[usize])
    ensures { (p : ℕ) → p < length flags.old →
        slice_index_or flags.new p false ≡ (slice_index_or flags.old p false || has places.now p) }
{
    for place in places {
        set_one(flags, *place);
    }
}

/// Returns `count` flags, of which those at the indices `places` are set.
pub(crate) fn set_flags(
    alloc: Global,
    count: usize,
    places: &[usize],
) -> Result<Vec<bool>, AllocError>
    ensures { IfOk result (λ flags. (p : ℕ) → p < count → slice_index_or flags.items p false ≡ has places.now p) }
{
    let mut flags = vec![in alloc; false; count]?;
    set(&mut flags, places);
    Ok(flags)
}
