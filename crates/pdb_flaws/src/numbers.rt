//! Reads and writes of lists that allow every index.

ghost use Rattle.std.specs.Prelude.{◌≡◌, false, length, slice_index_or};

/// The number that means "none".
pub(crate) const NONE: u32 = 4_294_967_295;

/// Returns the number at an index, or 0 past the end.
pub fn at(values: &[u32], index: usize) -> u32 {
    match values.get(index) {
        Some(value) => *value,
        None => 0,
    }
}

/// Writes the number at an index, if there is one.
pub fn put(values: &mut [u32], index: usize, value: u32)
    ensures { length values.new ≡ length values.old }
{
    if index < values.len() {
        values[index] = value;
    }
}

/// Returns whether the list has `true` at an index.
pub fn is_set(flags: &[bool], index: usize) -> bool
    ensures { result ≡ slice_index_or flags.now index false }
{
    match flags.get(index) {
        Some(flag) => *flag,
        None => false,
    }
}

/// The number in 32 bits, or `NONE` if it has more.
pub(crate) fn short(number: usize) -> u32 {
    match u32::try_from(number) {
        Ok(number) => number,
        Err(_) => NONE,
    }
}
