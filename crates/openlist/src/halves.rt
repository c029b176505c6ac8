//! The upper and the lower half of an index, of 32 bits each.

ghost use Rattle.std.specs.Prelude.{◌≡◌};
ghost use Rattle.openlist.specs.Halves.{joined_of, lower_of, upper_of};

/// The number of indices with the same upper half: 2^32.
const LOWERS: usize = 4_294_967_296;

/// Returns the upper half of an index.
pub fn upper_half(index: usize) -> u32
    ensures { result ≡ upper_of index }
{
    (index / LOWERS) as u32
}

/// Returns the lower half of an index.
pub fn lower_half(index: usize) -> u32
    ensures { result ≡ lower_of index }
{
    (index % LOWERS) as u32
}

/// Returns the index with these halves.
pub fn joined(upper: u32, lower: u32) -> usize
    ensures { result ≡ joined_of upper lower }
{
    upper as usize * LOWERS + lower as usize
}
