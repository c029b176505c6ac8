//! Random numbers.

ghost use Rattle.std.specs.Prelude.{◌<◌};

use rand_core::Rng;
use rand_xoshiro::SplitMix64;

/// Returns a random number below `count`, and 0 if there is none.
pub fn number_below(words: &mut SplitMix64, count: usize) -> usize
    ensures { 0 < count → result < count }
{
    if count == 0 {
        return 0;
    }
    ((words.next_u64() >> 11) % count as u64) as usize
}
