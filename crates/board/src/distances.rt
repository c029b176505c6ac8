//! Distances encoded as 64-bit words.

ghost use Rattle.std.specs.Prelude.{◌≡◌};
ghost use Rattle.board.specs.Rule.{word_of, distance_at};

use cost::Dist;

/// Returns the word of a distance: its number, or 2^64 - 1 if it is infinite.
pub(crate) fn word_of(distance: Dist) -> u64
    ensures word { result ≡ word_of distance }
    ensures back { distance_at result ≡ distance }
{
    match distance.get() {
        Some(number) => number,
        None => u64::MAX,
    }
}

/// Returns the distance of a word: its number, or infinite if the word is above 2^63.
pub(crate) fn distance_at(word: u64) -> Dist
    ensures { result ≡ distance_at word }
{
    match Dist::fin(word) {
        Some(distance) => distance,
        None => Dist::inf(),
    }
}
