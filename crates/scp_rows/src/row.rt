//! Rows of words.

ghost use Rattle.std.specs.Prelude.{◌≡◌};
ghost use Rattle.scp_rows.specs.Rows.{word_of, distance_below};

use cost::Dist;

/// The number of words of a row.
pub(crate) const LANES: usize = 8;

/// Eight adjacent words, each of which represents a distance: the greatest word the infinite one, and any other its
/// number.
pub trait Row: Copy {
    ghost use Rattle.std.specs.Prelude.{◌≡◌, ◌≢◌, ℕ, ◌+◌, ◌-◌, ◌<◌, min, true, List, map, slice_index};
    ghost use Rattle.cost.specs.Distances as distances;
    ghost use Rattle.scp_rows.specs.Rows.{word_of, distance_below, lanes};

    /// The words, one for each lane.
    ghost words: { Self → List ℕ };

    /// The greatest word.
    ghost most: { ℕ };

    /// Returns the row with 0 in each lane.
    fn zero() -> Self
        ensures { (lane : ℕ) → slice_index (words result) lane ≡ 0 };

    /// Adds the words of another row, lane by lane. Sums are capped at the greatest word.
    fn add(&mut self, other: &Self)
        ensures { (lane : ℕ) → slice_index (words self.new) lane ≡ min (slice_index (words self.old) lane + slice_index (words other.now) lane) most };

    /// Subtracts the words of another row, lane by lane. A difference below 0 becomes 0.
    fn subtract(&mut self, other: &Self)
        ensures { (lane : ℕ) → slice_index (words self.new) lane ≡ slice_index (words self.old) lane - slice_index (words other.now) lane };

    /// Returns whether each word represents a finite distance.
    fn is_finite(&self) -> bool
        ensures { result ≡ true → (lane : ℕ) → slice_index (words self.now) lane < most };

    /// Adds the word of a distance in one lane. The sum is capped at the greatest word.
    fn add_value(&mut self, lane: usize, value: Dist)
        requires { lane < 8 }
        ensures lane { slice_index (words self.new) lane ≡ min (slice_index (words self.old) lane + word_of most value) most }
        ensures others { (other : ℕ) → other ≢ lane → slice_index (words self.new) other ≡ slice_index (words self.old) other };

    /// Returns the greatest distance that a word represents.
    fn greatest(&self) -> Dist
        ensures { result ≡ distances.greatest (map (λ lane. distance_below most (slice_index (words self.now) lane)) lanes) };
}

/// Words of 16 bits. The greatest, 65535, represents the infinite distance.
#[derive(Clone, Copy)]
pub struct ShortRow {
    words: [u16; LANES],
}

/// Returns the word of 16 bits that represents a distance, and the greatest word for a number that is too great.
fn short_word(value: Dist) -> u16
    ensures { result ≡ word_of 65535 value }
{
    match value.get() {
        Some(number) if number < 65535 => number as u16,
        _ => u16::MAX,
    }
}

/// Returns the distance that a word of 16 bits represents.
fn short_distance(word: u16) -> Dist
    ensures { result ≡ distance_below 65535 word }
{
    if word < u16::MAX {
        Dist::fin(u64::from(word)).unwrap_or(Dist::inf())
    } else {
        Dist::inf()
    }
}

impl Row for ShortRow {
    ghost words = { λ row. row.words };

    ghost most = { 65535 };

    fn zero() -> ShortRow {
        ShortRow { words: [0; LANES] }
    }

    fn add(&mut self, other: &ShortRow) {
        for lane in 0..LANES {
            self.words[lane] = self.words[lane].saturating_add(other.words[lane]);
        }
    }

    fn subtract(&mut self, other: &ShortRow) {
        for lane in 0..LANES {
            self.words[lane] = self.words[lane].saturating_sub(other.words[lane]);
        }
    }

    fn is_finite(&self) -> bool {
        self.words.iter().all(|word| *word < u16::MAX)
    }

    fn add_value(&mut self, lane: usize, value: Dist) {
        self.words[lane] = self.words[lane].saturating_add(short_word(value));
    }

    fn greatest(&self) -> Dist {
        let mut greatest = 0;
        for lane in 0..LANES {
            greatest = greatest.max(self.words[lane]);
        }
        short_distance(greatest)
    }
}

/// Words of 32 bits. The greatest, 4294967295, represents the infinite distance.
#[derive(Clone, Copy)]
pub struct MiddleRow {
    words: [u32; LANES],
}

/// Returns the word of 32 bits that represents a distance, and the greatest word for a number that is too great.
fn middle_word(value: Dist) -> u32
    ensures { result ≡ word_of 4294967295 value }
{
    match value.get() {
        Some(number) if number < 4294967295 => number as u32,
        _ => u32::MAX,
    }
}

/// Returns the distance that a word of 32 bits represents.
fn middle_distance(word: u32) -> Dist
    ensures { result ≡ distance_below 4294967295 word }
{
    if word < u32::MAX {
        Dist::fin(u64::from(word)).unwrap_or(Dist::inf())
    } else {
        Dist::inf()
    }
}

impl Row for MiddleRow {
    ghost words = { λ row. row.words };

    ghost most = { 4294967295 };

    fn zero() -> MiddleRow {
        MiddleRow { words: [0; LANES] }
    }

    fn add(&mut self, other: &MiddleRow) {
        for lane in 0..LANES {
            self.words[lane] = self.words[lane].saturating_add(other.words[lane]);
        }
    }

    fn subtract(&mut self, other: &MiddleRow) {
        for lane in 0..LANES {
            self.words[lane] = self.words[lane].saturating_sub(other.words[lane]);
        }
    }

    fn is_finite(&self) -> bool {
        self.words.iter().all(|word| *word < u32::MAX)
    }

    fn add_value(&mut self, lane: usize, value: Dist) {
        self.words[lane] = self.words[lane].saturating_add(middle_word(value));
    }

    fn greatest(&self) -> Dist {
        let mut greatest = 0;
        for lane in 0..LANES {
            greatest = greatest.max(self.words[lane]);
        }
        middle_distance(greatest)
    }
}

/// The greatest word of 64 bits, 2^63 + 1.
const LONG_MOST: u64 = 9_223_372_036_854_775_809;

/// Words of 64 bits that are at most 2^63 + 1, which represents the infinite distance.
#[derive(Clone, Copy)]
pub struct LongRow {
    words: [u64; LANES],
}

/// Returns the word of 64 bits that represents a distance.
fn long_word(value: Dist) -> u64
    ensures { result ≡ word_of 9223372036854775809 value }
{
    match value.get() {
        Some(number) => number,
        None => LONG_MOST,
    }
}

/// Returns the distance that a word of 64 bits represents.
fn long_distance(word: u64) -> Dist
    ensures { result ≡ distance_below 9223372036854775809 word }
{
    Dist::fin(word).unwrap_or(Dist::inf())
}

impl Row for LongRow {
    ghost words = { λ row. row.words };

    ghost most = { 9223372036854775809 };

    fn zero() -> LongRow {
        LongRow { words: [0; LANES] }
    }

    fn add(&mut self, other: &LongRow) {
        for lane in 0..LANES {
            self.words[lane] = self.words[lane]
                .saturating_add(other.words[lane])
                .min(LONG_MOST);
        }
    }

    fn subtract(&mut self, other: &LongRow) {
        for lane in 0..LANES {
            self.words[lane] = self.words[lane].saturating_sub(other.words[lane]);
        }
    }

    fn is_finite(&self) -> bool {
        self.words.iter().all(|word| *word < LONG_MOST)
    }

    fn add_value(&mut self, lane: usize, value: Dist) {
        self.words[lane] = self.words[lane]
            .saturating_add(long_word(value))
            .min(LONG_MOST);
    }

    fn greatest(&self) -> Dist {
        let mut greatest = 0;
        for lane in 0..LANES {
            greatest = greatest.max(self.words[lane]);
        }
        long_distance(greatest)
    }
}
