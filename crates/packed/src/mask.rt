//! Masks of one word: what is written into it, and what is asked of it.

ghost use Rattle.std.specs.Prelude.{◌≡◌, ◌+◌, ◌-◌, ◌*◌, ◌^◌, ◌<◌, ◌&&◌, ℕ, IfSome};
ghost use Rattle.packed.specs.Fields.{IsPlaced};
ghost use Rattle.packed.specs.Masks as spec;

use crate::field::Field;

/// What is written into one word: the bits of `keep` stay as they are, and those of `set` are set.
#[derive(Clone, Copy, Debug, PartialEq, Eq)]
pub(crate) struct WordMask {
    /// The index of the word.
    pub(crate) word: usize,
    /// The bits that stay.
    pub(crate) keep: u64,
    /// The bits that are set.
    pub(crate) set: u64,
}

/// What is asked of one word: that those of its bits that are in `mask` are `value`.
#[derive(Clone, Copy, Debug, PartialEq, Eq)]
pub(crate) struct WordTest {
    /// The index of the word.
    pub(crate) word: usize,
    /// The bits that are tested.
    pub(crate) mask: u64,
    /// What they are to be.
    pub(crate) value: u64,
}

/// Returns the bits of a field in its word.
fn bits_of(field: Field) -> u64
    requires { IsPlaced (field.word + 1) field }
    ensures { result ≡ 2 ^ (field.width + field.shift) - 2 ^ field.shift }
{
    ((1u64 << field.width) - 1).wrapping_shl(field.shift)
}

/// Returns a value in the bits of a field.
fn placed(field: Field, value: u32) -> u64
    requires field { IsPlaced (field.word + 1) field }
    requires value { value < 2 ^ field.width }
    ensures { result ≡ value * 2 ^ field.shift }
{
    (value as u64).wrapping_shl(field.shift)
}

impl WordMask {
    /// Returns the mask that writes a value into the bits of a field.
    pub(crate) fn new(field: Field, value: u32) -> WordMask
        requires field { IsPlaced (field.word + 1) field }
        requires value { value < 2 ^ field.width }
        ensures { result ≡ spec.mask_of field value }
    {
        WordMask {
            word: field.word,
            keep: !bits_of(field),
            set: placed(field, value),
        }
    }

    /// Returns what the mask makes of a word.
    pub(crate) fn of(self, word: u64) -> u64
        ensures { result ≡ spec.masked_word self word }
    {
        word & self.keep | self.set
    }

    /// Returns the mask that does to a word what this one and then another do.
    pub(crate) fn then(self, next: WordMask) -> WordMask
        ensures word { result.word ≡ self.word }
        ensures same { (word : ℕ) → spec.masked_word result word ≡ spec.masked_word next (spec.masked_word self word) }
    {
        WordMask {
            word: self.word,
            keep: self.keep & next.keep,
            set: self.set & next.keep | next.set,
        }
    }
}

impl WordTest {
    /// Returns the test whether a field has a value.
    pub(crate) fn new(field: Field, value: u32) -> WordTest
        requires field { IsPlaced (field.word + 1) field }
        requires value { value < 2 ^ field.width }
        ensures { result ≡ spec.test_of field value }
    {
        WordTest {
            word: field.word,
            mask: bits_of(field),
            value: placed(field, value),
        }
    }

    /// Returns whether a word passes the test.
    pub(crate) fn passes(self, word: u64) -> bool
        ensures { result ≡ spec.word_passes self word }
    {
        word & self.mask == self.value
    }

    /// Returns the one test that a word passes exactly if it passes this one and another, if there is one: both must be
    /// of the same word, and ask the same of the bits that both test.
    pub(crate) fn and(self, other: WordTest) -> Option<WordTest>
        ensures word { IfSome result (λ both. (both.word ≡ self.word) × (both.word ≡ other.word)) }
        ensures same { IfSome result (λ both. (word : ℕ) → spec.word_passes both word ≡ (spec.word_passes self word && spec.word_passes other word)) }
    {
        let mask = self.mask | other.mask;
        let value = self.value | other.value;
        if self.word == other.word
            && value & self.mask == self.value
            && value & other.mask == other.value
        {
            Some(WordTest {
                word: self.word,
                mask,
                value,
            })
        } else {
            None
        }
    }
}
