//! States packed into bits.

ghost use Rattle.std.specs.Prelude.{◌≡◌, ◌+◌, ◌<◌, ◌≤◌, ◌↔◌, ℕ, List, length, IsTrue, IfOk, All};
ghost use Rattle.fdr.specs.Tasks.{IsState};
ghost use Rattle.packed.specs.Fields as spec;
ghost use Rattle.packed.specs.Masks.{IsWordOf, masked, pass_all};

use crate::field::Field;
use crate::form::StateForm;
use crate::layout::Layout;
use crate::mask::{WordMask, WordTest};
use crate::masks::TaskMasks;
use std::alloc::{AllocError, Global};

/// A state as `WORDS` words of 64 bits, which are stored in the form itself. A variable takes as many bits as its
/// greatest value has binary digits. The variables follow one another from the lowest bit of the first word on; one
/// whose bits do not fit in the rest of a word starts the next. All other bits are 0. States that take more words do
/// not fit.
#[derive(Clone, Copy, Debug, PartialEq, Eq, Hash)]
pub struct Bits<const WORDS: usize> {
    words: [u64; WORDS],
}

/// Returns the words of a state.
fn words_of<const WORDS: usize>(layout: &Layout, state: &[u32]) -> [u64; WORDS]
    requires fits { spec.word_count layout.now ≤ WORDS }
    requires state { IsState layout.now state.now }
    ensures { result ≡ spec.words_of WORDS layout.now state.now }
{
    let mut words = [0; WORDS];
    for (variable, field) in layout.fields().iter().enumerate() {
        words[field.word] += (state[variable] as u64).wrapping_shl(field.shift);
    }
    words
}

impl<const WORDS: usize> Bits<WORDS> {
    /// Returns the number in the bits of a field.
    fn number_in(&self, field: Field) -> u64
        requires { spec.IsPlaced WORDS field }
        ensures { result ≡ spec.value_in self.now.words field }
    {
        self.words[field.word].wrapping_shr(field.shift) & ((1 << field.width) - 1)
    }

    /// Applies masks to the words, one after the other.
    fn apply(&mut self, masks: &[WordMask])
        requires { All (λ m. IsWordOf WORDS m.word) masks.now }
        ensures { self.new.words ≡ masked masks.now self.old.words }
    {
        for mask in masks {
            self.words[mask.word] = mask.of(self.words[mask.word]);
        }
    }

    /// Returns whether the words pass all tests.
    fn passes(&self, tests: &[WordTest]) -> bool
        requires { All (λ t. IsWordOf WORDS t.word) tests.now }
        ensures { result ≡ pass_all tests.now self.now.words }
    {
        for test in tests {
            if !test.passes(self.words[test.word]) {
                return false;
            }
        }
        true
    }

    /// Returns whether the number in each variable's bits is below the variable's range.
    fn has_values_in_range(&self, layout: &Layout) -> bool
        requires fits { spec.word_count layout.now ≤ WORDS }
        ensures { IsTrue result ↔ IsState layout.now (spec.values_in self.now.words layout.now) }
    {
        for (variable, field) in layout.fields().iter().enumerate() {
            if self.number_in(*field) >= layout.range(variable) as u64 {
                return false;
            }
        }
        true
    }

    /// Returns the form with every bit that is in no field set to 0.
    fn without_other_bits(&self, layout: &Layout) -> Bits<WORDS>
        requires fits { spec.word_count layout.now ≤ WORDS }
        requires state { IsState layout.now (spec.values_in self.now.words layout.now) }
        ensures { result.words ≡ spec.words_of WORDS layout.now (spec.values_in self.now.words layout.now) }
    {
        let mut words = [0; WORDS];
        for field in layout.fields() {
            words[field.word] += self.number_in(*field).wrapping_shl(field.shift);
        }
        Bits { words }
    }
}

impl<const WORDS: usize> StateForm for Bits<WORDS> {
    ghost use Rattle.std.specs.Cmp.Lexicographic.{bytes_decides};

    ghost Fits = { λ ranges. spec.word_count ranges ≤ WORDS };

    ghost IsForm = { λ ranges f. spec.ArePacked WORDS ranges f.words };

    ghost values = { λ ranges f. spec.values_in f.words ranges };

    ghost state = { λ ranges f form. form.state };

    ghost equal = { λ ranges f g form form' same.
        (bytes_decides f.words g.words).1 (spec.same_words WORDS ranges f.words g.words form form' same) };

    ghost like = { λ ranges f g form same.
        spec.packed_alike WORDS ranges f.words g.words ((bytes_decides f.words g.words).0 same) form };

    ghost same = { λ ranges f g _ _ same. spec.same_values ranges f.words g.words ((bytes_decides f.words g.words).0 same) };

    fn fits(layout: &Layout) -> bool {
        layout.word_count() <= WORDS
    }

    fn pack(alloc: Global, layout: &Layout, state: &[u32]) -> Result<Bits<WORDS>, AllocError> {
        let _ = alloc;
        Ok(Bits {
            words: words_of(layout, state),
        })
    }

    fn is_form(&self, layout: &Layout) -> bool {
        Self::fits(layout)
            && self.has_values_in_range(layout)
            && *self == self.without_other_bits(layout)
    }

    fn holds_state(&self, layout: &Layout) -> bool {
        self.has_values_in_range(layout)
    }

    fn repack(&mut self, layout: &Layout, state: &[u32]) {
        self.words = words_of(layout, state);
    }

    fn unpack(&self, layout: &Layout, state: &mut [u32]) {
        for (variable, field) in layout.fields().iter().enumerate() {
            state[variable] = self.number_in(*field) as u32;
        }
    }

    fn value(&self, layout: &Layout, variable: usize) -> u32 {
        self.number_in(layout.fields()[variable]) as u32
    }

    fn copy(&self, alloc: Global) -> Result<Bits<WORDS>, AllocError> {
        let _ = alloc;
        Ok(*self)
    }

    fn after(
        &self,
        alloc: Global,
        masks: &TaskMasks<'_>,
        operator: usize,
    ) -> Result<Bits<WORDS>, AllocError> {
        let _ = alloc;
        let mut after = *self;
        after.apply(masks.effect(operator));
        Ok(after)
    }

    fn is_goal(&self, masks: &TaskMasks<'_>) -> bool {
        self.passes(masks.goal())
    }
}
