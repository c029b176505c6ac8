//! The values at the digits, packed into a word.

ghost use Rattle.std.specs.Prelude.{◌≡◌, ◌<◌, ◌≤◌, ◌^◌, ◌/◌, ◌%◌, true, false, All, IfOk, OnOk};
ghost use Rattle.abstraction.specs.Digits.{IsDigitBelow};
ghost use Rattle.pdb_regression.specs.Words as spec;
ghost use Rattle.pdb_regression.specs.Words.{word_from, size_from, rooms_of, IsPlain};
ghost use Rattle.pdb_regression.specs.Rules.{unpacked};

use abstraction::Digit;
use std::alloc::AllocError;

/// Returns how many numbers the bits of a digit can represent: the least power of two that is not below its range.
pub(crate) fn room_of(range: usize) -> u64
    requires some { 0 < range }
    requires small { range ≤ 2 ^ 24 }
    ensures { result ≡ spec.room_of range }
{
    1 << (u64::BITS - (range as u64 - 1).leading_zeros())
}

/// Returns the remainder and the quotient of `number` by `range`: the lowest value, and the number above it.
fn split(number: u32, range: u32) -> (u32, u32)
    requires { 0 < range }
    ensures { (result.0 ≡ number % range) × (result.1 ≡ number / range) }
{
    if range == 2 {
        (number % 2, number / 2)
    } else {
        (number % range, number / range)
    }
}

/// Replaces the content of `values` by the values at the digits, and returns their word: each value has its own bits
/// there, the first the lowest.
fn read(digits: &[Digit], abstract_state: usize, values: &mut Vec<u32>) -> Result<u64, AllocError>
    requires digits { All (IsDigitBelow (2 ^ 24)) digits.now }
    requires rooms { rooms_of digits.now ≤ 2 ^ 48 }
    requires state { abstract_state < 2 ^ 24 }
    ensures values { OnOk result (values.new.items ≡ unpacked abstract_state digits.now) }
    ensures word { IfOk result (λ word. word ≡ word_from abstract_state digits.now) }
{
    values.clear();
    let mut above = abstract_state as u32;
    let mut word: u64 = 0;
    let mut scale: u64 = 1;
    for digit in digits {
        let (value, rest) = split(above, digit.range as u32);
        values.push(value)?;
        word += u64::from(value) * scale;
        scale *= room_of(digit.range);
        above = rest;
    }
    Ok(word)
}

/// Returns the word of an abstract state. If `plain` is set, abstract states are their own words, and `values` is
/// unchanged; otherwise its content is replaced by the values at the digits.
pub(crate) fn word_of(
    plain: bool,
    digits: &[Digit],
    abstract_state: usize,
    values: &mut Vec<u32>,
) -> Result<u64, AllocError>
    requires digits { All (IsDigitBelow (2 ^ 24)) digits.now }
    requires rooms { rooms_of digits.now ≤ 2 ^ 48 }
    requires small { abstract_state < 2 ^ 24 }
    requires state { abstract_state < size_from digits.now }
    requires plain { plain ≡ true → All IsPlain digits.now }
    ensures values { plain ≡ false → OnOk result (values.new.items ≡ unpacked abstract_state digits.now) }
    ensures word { IfOk result (λ word. word ≡ word_from abstract_state digits.now) }
{
    if plain {
        return Ok(abstract_state as u64);
    }
    read(digits, abstract_state, values)
}

/// Returns whether each range is a power of two, so that abstract states are their own words.
pub(crate) fn is_plain(digits: &[Digit]) -> bool
    requires { All (IsDigitBelow (2 ^ 24)) digits.now }
    ensures { result ≡ true → All IsPlain digits.now }
{
    for digit in digits {
        if room_of(digit.range) != digit.range as u64 {
            return false;
        }
    }
    true
}
