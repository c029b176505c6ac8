//! Decimal numbers of any length.

ghost use Rattle.std.specs.Prelude.{◌≡◌, ◌≤◌, IfSome, IfNone, None, Some, length, slice_index_or};
ghost use Rattle.optplan_plan_texts.specs.Decimals.{HasDigits, after_fraction, fraction, decimal_at, after_decimal, read, is_less};
ghost use Rattle.optplan_plan_texts.specs.Passes.{aligned};

use crate::bytes::{begins_with_digit, split_digits};

/// A decimal number in a text: the digits before the point, and those after it.
#[derive(Clone, Copy)]
pub(crate) struct Decimal<'a> {
    pub whole: &'a [u8],
    pub fraction: &'a [u8],
}

/// Returns the digits after a point at the start of the bytes, and the bytes after them. If no digit follows the point,
/// these are the bytes themselves.
fn split_fraction(bytes: &[u8]) -> (&[u8], &[u8])
    ensures digits { result.0.now ≡ fraction bytes.now }
    ensures rest { result.1.now ≡ after_fraction bytes.now }
{
    match bytes {
        [b'.', rest @ ..] if begins_with_digit(rest) => split_digits(rest),
        _ => (&[], bytes),
    }
}

/// Returns the number at the start of the bytes, and the bytes after it, or `None` if they do not begin with one.
pub(crate) fn split_decimal(bytes: &[u8]) -> Option<(Decimal<'_>, &[u8])>
    ensures number { IfSome result (λ x. read x.0 ≡ decimal_at bytes.now) }
    ensures rest { IfSome result (λ x. after_decimal bytes.now ≡ Some x.1.now) }
    ensures digits { IfSome result (λ x. HasDigits (read x.0)) }
    ensures none { IfNone result (after_decimal bytes.now ≡ None) }
{
    if !begins_with_digit(bytes) {
        return None;
    }
    let (whole, rest) = split_digits(bytes);
    let (fraction, rest) = split_fraction(rest);
    Some((Decimal { whole, fraction }, rest))
}

/// Returns the digit at this index of a number that is written with `wholes` digits before the point, and without end
/// after it.
fn digit_at(decimal: Decimal<'_>, wholes: usize, place: usize) -> u8
    requires { length decimal.whole.now ≤ wholes }
    ensures { result ≡ slice_index_or (aligned wholes (read decimal.entry)) place 48 }
{
    let zeros = wholes - decimal.whole.len();
    if place < zeros {
        return b'0';
    }
    let place = place - zeros;
    match decimal.whole.get(place) {
        Some(digit) => *digit,
        None => match decimal.fraction.get(place - decimal.whole.len()) {
            Some(digit) => *digit,
            None => b'0',
        },
    }
}

/// Returns whether the first number is less than the second.
pub(crate) fn is_less(a: Decimal<'_>, b: Decimal<'_>) -> bool
    requires first { HasDigits (read a) }
    requires second { HasDigits (read b) }
    ensures { result ≡ is_less (read a.entry) (read b.entry) }
{
    let wholes = a.whole.len().max(b.whole.len());
    let places = wholes + a.fraction.len().max(b.fraction.len());
    for place in 0..places {
        let first = digit_at(a, wholes, place);
        let second = digit_at(b, wholes, place);
        if first != second {
            return first < second;
        }
    }
    false
}
