//! The lines of a text, and which of them have a limit or a time stamp.

ghost use Rattle.std.specs.Prelude.{◌≡◌, ◌≢◌, ◌<◌, ◌≤◌, ℕ, Some, None, IfSome, IfNone, length, slice_index};
ghost use Rattle.optplan_plan_texts.specs.Decimals.{HasDigits, read};
ghost use Rattle.optplan_plan_texts.specs.Lines as spec;
ghost use Rattle.optplan_plan_texts.specs.Bytes.{after_byte};

use crate::bytes::{after_blanks, begins_with, begins_with_blank, begins_with_digit, split_digits};
use crate::decimal::{Decimal, split_decimal};

/// Returns the length of the first line of a text, without its line feed.
pub fn line_length(text: &[u8]) -> usize
    ensures within { result ≤ length text.now }
    ensures before { (k : ℕ) → k < result → slice_index text.now k ≢ 10 }
    ensures found { result < length text.now → slice_index text.now result ≡ 10 }
{
    for (at, byte) in text.iter().enumerate() {
        if *byte == b'\n' {
            return at;
        }
    }
    text.len()
}

/// Returns the bytes after this one, if they begin with it.
fn after_byte(first: u8, bytes: &[u8]) -> Option<&[u8]>
    ensures some { IfSome result (λ rest. after_byte first bytes.now ≡ Some rest.now) }
    ensures none { IfNone result (after_byte first bytes.now ≡ None) }
{
    match bytes {
        [byte, rest @ ..] if *byte == first => Some(rest),
        _ => None,
    }
}

/// Returns whether the bytes are blanks, digits and blanks, of which only the last may be missing.
fn is_blank_and_number(bytes: &[u8]) -> bool
    ensures { result ≡ spec.is_blank_and_number bytes.now }
{
    let number = after_blanks(bytes);
    let (_, rest) = split_digits(number);
    begins_with_blank(bytes) && begins_with_digit(number) && after_blanks(rest).is_empty()
}

/// Returns whether the line is `limit N`, with or without blanks after it.
pub(crate) fn is_limit(line: &[u8]) -> bool
    ensures { result ≡ spec.is_limit line.now }
{
    match line {
        [b'l', b'i', b'm', b'i', b't', rest @ ..] => is_blank_and_number(rest),
        _ => false,
    }
}

/// Returns the time stamp of a line, if it has one.
pub(crate) fn stamp_of(line: &[u8]) -> Option<Decimal<'_>>
    ensures some { IfSome result (λ stamp. spec.stamp_of line.now ≡ Some (read stamp)) }
    ensures digits { IfSome result (λ stamp. HasDigits (read stamp)) }
    ensures none { IfNone result (spec.stamp_of line.now ≡ None) }
{
    let (stamp, rest) = split_decimal(after_blanks(line))?;
    let step = after_byte(b':', after_blanks(rest))?;
    if begins_with(b'(', after_blanks(step)) {
        Some(stamp)
    } else {
        None
    }
}

/// Returns the bytes after the duration at their start, if they begin with one.
fn after_duration(bytes: &[u8]) -> Option<&[u8]>
    ensures some { IfSome result (λ rest. spec.after_duration bytes.now ≡ Some rest.now) }
    ensures none { IfNone result (spec.after_duration bytes.now ≡ None) }
{
    let number = after_byte(b'[', after_blanks(bytes))?;
    let (_, rest) = split_decimal(number)?;
    after_byte(b']', rest)
}

/// Returns whether the bytes are a duration, with or without blanks around it.
pub(crate) fn is_duration(bytes: &[u8]) -> bool
    ensures { result ≡ spec.is_duration bytes.now }
{
    match after_duration(bytes) {
        Some(rest) => after_blanks(rest).is_empty(),
        None => false,
    }
}
