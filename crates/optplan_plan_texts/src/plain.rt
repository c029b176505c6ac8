//! The texts of plans, in the form that the plan reader reads.

ghost use Rattle.std.specs.Prelude.{◌≡◌, ◌≢◌, ◌<◌, ◌≤◌, ◌⊎◌, ◌+◌, ◌++◌, Some, [], ◌∷◌, length, take, drop, if◌then◌else◌};
ghost use Rattle.optplan_plan_texts.specs.Decimals.{HasDigits, read};
ghost use Rattle.optplan_plan_texts.specs.Lines.{lines, stamp_of};
ghost use Rattle.optplan_plan_texts.specs.Plain.{after_step, without_duration, without_stamp, without_limit, without_stamps, plain};
ghost use Rattle.optplan_plan_texts.specs.Passes.{first_ascends, next_ascends, line_if, text_if};

use crate::bytes::{blank, blanked_byte};
use crate::decimal::{Decimal, is_less};
use crate::lines::{is_duration, is_limit, line_length, stamp_of};

// ---- one line

/// Blanks the bytes after a step if they are a duration.
fn blank_after_step(bytes: &mut [u8])
    ensures { bytes.new ≡ after_step bytes.old }
{
    if is_duration(bytes) {
        blank(bytes);
    }
}

/// Blanks the duration after the first closing parenthesis, if there is one and no comment comes first.
fn blank_duration(bytes: &mut [u8])
    ensures { bytes.new ≡ without_duration bytes.old }
{
    for at in 0..bytes.len() {
        if bytes[at] == b')' {
            blank_after_step(&mut bytes[at + 1..]);
            return;
        }
        if bytes[at] == b';' {
            return;
        }
    }
}

/// Blanks the stamp of a line, its colon and its duration.
fn blank_stamp(line: &mut [u8])
    ensures { line.new ≡ without_stamp line.old }
{
    for at in 0..line.len() {
        let byte = line[at];
        line[at] = blanked_byte(byte);
        if byte == b':' {
            blank_duration(&mut line[at + 1..]);
            return;
        }
    }
}

// ---- the limit

/// Blanks the first line if it is `limit N`.
fn blank_limit(text: &mut [u8])
    ensures { text.new ≡ without_limit text.old }
{
    let end = line_length(text);
    if is_limit(&text[..end]) {
        blank(&mut text[..end]);
    }
}

// ---- the stamps

/// Returns the first line of a text, and the bytes after its line feed.
fn first_line(text: &[u8]) -> (&[u8], &[u8])
    requires { text.now ≢ [] }
    ensures first { (lines text.now ≡ result.0.now ∷ lines result.1.now) ⊎ ((lines text.now ≡ result.0.now ∷ []) × (result.1.now ≡ [])) }
    ensures shorter { length result.1.now < length text.now }
{
    let (line, rest) = text.split_at(line_length(text));
    match rest {
        [] => (line, rest),
        [_, rest @ ..] => (line, rest),
    }
}

/// Returns whether the first stamp of a text is greater than this one. If the text has none, the result is true.
fn first_ascends(before: Decimal<'_>, text: &[u8]) -> bool
    requires { HasDigits (read before) }
    ensures { result ≡ first_ascends (Some (read before.entry)) (lines text.now) }
{
    let mut rest = text;
    while !rest.is_empty() {
        let (line, others) = first_line(rest);
        if let Some(stamp) = stamp_of(line) {
            return is_less(before, stamp);
        }
        rest = others;
    }
    true
}

/// Returns whether the first line of a text, which ends before `end`, is to be blanked, and whether the first stamp
/// after it ascends, if it is known whether the first stamp of the text does.
fn decide(ascending: bool, text: &[u8], end: usize) -> (bool, bool)
    requires { end ≤ length text.now }
    ensures line { line_if ascending (stamp_of (take end text.now)) (take end text.now) ≡ (if result.0 then without_stamp (take end text.now) else take end text.now) }
    ensures next { result.1 ≡ next_ascends ascending (stamp_of (take end text.now)) (lines (drop end text.now)) }
{
    let (line, others) = text.split_at(end);
    match stamp_of(line) {
        Some(stamp) => (ascending, first_ascends(stamp, others)),
        None => (false, ascending),
    }
}

/// Blanks the stamp of the first line of a text, if it has one that ascends. Returns the length of the line, and
/// whether the first stamp after the line ascends.
fn blank_first(text: &mut [u8], ascending: bool) -> (usize, bool)
    ensures text { text_if ascending text.old ≡ take (result.0 + 1) text.new ++ text_if result.1 (drop (result.0 + 1) text.new) }
    ensures within { result.0 ≤ length text.new }
    ensures same { length text.new ≡ length text.old }
{
    let end = line_length(text);
    let (blanked, next) = decide(ascending, text, end);
    if blanked {
        blank_stamp(&mut text[..end]);
    }
    (end, next)
}

/// Blanks the stamps that ascend, with the durations of their lines.
fn blank_stamps(text: &mut [u8])
    ensures { text.new ≡ without_stamps text.old }
{
    let mut at = 0;
    let mut ascending = true;
    while at < text.len() {
        let (length, next) = blank_first(&mut text[at..], ascending);
        at += length + 1;
        ascending = next;
    }
}

/// Rewrites the text of a plan, as other tools write it, to the form that `validate::read_plan` reads. No byte is
/// moved, so that the byte offset of a fault is that of the text as it was. These parts are blanked:
///
/// - a first line `limit N`, which `solve` prints before a plan that is not proved cheapest;
/// - a time stamp and its colon before a step, as in `0.5: (go a b) [1.0]`, if the stamp is greater than the one before
///   it in the text (VAL: Howey, Long and Fox 2004). Stamps are compared as decimal numbers of any length;
/// - a duration at the end of such a line.
///
/// All else stays as it is: so the plan reader refuses a stamp that does not ascend. The time is linear in the length
/// of the text, and nothing is copied.
pub fn to_plain(text: &mut [u8])
    ensures { text.new ≡ plain text.old }
{
    blank_limit(text);
    blank_stamps(text);
}
