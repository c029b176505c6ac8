//! The parts of texts that explanations show.

ghost use Rattle.std.specs.Prelude.{◌≡◌, ◌++◌, ◌<◌, ◌≤◌, OnOk, codes, length, map, replicate, string_bytes};
ghost use Rattle.optplan_explain.specs.Shown.{printable, shown_before, shown_end, shown_start, caret_after, shown_part, caret, shown_line};

use crate::place::{end_of, from_line, line_length, split};
use std::alloc::AllocError;

/// At most this many bytes are shown of a line before a fault.
const MAX_BEFORE: usize = 100;

/// At most this many bytes are shown of a line from a fault on.
const MAX_FROM: usize = 60;

/// At most this many bytes are shown of a line that is at fault as a whole.
const MAX_LINE: usize = 160;

/// Returns the byte, or a blank if it is not printable ASCII.
fn printable(byte: u8) -> u8
    ensures value { result ≡ printable byte }
    ensures ascii { result < 128 }
{
    if 32 <= byte && byte <= 126 {
        byte
    } else {
        b' '
    }
}

/// Appends bytes, with a blank for each that is not printable ASCII.
#[tactic(auto, using(crate::proofs::Appends::appending))]
pub(crate) fn push_shown(out: &mut String, bytes: &[u8]) -> Result<(), AllocError>
    ensures { OnOk result (string_bytes out.new ≡ string_bytes out.old ++ map printable bytes.now) }
{
    for byte in bytes {
        out.push(printable(*byte) as char)?;
    }
    Ok(())
}

/// Returns how many bytes are shown before the end of a text: those of its last line, at most 100.
#[tactic(auto, using(crate::proofs::Appends::within))]
fn shown_before(front: &[u8]) -> usize
    ensures value { result ≡ shown_before front.now }
    ensures within { result ≤ length front.now }
{
    (end_of(front).column - 1).min(MAX_BEFORE)
}

/// Appends the last bytes of a text that are shown.
#[tactic(auto, unfolding(crate::specs::Shown::shown_end))]
fn push_end(out: &mut String, front: &[u8]) -> Result<(), AllocError>
    ensures { OnOk result (string_bytes out.new ≡ string_bytes out.old ++ shown_end front.now) }
{
    let start = front.len() - shown_before(front);
    push_shown(out, &front[start..])
}

/// Appends the first bytes of a text's first line, at most `most`.
#[tactic(auto, unfolding(crate::specs::Shown::shown_start))]
fn push_start(out: &mut String, rest: &[u8], most: usize) -> Result<(), AllocError>
    ensures { OnOk result (string_bytes out.new ≡ string_bytes out.old ++ shown_start most rest.now) }
{
    push_shown(out, &rest[..most.min(line_length(rest))])
}

fn push_blanks(out: &mut String, count: usize) -> Result<(), AllocError>
    ensures { OnOk result (string_bytes out.new ≡ string_bytes out.old ++ replicate count 32) }
{
    let mut left = count;
    while left > 0 {
        out.push(' ')?;
        left -= 1;
    }
    Ok(())
}

/// Appends a caret, after as many blanks as bytes are shown before the end of a text.
#[tactic(auto, using(crate::proofs::Appends::appending), unfolding(crate::specs::Shown::caret_after))]
fn push_caret(out: &mut String, front: &[u8]) -> Result<(), AllocError>
    ensures { OnOk result (string_bytes out.new ≡ string_bytes out.old ++ caret_after front.now) }
{
    push_blanks(out, shown_before(front))?;
    out.push_str("^")
}

/// Appends the shown part of the line that holds a byte offset, and a line with a caret under that byte.
#[tactic(auto, using(crate::proofs::Appends::appending))]
pub(crate) fn push_part(out: &mut String, text: &[u8], offset: usize) -> Result<(), AllocError>
    ensures { OnOk result (string_bytes out.new ≡ string_bytes out.old
        ++ (shown_part text.now offset ++ codes "\n" ++ caret text.now offset ++ codes "\n")) }
{
    let (front, rest) = split(text, offset);
    push_end(out, front)?;
    push_start(out, rest, MAX_FROM)?;
    out.push_str("\n")?;
    push_caret(out, front)?;
    out.push_str("\n")
}

/// Appends the shown part of a line, counted from 1.
#[tactic(auto, using(crate::proofs::Appends::appending))]
pub(crate) fn push_line(out: &mut String, text: &[u8], number: usize) -> Result<(), AllocError>
    ensures { OnOk result (string_bytes out.new ≡ string_bytes out.old ++ (shown_line text.now number ++ codes "\n")) }
{
    push_start(out, from_line(text, number), MAX_LINE)?;
    out.push_str("\n")
}
