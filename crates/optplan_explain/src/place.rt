//! Lines and columns of a text.

ghost use Rattle.std.specs.Prelude.{◌≡◌, ◌+◌, ◌-◌, ◌≤◌, count_by, drop, length, take};
ghost use Rattle.std.specs.List.{prefix_len, suffix_len};
ghost use Rattle.optplan_explain.specs.Places.{is_line_feed, is_in_line, lines_before, bytes_before, after_lines};

/// The line and column of a byte in a text.
#[derive(Clone, Copy, Debug, PartialEq, Eq)]
pub struct Place {
    /// The line, counted from 1. A line ends with a line feed.
    pub line: usize,
    /// The column, in bytes, counted from 1.
    pub column: usize,
}

/// Returns the line and column of the byte that would follow a text.
pub(crate) fn end_of(text: &[u8]) -> Place
    ensures line { result.line ≡ 1 + count_by is_line_feed text.now }
    ensures column { result.column ≡ 1 + suffix_len is_in_line text.now }
{
    let mut line = 1;
    let mut column = 1;
    for byte in text {
        if *byte == b'\n' {
            line += 1;
            column = 1;
        } else {
            column += 1;
        }
    }
    Place { line, column }
}

/// Returns the line and column of a byte offset in a text. An offset past the end counts as the end.
pub fn place_of(text: &[u8], offset: usize) -> Place
    ensures line { result.line ≡ 1 + lines_before text.now offset }
    ensures column { result.column ≡ 1 + bytes_before text.now offset }
{
    end_of(&text[..offset.min(text.len())])
}

/// Returns the parts of a text before a byte offset and from it on. An offset past the end counts as the end.
#[tactic(auto, using(crate::proofs::Appends::clamped))]
pub(crate) fn split(text: &[u8], offset: usize) -> (&[u8], &[u8])
    ensures front { result.0.now ≡ take offset text.now }
    ensures rest { result.1.now ≡ drop offset text.now }
{
    text.split_at(offset.min(text.len()))
}

/// Returns the number of bytes of a text's first line, without its line feed.
pub(crate) fn line_length(text: &[u8]) -> usize
    ensures value { result ≡ prefix_len is_in_line text.now }
    ensures within { result ≤ length text.now }
{
    for (i, byte) in text.iter().enumerate() {
        if *byte == b'\n' {
            return i;
        }
    }
    text.len()
}

/// Returns a text from its line `number` on, counted from 1; an empty text if it has fewer lines.
pub(crate) fn from_line(text: &[u8], number: usize) -> &[u8]
    ensures { result.now ≡ after_lines (number - 1) text.now }
{
    let mut left = number.saturating_sub(1);
    for (i, byte) in text.iter().enumerate() {
        if left == 0 {
            return &text[i..];
        }
        if *byte == b'\n' {
            left -= 1;
        }
    }
    &text[text.len()..]
}
