//! Pieces of a text between separators, and the words of a line.

ghost use Rattle.std.specs.Prelude.{◌≡◌, ◌≢◌, ◌<◌, ◌≤◌, ℕ, [], ◌∷◌, length, slice_index, MatchOption};
ghost use Rattle.sasfile_reader.specs.Lines.{pieces, is_end_byte, trimmed, words};

/// Returns the length of the first piece, in bytes.
fn piece_length(bytes: &[u8], separator: u8) -> usize
    ensures within { result ≤ length bytes.now }
    ensures before { (k : ℕ) → k < result → slice_index bytes.now k ≢ separator }
    ensures found { result < length bytes.now → slice_index bytes.now result ≡ separator }
{
    for (at, byte) in bytes.iter().enumerate() {
        if *byte == separator {
            return at;
        }
    }
    bytes.len()
}

/// Returns the first piece, and the bytes after its separator.
pub(crate) fn first_piece(bytes: &[u8], separator: u8) -> (&[u8], &[u8])
    requires { bytes.now ≢ [] }
    ensures pieces { pieces separator bytes.now ≡ result.0.now ∷ pieces separator result.1.now }
    ensures shorter { length result.1.now < length bytes.now }
{
    let end = piece_length(bytes, separator);
    let (piece, rest) = bytes.split_at(end);
    match rest {
        [] => (piece, rest),
        [_, rest @ ..] => (piece, rest),
    }
}

/// Returns whether a byte is dropped at the end of a line.
fn is_end_byte(byte: u8) -> bool
    ensures { result ≡ is_end_byte byte }
{
    byte == b' ' || byte == b'\r'
}

/// Returns the line without the blanks and carriage returns at its end.
pub(crate) fn trimmed(line: &[u8]) -> &[u8]
    ensures { result.now ≡ trimmed line.now }
{
    let mut end = line.len();
    while end > 0 && is_end_byte(line[end - 1]) {
        end -= 1;
    }
    &line[..end]
}

/// Returns the first word of a line, and the bytes after it, or `None` if the line has no word.
pub(crate) fn next_word(line: &[u8]) -> Option<(&[u8], &[u8])>
    ensures { MatchOption result (words line.now ≡ []) (λ x. words line.now ≡ x.0.now ∷ words x.1.now) }
{
    let mut rest = line;
    while !rest.is_empty() {
        let (word, after) = first_piece(rest, b' ');
        if !word.is_empty() {
            return Some((word, after));
        }
        rest = after;
    }
    None
}
