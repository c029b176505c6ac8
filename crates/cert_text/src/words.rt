//! The words of a line.

ghost use Rattle.std.specs.Prelude.{◌≡◌, ◌≢◌, ◌<◌, ◌≤◌, ℕ, [], ◌∷◌, length, slice_index, ◌+◌, MatchOption, IfSome};
ghost use Rattle.cert_text.specs.Pieces.{pieces};
ghost use Rattle.cert_text.specs.Reading.{filled_behind};
ghost use Rattle.cert_text.specs.Cursors.{left};

/// Returns the number of bytes before the first separator, or of all bytes if there is none.
pub(crate) fn piece_length(bytes: &[u8], separator: u8) -> usize
    ensures within { result ≤ length bytes.now }
    ensures before { (k : ℕ) → k < result → slice_index bytes.now k ≢ separator }
    ensures found { result < length bytes.now → slice_index bytes.now result ≡ separator }
{
    let mut at = 0;
    while at < bytes.len() && bytes[at] != separator {
        at += 1;
    }
    at
}

/// The words of a line that remain to be read. Words are separated by single blanks: two adjacent blanks, and a blank
/// at the start or the end of the line, make an empty word.
#[derive(Clone, Copy)]
pub(crate) struct Words<'a> {
    /// The bytes from the next word to the end of the line.
    pub rest: &'a [u8],
    /// Whether the last word has been read.
    pub done: bool,
}

impl<'a> Words<'a> {
    /// Returns all words of a line.
    pub fn new(line: &'a [u8]) -> Words<'a>
        ensures { left result ≡ pieces 32 line.now }
    {
        Words {
            rest: line,
            done: false,
        }
    }

    /// Returns the next word and the words after it, or `None` if no word remains.
    pub fn first(self) -> Option<(&'a [u8], Words<'a>)>
        ensures words { MatchOption result (left self.entry ≡ []) (λ x. left self.entry ≡ x.0.now ∷ left x.1) }
        ensures shorter { IfSome result (λ x. length x.0.now + length x.1.rest.now ≤ length self.entry.rest.now) }
    {
        if self.done {
            return None;
        }
        let (word, behind) = self.rest.split_at(piece_length(self.rest, b' '));
        match behind {
            [] => Some((
                word,
                Words {
                    rest: behind,
                    done: true,
                },
            )),
            [_, rest @ ..] => Some((word, Words { rest, done: false })),
        }
    }

    /// Returns the number of words, or `None` if one of them is empty.
    #[tactic(auto, unfolding(crate::specs::Reading::filled_behind))]
    pub fn filled(self) -> Option<usize>
        ensures { result ≡ filled_behind 0 (left self.entry) }
    {
        let mut count = 0;
        let mut rest = self;
        while let Some((word, behind)) = rest.first() {
            if word.is_empty() {
                return None;
            }
            count += 1;
            rest = behind;
        }
        Some(count)
    }
}
