//! The kinds of words.

ghost use Rattle.std.specs.Prelude.{◌≡◌};
ghost use Rattle.pddl_syntax.specs.Words.{word_kind};

/// The kind of a word: a lone hyphen, a name, a variable, or none of these.
#[derive(Clone, Copy, Debug, PartialEq, Eq)]
pub enum WordKind {
    /// `-`.
    Dash,
    /// A word that begins with neither a colon nor a question mark, other than `-`.
    Name,
    /// A question mark and at least one more byte.
    Variable,
    /// Any other word: one that begins with a colon, a lone question mark, or the empty word.
    Other,
}

/// Returns the kind of a word.
pub fn word_kind(word: &str) -> WordKind
    ensures { result ≡ word_kind word.now }
{
    match word.as_bytes() {
        [] => WordKind::Other,
        [b'-'] => WordKind::Dash,
        [b':', ..] | [b'?'] => WordKind::Other,
        [b'?', _, ..] => WordKind::Variable,
        _ => WordKind::Name,
    }
}
