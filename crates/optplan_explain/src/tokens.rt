//! The tokens of a text of words and lists.

ghost use Rattle.std.specs.Prelude.{◌<◌, ◌≤◌, length, IfSome};

use crate::place::split;
use sexp::{ByteKind, kind_of};

/// A parenthesis or a word.
#[derive(Clone, Copy)]
pub(crate) enum Token<'a> {
    /// An opening parenthesis, with the text after it.
    Open(&'a [u8]),
    Close,
    Word(&'a [u8]),
}

/// Returns a text without the blanks and comments at its start.
fn without_gap(text: &[u8]) -> &[u8]
    ensures { length result.now ≤ length text.now }
{
    let mut in_comment = false;
    for (i, byte) in text.iter().enumerate() {
        match kind_of(*byte) {
            ByteKind::Semicolon => in_comment = true,
            ByteKind::Blank => in_comment = in_comment && *byte != b'\n',
            _ => {
                if !in_comment {
                    return &text[i..];
                }
            }
        }
    }
    &text[text.len()..]
}

/// Returns the number of letters at the start of a text.
fn letter_count(text: &[u8]) -> usize
    ensures { result ≤ length text.now }
{
    for (i, byte) in text.iter().enumerate() {
        if kind_of(*byte) != ByteKind::Letter {
            return i;
        }
    }
    text.len()
}

/// Returns the first token of a text and what follows it, or `None` if there is none. A byte that is not allowed
/// outside comments counts as a word.
fn first_token(text: &[u8]) -> Option<(Token<'_>, &[u8])>
    ensures { IfSome result (λ x. length x.1.now < length text.now) }
{
    let text = without_gap(text);
    match text {
        [] => None,
        [first, rest @ ..] => match kind_of(*first) {
            ByteKind::Open => Some((Token::Open(rest), rest)),
            ByteKind::Close => Some((Token::Close, rest)),
            _ => {
                let end = 1 + letter_count(rest);
                Some((Token::Word(&text[..end]), &text[end..]))
            }
        },
    }
}

/// The tokens of a text, in order.
#[derive(Clone, Copy)]
pub(crate) struct Tokens<'a> {
    /// The part of the text that is not read yet.
    pub rest: &'a [u8],
}

impl<'a> Iterator for Tokens<'a> {
    ghost use Rattle.std.specs.Prelude.{length};
    ghost use Rattle.std.specs.Iterator.{at_most};

    type Item = Token<'a>;

    ghost remaining = { λ s. at_most (length s.rest.now) };

    fn next(&mut self) -> Option<Token<'a>> {
        let (token, rest) = first_token(self.rest)?;
        self.rest = rest;
        Some(token)
    }
}

/// Returns the word at the start of a text, after blanks and comments; empty if there is none.
pub(crate) fn first_word(text: &[u8]) -> &[u8] {
    match first_token(text) {
        Some((Token::Word(word), _)) => word,
        _ => &[],
    }
}

/// Returns the word that begins at a byte offset, or at the head of the list that begins there if `in_list` is set;
/// empty if there is none.
pub(crate) fn name_at(text: &[u8], at: usize, in_list: bool) -> &[u8] {
    match split(text, at).1 {
        [b'(', list @ ..] => if in_list { first_word(list) } else { &[] },
        rest => first_word(rest),
    }
}
