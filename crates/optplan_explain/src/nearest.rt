//! The declared name that is nearest to a name.

ghost use Rattle.std.specs.Prelude.{◌≤◌};

use crate::tokens::{Token, Tokens};
use std::alloc::{AllocError, Global};
use strsim::generic_levenshtein;

/// Longer words are near to none.
const MAX_LENGTH: usize = 64;

/// The greatest edit distance of near names.
const MAX_EDITS: usize = 2;

/// The kind of a list, by its head.
#[derive(Clone, Copy, Debug, PartialEq, Eq)]
enum Section {
    /// The head was not read yet.
    Unread,
    /// `:types`, `:predicates`, `:functions`, `:constants` or `:objects`: its words are declared.
    Names,
    /// `:action`, before its name.
    Action,
    Other,
}

/// Returns the kind of the lists with this head.
fn section_of(head: &[u8]) -> Section {
    let declares = head.eq_ignore_ascii_case(b":types")
        || head.eq_ignore_ascii_case(b":predicates")
        || head.eq_ignore_ascii_case(b":functions")
        || head.eq_ignore_ascii_case(b":constants")
        || head.eq_ignore_ascii_case(b":objects");
    if declares {
        Section::Names
    } else if head.eq_ignore_ascii_case(b":action") {
        Section::Action
    } else {
        Section::Other
    }
}

/// Returns whether a word of a section is a name: no variable, `-` or `either`.
fn is_name(word: &[u8]) -> bool {
    !word.starts_with(b"?")
        && !word.eq_ignore_ascii_case(b"-")
        && !word.eq_ignore_ascii_case(b"either")
}

/// The state of reading a text for the names that it declares.
#[derive(Clone, Copy)]
struct Declarations {
    /// The number of open lists.
    open: usize,
    /// The kind of the list in which the second is open.
    section: Section,
}

impl Declarations {
    /// Returns the name that a word declares, if it declares one.
    fn name<'a>(&mut self, word: &'a [u8]) -> Option<&'a [u8]> {
        match self.section {
            Section::Unread => {
                self.section = section_of(word);
                None
            }
            Section::Action => {
                self.section = Section::Other;
                Some(word)
            }
            Section::Names => if is_name(word) { Some(word) } else { None },
            Section::Other => None,
        }
    }

    /// Reads a token, and returns the name that it declares, if it declares one.
    fn read<'a>(&mut self, token: Token<'a>) -> Option<&'a [u8]> {
        match token {
            Token::Open(_) => {
                self.open = self.open.saturating_add(1);
                if self.open == 2 {
                    self.section = Section::Unread;
                }
                None
            }
            Token::Close => {
                self.open = self.open.saturating_sub(1);
                if self.open < 2 {
                    self.section = Section::Other;
                }
                None
            }
            Token::Word(word) => self.name(word),
        }
    }
}

/// A name, and its edit distance.
#[derive(Clone, Copy)]
pub(crate) struct Nearest<'a> {
    edits: usize,
    pub name: &'a [u8],
}

fn lower(alloc: Global, word: &[u8]) -> Result<Vec<u8>, AllocError> {
    word.iter()
        .map(|byte| byte.to_ascii_lowercase())
        .collect(alloc)
}

/// Returns the edit distance of two words, in any case.
fn edits(alloc: Global, word: &[u8], other: &[u8]) -> Result<usize, AllocError> {
    let word = lower(alloc, word)?;
    let other = lower(alloc, other)?;
    generic_levenshtein(alloc, word.as_slice(), other.as_slice())
}

/// Returns the nearer of a name and a nearest one so far; the latter if both are as near.
fn nearer<'a>(
    alloc: Global,
    word: &[u8],
    nearest: Option<Nearest<'a>>,
    name: &'a [u8],
) -> Result<Option<Nearest<'a>>, AllocError> {
    let most = MAX_EDITS.min(word.len() / 3);
    let most = match nearest {
        Some(nearest) => most.min(nearest.edits.saturating_sub(1)),
        None => most,
    };
    if most == 0 || word.len().abs_diff(name.len()) > most || name.len() > MAX_LENGTH {
        return Ok(nearest);
    }
    let edits = edits(alloc, word, name)?;
    if edits == 0 || edits > most {
        return Ok(nearest);
    }
    Ok(Some(Nearest { edits, name }))
}

/// Returns the nearer of a nearest name so far and the names that a text declares.
///
/// A name is near at an edit distance of 1 or 2, at most a third of the word's length. None is near to a variable.
pub(crate) fn nearest_in<'a>(
    alloc: Global,
    word: &[u8],
    nearest: Option<Nearest<'a>>,
    text: &'a [u8],
) -> Result<Option<Nearest<'a>>, AllocError> {
    let mut nearest = nearest;
    if word.len() > MAX_LENGTH || word.starts_with(b"?") {
        return Ok(nearest);
    }
    let mut declarations = Declarations {
        open: 0,
        section: Section::Other,
    };
    for token in (Tokens { rest: text }) {
        if let Some(name) = declarations.read(token) {
            nearest = nearer(alloc, word, nearest, name)?;
        }
    }
    Ok(nearest)
}
