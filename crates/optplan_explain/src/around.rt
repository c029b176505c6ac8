//! The lists round a byte of a text.

use crate::tokens::{Token, Tokens, first_word};

/// What a name that is not declared would be.
#[derive(Clone, Copy, Debug, PartialEq, Eq)]
pub(crate) enum Role {
    Variable,
    Type,
    Function,
    Predicate,
    Object,
}

/// Returns the number of lists that are open at the end of a text.
fn open_count(text: &[u8]) -> usize {
    let mut open = 0usize;
    for token in (Tokens { rest: text }) {
        match token {
            Token::Open(_) => open = open.saturating_add(1),
            Token::Close => open = open.saturating_sub(1),
            Token::Word(_) => {}
        }
    }
    open
}

/// Returns what follows the last parenthesis after which `count` lists are open; the whole text if there is none.
fn last_opened(text: &[u8], count: usize) -> &[u8] {
    let mut open = 0usize;
    let mut list = text;
    for token in (Tokens { rest: text }) {
        match token {
            Token::Open(rest) => {
                open = open.saturating_add(1);
                if open == count {
                    list = rest;
                }
            }
            Token::Close => open = open.saturating_sub(1),
            Token::Word(_) => {}
        }
    }
    list
}

/// Returns the last token of a text if that is a word, and an empty one otherwise.
fn last_word(text: &[u8]) -> &[u8] {
    let mut last: &[u8] = &[];
    for token in (Tokens { rest: text }) {
        last = match token {
            Token::Word(word) => word,
            _ => &[],
        };
    }
    last
}

/// Returns whether no list is open at the end of a text.
pub(crate) fn is_outside(text: &[u8]) -> bool {
    open_count(text) == 0
}

/// Returns whether the lists with this head take functions.
fn takes_functions(head: &[u8]) -> bool {
    head.eq_ignore_ascii_case(b"=") || head.eq_ignore_ascii_case(b"increase")
}

/// Returns what a name after this text would be.
pub(crate) fn role_of(front: &[u8], name: &[u8]) -> Role {
    if name.starts_with(b"?") {
        return Role::Variable;
    }
    let open = open_count(front);
    let list = last_opened(front, open);
    let head = first_word(list);
    if last_word(list).eq_ignore_ascii_case(b"-") || head.eq_ignore_ascii_case(b"either") {
        return Role::Type;
    }
    if !head.is_empty() {
        return Role::Object;
    }
    if takes_functions(first_word(last_opened(front, open.saturating_sub(1)))) {
        Role::Function
    } else {
        Role::Predicate
    }
}
