//! Words and lists.

use sexp::{SexpFault, Span, Tree, read, read_all};
use std::alloc::Global;
use std::process::Abort;

fn fault(alloc: Global, text: &[u8]) -> Option<SexpFault> {
    read(alloc, text).err()
}

fn fault_of_all(alloc: Global, text: &[u8]) -> Option<SexpFault> {
    read_all(alloc, text).err()
}

fn is_word(tree: &Tree, want: &str, place: Span) -> bool {
    match tree {
        Tree::Word { text, span } => text.as_str() == want && *span == place,
        Tree::List { .. } => false,
    }
}

/// Returns whether the tree is a list of `count` items at this span.
fn is_list(tree: &Tree, count: usize, place: Span) -> bool {
    match tree {
        Tree::Word { .. } => false,
        Tree::List { items, span } => items.len() == count && *span == place,
    }
}

#[test]
fn one_word(rt: HostRuntime) {
    let tree = read(rt.alloc(), b" Ab;c\n").expect(&rt, "a tree");
    assert!(rt; is_word(&tree, "ab", Span { start: 1, end: 3 }));
}

#[test]
fn one_list(rt: HostRuntime) {
    let tree = read(rt.alloc(), b"(a (B) ;)\n c)").expect(&rt, "a tree");
    assert!(rt; is_list(&tree, 3, Span { start: 0, end: 13 }));
}

fn count_of(alloc: Global, text: &[u8]) -> Option<usize> {
    match read_all(alloc, text) {
        Ok(trees) => Some(trees.len()),
        Err(_) => None,
    }
}

#[test]
fn several(rt: HostRuntime) {
    assert!(rt; count_of(rt.alloc(), b"a(b)c ; \xff") == Some(3));
    assert!(rt; count_of(rt.alloc(), b"") == Some(0));
}

/// Texts, and the fault of each.
const FAULTS: &[(&[u8], SexpFault)] = &[
    (b"a\x80", SexpFault::NotAscii(1)),
    (b"(a (b) (c", SexpFault::Unclosed(7)),
    (b"a )", SexpFault::StrayClose(2)),
    (b" ; a", SexpFault::Empty),
    (b"a b \x00", SexpFault::Trailing(2)),
    (b"a((((", SexpFault::Trailing(1)),
];

#[test]
fn faults(rt: HostRuntime) {
    for (at, (text, want)) in FAULTS.iter().enumerate() {
        assert!(rt; fault(rt.alloc(), text) == Some(*want), "row {at}");
    }
    let fault = fault_of_all(rt.alloc(), b"a b \x00");
    assert!(rt; fault == Some(SexpFault::NotAscii(4)));
}

/// Returns the fault of a text of `count` opening parentheses.
fn fault_of_opened(rt: &impl Abort, alloc: Global, count: usize) -> Option<SexpFault> {
    let deep = vec![in alloc; b'('; count].expect(rt, "memory");
    fault(alloc, &deep)
}

#[test]
fn levels(rt: HostRuntime) {
    let deepest = fault_of_opened(&rt, rt.alloc(), 200);
    assert!(rt; deepest == Some(SexpFault::Unclosed(199)));
    let deeper = fault_of_opened(&rt, rt.alloc(), 201);
    assert!(rt; deeper == Some(SexpFault::TooDeep(200)));
}
