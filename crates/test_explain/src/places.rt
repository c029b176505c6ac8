//! Lines and columns.

use optplan_explain::{Place, place_of};

/// Texts, byte offsets, and the line and column of each.
const PLACES: &[(&[u8], usize, usize, usize)] = &[
    (b"", 0, 1, 1),
    (b"", 7, 1, 1),
    (b"ab\ncd", 0, 1, 1),
    (b"ab\ncd", 1, 1, 2),
    (b"ab\ncd", 2, 1, 3),
    (b"ab\ncd", 3, 2, 1),
    (b"ab\ncd", 4, 2, 2),
    (b"ab\ncd", 5, 2, 3),
    (b"ab\ncd", 99, 2, 3),
    (b"ab\r\n\tc", 2, 1, 3),
    (b"ab\r\n\tc", 3, 1, 4),
    (b"ab\r\n\tc", 5, 2, 2),
    (b"\n\n", 0, 1, 1),
    (b"\n\n", 1, 2, 1),
    (b"\n\n", 2, 3, 1),
    (b"\xc3\xa9x", 2, 1, 3),
];

#[test]
fn places_are_counted(rt: HostRuntime) {
    for (text, offset, line, column) in PLACES {
        let place = place_of(text, *offset);
        assert_eq!(rt; (place.line, place.column), (*line, *column), "at {offset}");
    }
}

#[test]
fn a_place_is_compared(rt: HostRuntime) {
    assert!(rt; place_of(b"a\nb", 2) == Place { line: 2, column: 1 });
}
