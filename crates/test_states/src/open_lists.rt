//! Open lists.

use openlist::{Buckets, Heap, OpenEntry, OpenList, Rank};
use std::process::Abort;

fn entry(f: u64, cost: u64, steps: u64, index: usize) -> OpenEntry {
    OpenEntry {
        f,
        rank: Rank { cost, steps },
        index,
    }
}

/// The f-value, cost, steps and index of the entries that are pushed.
const ENTRIES: &[(u64, u64, u64, usize)] = &[
    (5, 5, 1, 0),
    (3, 1, 2, 1),
    (3, 1, 1, 2),
    (65_536, 0, 0, 3),
    (65_535, 9, 9, 4),
];

/// The order in which they are popped.
const ORDER: &[usize] = &[2, 1, 0, 4, 3];

fn push_entries<L: OpenList>(rt: &impl Abort, list: &mut L) {
    list.reserve(&[5, 3, 3, 65_536, 65_535])
        .expect(rt, "memory");
    for (f, cost, steps, index) in ENTRIES {
        list.push(entry(*f, *cost, *steps, *index))
            .expect(rt, "memory");
    }
}

fn pop_in_order<L: OpenList>(rt: &impl Abort, list: &mut L) {
    for index in ORDER {
        assert_eq!(rt; list.least().map(|e| e.index), Some(*index));
        assert_eq!(rt; list.pop().map(|e| e.index), Some(*index));
    }
    assert_eq!(rt; list.least(), None);
    assert_eq!(rt; list.pop(), None);
}

fn indices<L: OpenList>(rt: &impl Abort, list: &mut L) {
    push_entries(rt, list);
    pop_in_order(rt, list);
}

fn lower_after_a_pop<L: OpenList>(rt: &impl Abort, list: &mut L) {
    list.reserve(&[5, 2, 4]).expect(rt, "memory");
    list.push(entry(5, 0, 0, 0)).expect(rt, "memory");
    assert_eq!(rt; list.pop().map(|e| e.f), Some(5));
    list.push(entry(2, 0, 0, 1)).expect(rt, "memory");
    list.push(entry(4, 0, 0, 2)).expect(rt, "memory");
    assert_eq!(rt; list.pop().map(|e| e.f), Some(2));
    assert_eq!(rt; list.pop().map(|e| e.f), Some(4));
}

#[test]
fn heap_gives_the_order_of_entries(rt: HostRuntime) {
    indices(&rt, &mut Heap::new(rt.alloc()));
}

#[test]
fn heap_takes_a_lower_f_after_a_pop(rt: HostRuntime) {
    lower_after_a_pop(&rt, &mut Heap::new(rt.alloc()));
}

#[test]
fn buckets_give_the_order_of_entries(rt: HostRuntime) {
    indices(&rt, &mut Buckets::new(rt.alloc()));
}

#[test]
fn buckets_take_a_lower_f_after_a_pop(rt: HostRuntime) {
    lower_after_a_pop(&rt, &mut Buckets::new(rt.alloc()));
}

/// Returns the next number of a pseudo-random sequence (Marsaglia 2003, with the shifts 13, 7 and 17).
fn next_drawn(drawn: u64) -> u64 {
    let drawn = drawn ^ (drawn << 13);
    let drawn = drawn ^ (drawn >> 7);
    drawn ^ (drawn << 17)
}

/// Pushes and pops the same random entries on both lists, two pushes for each pop. The f-values are on both sides of
/// 65536.
fn push_and_pop<L: OpenList, M: OpenList>(rt: &impl Abort, first: &mut L, second: &mut M) {
    let mut drawn = 88_172_645_463_325_252;
    for index in 0..100_000usize {
        drawn = next_drawn(drawn);
        if drawn % 3 == 0 {
            assert_eq!(rt; first.least(), second.least());
            assert_eq!(rt; first.pop(), second.pop());
        } else {
            let f = 65_436 + drawn % 200;
            let entry = entry(f, drawn >> 60, (drawn >> 58) % 4, index);
            first.push(entry).expect(rt, "memory");
            second.push(entry).expect(rt, "memory");
        }
    }
}

/// Pops the entries that are left, at most 100,000.
fn pop_all<L: OpenList, M: OpenList>(rt: &impl Abort, first: &mut L, second: &mut M) {
    for _ in 0..100_000 {
        assert_eq!(rt; first.pop(), second.pop());
    }
    assert_eq!(rt; first.pop(), None);
    assert_eq!(rt; second.pop(), None);
}

#[test]
fn heap_and_buckets_give_the_same_order(rt: HostRuntime) {
    let mut heap = Heap::new(rt.alloc());
    let mut buckets = Buckets::new(rt.alloc());
    push_and_pop(&rt, &mut heap, &mut buckets);
    pop_all(&rt, &mut heap, &mut buckets);
}
