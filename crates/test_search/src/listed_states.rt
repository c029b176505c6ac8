//! Look-ups of listed states by their values.

use cert_value::ClosedList;
use checker_states::ClosedIndex;
use std::alloc::Global;
use std::process::Abort;
use std::thread::Threads;

/// Returns a list of four states of two values, two of which are the same.
fn four_states(rt: &impl Abort, alloc: Global) -> ClosedList {
    let mut closed = ClosedList::new(alloc);
    closed.push(5, &[1, 2]).expect(rt, "memory");
    closed.push(3, &[1, 2]).expect(rt, "memory");
    closed.push(2, &[0, 7]).expect(rt, "memory");
    closed
        .push(18_446_744_073_709_551_615, &[0, 0])
        .expect(rt, "memory");
    closed
}

/// Checks which states are listed among the four, and at which costs.
fn lists_the_four(rt: &impl Abort, index: &ClosedIndex<'_>) {
    assert!(rt;
        index.is_listed(&[1, 2], 5) && index.is_listed(&[1, 2], 3),
        "a state that is listed twice"
    );
    assert!(rt; !index.is_listed(&[1, 2], 2), "at less than both costs");
    assert!(rt;
        index.is_listed(&[0, 7], 2) && !index.is_listed(&[0, 7], 1),
        "at its cost, and at less"
    );
    assert!(rt;
        index.is_listed(&[0, 0], 18_446_744_073_709_551_615),
        "at the greatest cost"
    );
    assert!(rt; !index.is_listed(&[7, 0], 9), "another state");
    assert!(rt;
        !index.is_listed(&[1], 9) && !index.is_listed(&[1, 2, 0], 9),
        "other widths"
    );
}

#[test]
fn finds_listed_states(rt: HostRuntime) {
    let closed = four_states(&rt, rt.alloc());
    let index = ClosedIndex::new(&rt, rt.alloc(), &closed).expect(&rt, "memory");
    lists_the_four(&rt, &index);
}

/// Checks that a state of no values is listed, at the cost 4.
fn lists_a_state_of_no_values(rt: &impl Abort, index: &ClosedIndex<'_>) {
    assert!(rt; index.is_listed(&[], 4) && !index.is_listed(&[], 3) && !index.is_listed(&[0], 9));
}

#[test]
fn finds_states_of_no_values(rt: HostRuntime) {
    let mut closed = ClosedList::new(rt.alloc());
    closed.push(4, &[]).expect(&rt, "memory");
    let index = ClosedIndex::new(&rt, rt.alloc(), &closed).expect(&rt, "memory");
    lists_a_state_of_no_values(&rt, &index);
}

/// Returns whether the state of no values is listed in the empty list.
fn is_listed_among_none<R: Abort + Threads + Sync>(rt: &R, alloc: Global) -> bool {
    let closed = ClosedList::new(alloc);
    let index = ClosedIndex::new(rt, alloc, &closed).expect(rt, "memory");
    index.is_listed(&[], 9)
}

#[test]
fn finds_nothing_among_no_states(rt: HostRuntime) {
    assert!(rt; !is_listed_among_none(&rt, rt.alloc()));
}
