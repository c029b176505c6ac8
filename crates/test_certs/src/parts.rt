//! Values and states of a certificate.

use cert_value::{ClosedList, Values};
use cost::Dist;
use std::alloc::Global;
use std::process::Abort;

fn three_values(rt: &impl Abort, alloc: Global) -> Values {
    let mut values = Values::new(alloc);
    values.push(Dist::ZERO).expect(rt, "memory");
    values.push(Dist::inf()).expect(rt, "memory");
    let great = Dist::fin(9_223_372_036_854_775_808).unwrap_or(Dist::ZERO);
    values.push(great).expect(rt, "memory");
    values
}

/// Returns whether these are the values; `None` is infinite.
fn are_values(values: &Values, wanted: &[Option<u64>]) -> bool {
    for (place, want) in wanted.iter().enumerate() {
        if place >= values.len() || values.get(place).get() != *want {
            return false;
        }
    }
    values.len() == wanted.len()
}

#[test]
fn keeps_values(rt: HostRuntime) {
    let values = three_values(&rt, rt.alloc());
    assert!(rt; are_values(&values, &[Some(0), None, Some(9_223_372_036_854_775_808)]));
}

#[test]
fn begins_without_values(rt: HostRuntime) {
    assert!(rt; Values::new(rt.alloc()).is_empty());
}

fn has_state(closed: &ClosedList, place: usize, state: &[u32]) -> bool {
    place < closed.len() && closed.has_state(place, state)
}

/// Returns whether the list has these states, each a cost and two values, and no others.
fn are_states(closed: &ClosedList, wanted: &[(u64, [u32; 2])]) -> bool {
    for (place, (cost, state)) in wanted.iter().enumerate() {
        if place >= closed.len() || !closed.has_state(place, state) || closed.cost(place) != *cost {
            return false;
        }
    }
    closed.len() == wanted.len()
}

fn has_two_states(closed: &ClosedList) -> bool {
    closed.width() == Some(2)
        && are_states(closed, &[(7, [1, 2]), (9, [3, 65_535])])
        && !has_state(closed, 0, &[1, 3])
        && !has_state(closed, 0, &[1])
        && !has_state(closed, 1, &[3, 4, 5])
}

fn has_three_states(closed: &ClosedList) -> bool {
    are_states(
        closed,
        &[(7, [1, 2]), (9, [3, 65_535]), (5, [4_294_967_295, 65_536])],
    ) && !has_state(closed, 2, &[65_535, 0])
}

fn two_states(rt: &impl Abort, alloc: Global) -> ClosedList {
    let mut closed = ClosedList::new(alloc);
    closed.push(7, &[1, 2]).expect(rt, "memory");
    closed.push(9, &[3, 65_535]).expect(rt, "memory");
    closed
}

#[test]
fn begins_without_a_width(rt: HostRuntime) {
    assert!(rt; ClosedList::new(rt.alloc()).width().is_none());
}

#[test]
fn keeps_two_states(rt: HostRuntime) {
    let closed = two_states(&rt, rt.alloc());
    assert!(rt; has_two_states(&closed));
}

fn three_states(rt: &impl Abort, alloc: Global) -> ClosedList {
    let mut closed = ClosedList::new(alloc);
    closed.push(7, &[1, 2]).expect(rt, "memory");
    closed.push(9, &[3, 65_535]).expect(rt, "memory");
    closed
        .push(5, &[4_294_967_295, 65_536])
        .expect(rt, "memory");
    closed
}

#[test]
fn keeps_states(rt: HostRuntime) {
    let closed = three_states(&rt, rt.alloc());
    assert!(rt; has_three_states(&closed));
}
