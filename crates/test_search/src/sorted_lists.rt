//! Lists of states in the order of their values.

use cert::sorted_list;
use cert_value::ClosedList;
use std::alloc::Global;
use std::process::Abort;
use std::thread::Threads;

/// Checks that these are the states, in the order of their values.
fn is_sorted(rt: &impl Abort, closed: &ClosedList) {
    assert_eq!(rt; closed.len(), 5);
    assert!(rt; closed.has_state(0, &[0, 9]) && closed.cost(0) == 0);
    assert!(rt; closed.has_state(1, &[1, 3]) && closed.cost(1) == 5);
    assert!(rt; closed.has_state(2, &[1, 70_000]) && closed.cost(2) == 2);
    assert!(rt; closed.has_state(3, &[2, 0]) && closed.has_state(4, &[2, 0]));
    let (one, other) = (closed.cost(3), closed.cost(4));
    assert_eq!(rt; (one.min(other), one.max(other)), (4, 9));
}

#[test]
fn sorts_by_values(rt: HostRuntime) {
    let costs = [9, 2, 5, 4, 0];
    let values = [2, 0, 1, 70_000, 1, 3, 2, 0, 0, 9];
    let closed = sorted_list(&rt, rt.alloc(), 2, &costs, &values).expect(&rt, "memory");
    is_sorted(&rt, &closed);
}

/// Checks that there is one state, of no values, at the cost 7.
fn has_one_state(rt: &impl Abort, closed: &ClosedList) {
    assert_eq!(rt; (closed.len(), closed.width()), (1, Some(0)));
    assert!(rt; closed.len() == 1 && closed.cost(0) == 7);
}

#[test]
fn sorts_states_without_values(rt: HostRuntime) {
    let closed = sorted_list(&rt, rt.alloc(), 0, &[7], &[]).expect(&rt, "memory");
    has_one_state(&rt, &closed);
}

/// Returns the number of states of a list that is made from none.
fn count_of_none(rt: &(impl Abort + Threads + Sync), alloc: Global) -> usize {
    sorted_list(rt, alloc, 3, &[], &[])
        .expect(rt, "memory")
        .len()
}

#[test]
fn sorts_no_states(rt: HostRuntime) {
    assert_eq!(rt; count_of_none(&rt, rt.alloc()), 0);
}
