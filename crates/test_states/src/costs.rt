//! Costs and distances: their limits, sums, order and text.

use cost::{Cost, Dist, MAX_COST, MAX_DISTANCE};
use std::alloc::Global;
use std::process::Abort;

fn dist(value: u64) -> Dist {
    Dist::fin(value).unwrap_or(Dist::inf())
}

#[test]
fn keeps_limits(rt: HostRuntime) {
    for (value, fits_cost, fits_distance) in [
        (0, true, true),
        (2_147_483_647, true, true),
        (2_147_483_648, false, true),
        (4_294_967_296, false, true),
        (9_223_372_036_854_775_808, false, true),
        (9_223_372_036_854_775_809, false, false),
        (18_446_744_073_709_551_615, false, false),
    ] {
        assert_eq!(rt;
            Cost::new(value).map(|c| c.get()),
            fits_cost.then_some(value)
        );
        let got = Dist::fin(value).and_then(|d| d.get());
        assert_eq!(rt; got, fits_distance.then_some(value));
    }
    assert_eq!(rt;
        (Cost::ZERO.get(), Cost::ONE.get(), Dist::ZERO.get()),
        (0, 1, Some(0))
    );
    assert!(rt; Dist::inf().is_infinite() && !dist(7).is_infinite());
}

#[test]
fn adds_and_orders(rt: HostRuntime) {
    let half = 4_611_686_018_427_387_904;
    for (a, b, sum) in [
        (3, 4, Some(7)),
        (half, half, Some(MAX_DISTANCE)),
        (half, half + 1, None),
        (MAX_DISTANCE, MAX_DISTANCE, None),
    ] {
        assert_eq!(rt; dist(a).sum(dist(b)), sum.map(dist));
        assert_eq!(rt; dist(a).sum(Dist::inf()), Some(Dist::inf()));
        assert_eq!(rt; Dist::inf().sum(dist(b)), Some(Dist::inf()));
        assert!(rt; dist(a) <= dist(b) && dist(b) < Dist::inf());
    }
    for (a, cost, sum) in [
        (0, 5, Some(5)),
        (MAX_DISTANCE, 0, Some(MAX_DISTANCE)),
        (MAX_DISTANCE, 1, None),
    ] {
        let cost = Cost::new(cost);
        assert_eq!(rt; cost.and_then(|c| dist(a).plus(c)), sum.map(dist));
        assert_eq!(rt; cost.and_then(|c| Dist::inf().plus(c)), Some(Dist::inf()));
    }
}

/// Checks the text of a distance.
fn prints_as(rt: &impl Abort, alloc: Global, value: Dist, text: &str) {
    let printed = value.to_string(alloc).expect(rt, "memory");
    assert_eq!(rt; printed.as_str(), text);
}

/// Checks the text of the cost of 10.
fn prints_ten(rt: &impl Abort, alloc: Global) {
    let ten = Cost::new(10).expect(rt, "a cost");
    let printed = ten.to_string(alloc).expect(rt, "memory");
    assert_eq!(rt; printed.as_str(), "10");
}

#[test]
fn prints(rt: HostRuntime) {
    prints_as(&rt, rt.alloc(), dist(0), "0");
    prints_as(&rt, rt.alloc(), dist(MAX_DISTANCE), "9223372036854775808");
    prints_as(&rt, rt.alloc(), Dist::inf(), "inf");
    let greatest = Cost::new(MAX_COST).map(Dist::from).unwrap_or(Dist::inf());
    prints_as(&rt, rt.alloc(), greatest, "2147483647");
    prints_ten(&rt, rt.alloc());
}
