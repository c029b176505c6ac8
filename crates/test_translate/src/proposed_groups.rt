//! Mutex groups that are proposed.

use crate::numbers::{Asked, has_numbers};
use crate::texts::{GRIPPER, TWO_BALLS};

/// The atoms are, from 4 on: here p, here q, in x p, in x q, in y p, in y q, free, held x, held y.
#[test]
fn a_gripper_has_four_groups(rt: HostRuntime) {
    let want = [3, 6, 7, 11, 3, 8, 9, 12, 2, 4, 5, 3, 10, 11, 12];
    has_numbers(&rt, rt.alloc(), GRIPPER, TWO_BALLS, Asked::Groups, &want);
}
