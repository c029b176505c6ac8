//! Mutex groups that become variables.

use crate::numbers::{Asked, has_numbers};
use std::alloc::Global;
use std::process::Abort;

/// The road from a by b to c. The atoms at a, at b and at c come first, and then the two roads, which are constant.
const ROAD: &str = "(define (domain road) (:constants a b c) (:predicates (at ?x) (road ?x ?y))
    (:action first :precondition (and (at a) (road a b)) :effect (and (at b) (not (at a))))
    (:action second :precondition (and (at b) (road b c)) :effect (and (at c) (not (at b)))))";

const AT_A: &str = "(define (problem p) (:init (at a) (road a b) (road b c)) (:goal (at c)))";

const AT_A_AND_B: &str =
    "(define (problem p) (:init (at a) (at b) (road a b) (road b c)) (:goal (at c)))";

/// The gripper with an action for each room and ball. The atoms are, from 4 on: here p, here q, in x p, in x q, in y p,
/// in y q, free, held x, held y. The first four are constant.
const SPELLED_GRIPPER: &str = "(define (domain gripper)
    (:predicates (room ?r) (ball ?b) (here ?r) (in ?b ?r) (free) (held ?b))
    (:action a0 :precondition (here p) :effect (and (here q) (not (here p))))
    (:action a1 :precondition (here q) :effect (and (here p) (not (here q))))
    (:action a2 :precondition (and (here p) (in x p) (free)) :effect (and (held x) (not (in x p)) (not (free))))
    (:action a3 :precondition (and (here q) (in x q) (free)) :effect (and (held x) (not (in x q)) (not (free))))
    (:action a4 :precondition (and (here p) (in y p) (free)) :effect (and (held y) (not (in y p)) (not (free))))
    (:action a5 :precondition (and (here q) (in y q) (free)) :effect (and (held y) (not (in y q)) (not (free))))
    (:action a6 :precondition (and (here p) (held x)) :effect (and (in x p) (free) (not (held x))))
    (:action a7 :precondition (and (here q) (held x)) :effect (and (in x q) (free) (not (held x))))
    (:action a8 :precondition (and (here p) (held y)) :effect (and (in y p) (free) (not (held y))))
    (:action a9 :precondition (and (here q) (held y)) :effect (and (in y q) (free) (not (held y))))
    (:constants p q x y))";

/// The same problem without objects, which are the domain's.
const SPELLED_BALLS: &str = "(define (problem p)
    (:init (room p) (room q) (ball x) (ball y) (here p) (in x p) (in y p) (free))
    (:goal (and (in x q) (in y q))))";

/// Atoms: P a, P b, P c and Q a, numbered from 0 to 3. Its groups are 0 and 3, which are full, and 0, 1 and 2, of which
/// P a may be deleted while none of them is added.
const LETTERS: &str = "(define (domain letters) (:constants a b c) (:predicates (p ?x) (q ?x))
    (:action first :precondition (and (p b) (q a)) :effect (and (p a) (not (p b)) (not (q a))))
    (:action second :precondition (p b) :effect (and (p c) (not (p b))))
    (:action third :precondition (p c) :effect (and (p b) (not (p c))))
    (:action fourth :precondition (p a) :effect (and (q a) (not (p a)))))";

const ONE_GOAL: &str = "(define (problem p) (:init (p b) (q a)) (:goal (p a)))";

const TWO_GOALS: &str = "(define (problem p) (:init (p b) (q a)) (:goal (and (p a) (p b))))";

/// Atoms 0, 1, 2 follow each other in a circle, and so do 2, 3, 4.
const CIRCLES: &str = "(define (domain circles) (:predicates (p0) (p1) (p2) (p3) (p4))
    (:action first :precondition (p2) :effect (and (p0) (p3) (not (p2))))
    (:action second :precondition (p0) :effect (and (p1) (not (p0))))
    (:action third :precondition (p3) :effect (and (p4) (not (p3))))
    (:action fourth :precondition (and (p1) (p4)) :effect (and (p2) (not (p1)) (not (p4)))))";

const AT_TWO: &str = "(define (problem p) (:init (p2)) (:goal (p4)))";

fn has_variables(rt: &impl Abort, alloc: Global, domain: &str, problem: &str, want: &[usize]) {
    has_numbers(rt, alloc, domain, problem, Asked::Variables, want);
}

#[test]
fn a_road_is_one_variable(rt: HostRuntime) {
    has_variables(&rt, rt.alloc(), ROAD, AT_A, &[3, 0, 1, 2]);
}

#[test]
fn two_places_at_once_are_single_atoms(rt: HostRuntime) {
    has_variables(&rt, rt.alloc(), ROAD, AT_A_AND_B, &[2, 0, 2, 1, 2, 2]);
}

#[test]
fn a_gripper_has_four_variables(rt: HostRuntime) {
    let want = [2, 4, 5, 3, 6, 7, 11, 3, 8, 9, 12, 2, 10];
    has_variables(&rt, rt.alloc(), SPELLED_GRIPPER, SPELLED_BALLS, &want);
}

#[test]
fn the_largest_group_is_taken_first(rt: HostRuntime) {
    has_variables(&rt, rt.alloc(), LETTERS, ONE_GOAL, &[4, 0, 1, 2, 2, 3]);
}

/// The larger group has two goals, until the other group takes one of them.
#[test]
fn a_group_of_two_goals_waits(rt: HostRuntime) {
    has_variables(&rt, rt.alloc(), LETTERS, TWO_GOALS, &[2, 0, 3, 3, 1, 2]);
}

/// Of the two groups of the same size the first is chosen, and the rest of the second is not a usable group, because 3
/// is added when 2 is deleted.
#[test]
fn a_rest_that_is_unusable_is_left(rt: HostRuntime) {
    has_variables(&rt, rt.alloc(), CIRCLES, AT_TWO, &[3, 0, 1, 2, 2, 3, 2, 4]);
}
