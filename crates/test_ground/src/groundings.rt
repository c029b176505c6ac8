//! The least closed set of atoms, and the ground actions over it.

use crate::texts::{Told, joined, tells};
use std::alloc::Global;
use std::process::Abort;

/// Towns a, b and c, and d, which is a `place` and not a town.
const PLACES: &str =
    "(define (domain places) (:types town - place) (:constants a b c - town d - place)
    (:predicates (at ?x) (road ?x ?y) (done)) ";

const AT_A: &str = "(define (problem p) (:init (at a) (road b c) (road a b)) (:goal ";

/// The action that moves along a road.
const GO: &str =
    "(:action go :parameters (?x ?y - town) :precondition (and (at ?x) (road ?x ?y)) :effect (at ?y))";

const CLOSE: &str =
    "(:action close :parameters (?x - town) :precondition (not (at ?x)) :effect (done))";

const LEAP: &str = "(:action leap :precondition (at a) :effect (at c))";

const PAIR: &str = "(:action pair :parameters (?x ?y - town) :precondition (not (= ?x ?y)))";

const SAME: &str = "(:action same :parameters (?x - town ?y - place) :precondition (= ?x ?y))";

const VISIT: &str = "(:action visit :parameters (?x - place) :effect (at ?x))";

const END: &str = "(:action end :parameters (?x - town) :precondition (at c) :effect (done))";

const BOTH: &str = "(:action both :parameters (?x - town) :effect (and (at c) (at ?x)))";

/// Checks the grounding of the action over the towns, for this goal.
fn grounds(rt: &impl Abort, alloc: Global, action: &str, goal: &str, want: &str) {
    let domain = joined(rt, alloc, PLACES, action, ")");
    let problem = joined(rt, alloc, AT_A, goal, "))");
    tells(
        rt,
        alloc,
        domain.as_str(),
        problem.as_str(),
        Told::Grounding,
        want,
    );
}

#[test]
fn roads_are_followed(rt: HostRuntime) {
    let want = "at a|at b|at c|road a b|road b c\n\ngo a b|go b c";
    grounds(&rt, rt.alloc(), GO, "()", want);
    grounds(&rt, rt.alloc(), GO, "(at c)", want);
}

#[test]
fn negative_preconditions_are_left_out(rt: HostRuntime) {
    let want = "at a|road a b|road b c|done\n\nclose a|close b|close c";
    grounds(&rt, rt.alloc(), CLOSE, "()", want);
}

#[test]
fn schemas_without_parameters(rt: HostRuntime) {
    let want = "at a|at c|road a b|road b c\n\nleap";
    grounds(&rt, rt.alloc(), LEAP, "()", want);
}

#[test]
fn objects_that_differ_or_are_equal(rt: HostRuntime) {
    let pairs = "at a|road a b|road b c\n\npair a b|pair a c|pair b a|pair b c|pair c a|pair c b";
    grounds(&rt, rt.alloc(), PAIR, "()", pairs);
    let same = "at a|road a b|road b c\n\nsame a a|same b b|same c c";
    grounds(&rt, rt.alloc(), SAME, "()", same);
}

#[test]
fn objects_of_a_supertype(rt: HostRuntime) {
    let want = "at a|at b|at c|at d|road a b|road b c\n\nvisit a|visit b|visit c|visit d";
    grounds(&rt, rt.alloc(), VISIT, "()", want);
}

#[test]
fn atoms_of_the_goal_are_listed(rt: HostRuntime) {
    let pairs =
        "at a|at c|road a b|road b c\n\npair a b|pair a c|pair b a|pair b c|pair c a|pair c b";
    grounds(&rt, rt.alloc(), PAIR, "(at c)", pairs);
    grounds(&rt, rt.alloc(), END, "()", "at a|road a b|road b c\n\n");
    let ends = "at a|at c|road a b|road b c|done\n\nend a|end b|end c";
    grounds(&rt, rt.alloc(), END, "(at c)", ends);
}

#[test]
fn effects_on_a_constant_and_a_parameter(rt: HostRuntime) {
    let want = "at a|at b|at c|road a b|road b c\n\nboth a|both b|both c";
    grounds(&rt, rt.alloc(), BOTH, "()", want);
}

/// Balls x and y, and rooms p and q.
const GRIP: &str = "(define (domain grip)
    (:predicates (room ?r) (ball ?b) (here ?r) (in ?b ?r) (free) (held ?b))
    (:action move :parameters (?f ?t)
     :precondition (and (room ?f) (room ?t) (here ?f) (not (= ?f ?t)))
     :effect (and (here ?t) (not (here ?f))))
    (:action pick :parameters (?b ?r)
     :precondition (and (ball ?b) (room ?r) (here ?r) (in ?b ?r) (free))
     :effect (and (held ?b) (not (in ?b ?r)) (not (free))))
    (:action drop :parameters (?b ?r)
     :precondition (and (ball ?b) (room ?r) (here ?r) (held ?b))
     :effect (and (in ?b ?r) (free) (not (held ?b)))))";

const TWO_BALLS: &str = "(define (problem p) (:objects p q x y)
    (:init (room p) (room q) (ball x) (ball y) (here p) (in x p) (in y p) (free))
    (:goal (and (in x q) (in y q))))";

const DOOR: &str = "(define (domain door) (:predicates (in) (locked ?d))
    (:action enter :parameters (?d) :precondition (not (locked ?d)) :effect (in)))";

/// A road has a length, which is the action's cost.
const DRIVE: &str =
    "(define (domain drive) (:types loc) (:predicates (at ?x - loc) (road ?x ?y - loc))
    (:functions (total-cost) - number (len ?x ?y - loc) - number)
    (:action go :parameters (?x ?y - loc) :precondition (and (at ?x) (road ?x ?y))
     :effect (and (not (at ?x)) (at ?y) (increase (total-cost) (len ?x ?y)))))";

const ONE_DOOR: &str = "(define (problem p) (:objects d) (:init) (:goal (in)))";

/// The road from a to c has no length.
const TWO_LENGTHS: &str =
    "(define (problem p) (:objects a b c - loc) (:init (at a) (road a b) (road b c) (road a c)
     (= (len a b) 3) (= (len b c) 4)) (:goal (at c)) (:metric minimize (total-cost)))";

/// Checks the grounding of the task.
fn grounds_to(rt: &impl Abort, alloc: Global, domain: &str, problem: &str, want: &str) {
    tells(rt, alloc, domain, problem, Told::Grounding, want);
}

#[test]
fn objects_are_told_apart_by_static_atoms(rt: HostRuntime) {
    let want =
        "room p|room q|ball x|ball y|here p|here q|in x p|in x q|in y p|in y q|free|held x|held y\n\n\
         move p q|move q p|pick x p|pick x q|pick y p|pick y q|drop x p|drop x q|drop y p|drop y q";
    grounds_to(&rt, rt.alloc(), GRIP, TWO_BALLS, want);
}

#[test]
fn an_initial_state_without_atoms(rt: HostRuntime) {
    grounds_to(&rt, rt.alloc(), DOOR, ONE_DOOR, "in\n\nenter d");
}

#[test]
fn actions_without_a_cost_are_left_out(rt: HostRuntime) {
    let want = "at a|at b|at c|road a b|road a c|road b c\n\ngo a b|go b c";
    grounds_to(&rt, rt.alloc(), DRIVE, TWO_LENGTHS, want);
}

#[test]
fn actions_over_a_set_that_is_not_closed(rt: HostRuntime) {
    let domain = joined(&rt, rt.alloc(), PLACES, GO, ")");
    let problem = "(define (problem p) (:init (at a) (road a b)) (:goal ()))";
    tells(
        &rt,
        rt.alloc(),
        domain.as_str(),
        problem,
        Told::InitialActions,
        "go a b",
    );
}
