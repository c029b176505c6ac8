//! The first action over a set of atoms that adds another one, and the least such atom.

use crate::texts::{Told, joined, tells};
use std::alloc::Global;
use std::process::Abort;

/// Towns a, b and c, and d, which is a `place` and not a town.
const PLACES: &str =
    "(define (domain places) (:types town - place) (:constants a b c - town d - place)
    (:predicates (at ?x) (road ?x ?y) (done)) ";

const GO: &str =
    "(:action go :parameters (?x ?y - town) :precondition (and (at ?x) (road ?x ?y)) :effect (at ?y))";

const BOTH: &str = "(:action both :parameters (?x - town) :effect (and (at c) (at ?x)))";

/// The start of a problem, up to further initial atoms.
const ROAD_A_B: &str = "(define (problem p) (:init (road a b) ";

/// Checks the first action over these atoms and a road from a to b that adds another atom, and the least such atom.
fn opens(rt: &impl Abort, alloc: Global, action: &str, atoms: &str, want: &str) {
    let domain = joined(rt, alloc, PLACES, action, ")");
    let problem = joined(rt, alloc, ROAD_A_B, atoms, ") (:goal ()))");
    tells(
        rt,
        alloc,
        domain.as_str(),
        problem.as_str(),
        Told::Opening,
        want,
    );
}

#[test]
fn the_first_open_action_is_named(rt: HostRuntime) {
    opens(&rt, rt.alloc(), GO, "(at a)", "go a b|at b");
    opens(&rt, rt.alloc(), BOTH, "", "both a|at a")
}

#[test]
fn the_least_atom_that_is_missing_is_named(rt: HostRuntime) {
    opens(&rt, rt.alloc(), BOTH, "(at c) (at a)", "both b|at b");
}

#[test]
fn closed_sets_have_nothing_open(rt: HostRuntime) {
    opens(&rt, rt.alloc(), GO, "(at b) (at a)", "closed");
    opens(&rt, rt.alloc(), BOTH, "(at c) (at b) (at a)", "closed");
}
