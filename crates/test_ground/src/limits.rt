//! The greatest number of atoms, and more.

use crate::texts::{Told, tells};
use std::alloc::Global;
use std::process::Abort;

/// Every two objects are related.
const PAIRS: &str =
    "(define (domain pairs) (:predicates (p ?x ?y)) (:action relate :parameters (?x ?y) :effect (p ?x ?y)))";

fn push_object(rt: &impl Abort, alloc: Global, text: &mut String, number: usize) {
    let name = format!(in alloc; " o{number}").expect(rt, "memory");
    text.push_str(name.as_str()).expect(rt, "memory");
}

/// Returns a problem with `count` objects.
fn problem_of(rt: &impl Abort, alloc: Global, count: usize) -> String {
    let mut text = String::from_str(alloc, "(define (problem p) (:objects").expect(rt, "memory");
    for number in 0..count {
        push_object(rt, alloc, &mut text, number);
    }
    text.push_str(") (:init) (:goal ()))").expect(rt, "memory");
    text
}

/// Checks the number of atoms with this number of objects.
fn counts(rt: &impl Abort, alloc: Global, objects: usize, want: &str) {
    let problem = problem_of(rt, alloc, objects);
    tells(rt, alloc, PAIRS, problem.as_str(), Told::Count, want);
}

#[test]
fn as_many_atoms_as_the_limit_are_listed(rt: HostRuntime) {
    // 512 objects have 262,144 pairs.
    counts(&rt, rt.alloc(), 512, "262144");
    counts(&rt, rt.alloc(), 513, "more than the limit");
}
