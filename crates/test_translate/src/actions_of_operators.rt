//! The ground actions of operators.

use pddl::read_task;
use std::alloc::Global;
use translate::{Translated, translate};

/// The road from a by b to c, with an action for one who is at a and at b. Ground actions are in the order of their
/// schemas.
const ROAD: &str = "(define (domain road) (:constants a b c) (:predicates (at ?x))
    (:action first :precondition (at a) :effect (and (at b) (not (at a))))
    (:action both :precondition (and (at a) (at b)) :effect (and (at c) (not (at a)) (not (at b))))
    (:action second :precondition (at b) :effect (and (at c) (not (at b)))))";

const AT_A: &str = "(define (problem p) (:init (at a)) (:goal (at c)))";

/// Returns the translation of the task that the texts spell.
fn translation_of(alloc: Global, domain: &str, problem: &str) -> Option<Translated> {
    match read_task(alloc, domain.as_bytes(), problem.as_bytes()) {
        Ok(task) => translate(alloc, &task).ok(),
        Err(_) => None,
    }
}

#[test]
fn an_action_that_never_applies_has_no_operator(rt: HostRuntime) {
    let translated = translation_of(rt.alloc(), ROAD, AT_A).expect(&rt, "a translation");
    assert_eq!(rt; translated.task().operator_count(), 2);
    assert_eq!(rt; translated.action_of(0), Some(0));
    assert_eq!(rt; translated.action_of(1), Some(2));
    assert_eq!(rt; translated.action_of(2), None);
}
