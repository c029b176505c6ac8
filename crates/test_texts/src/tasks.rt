//! Tasks, their atoms and their schemas.

ghost use Rattle.std.specs.Prelude.{IsTrue};
ghost use Rattle.pddl_task.specs.Planning.{has_small_costs};

use pddl::read_task;
use pddl_task::{GroundAction, GroundAtom, Task};
use smallvec::SmallVec;
use std::alloc::Global;
use std::collections::HashSet;
use std::process::Abort;

fn atom(rt: &impl Abort, alloc: Global, predicate: usize, objects: &[usize]) -> GroundAtom {
    let objects = SmallVec::from_slice(alloc, objects).expect(rt, "memory");
    GroundAtom::new(predicate, objects)
}

/// Types: `object`, `town`, and `place`, a supertype of `town`. Objects: a, b and c are towns, and d is a `place`. The
/// action moves from a town to a `place` over a road, at the road's length plus a fee of 10.
const PLACES: &str = "(define (domain places) (:types town - place place - object)
    (:constants a b c - town d - place) (:predicates (at ?x) (road ?x ?y))
    (:functions (total-cost) - number (length ?x ?y) - number)
    (:action go :parameters (?x - town ?y - place)
     :precondition (and (at ?x) (not (= ?x ?y)) (not (road ?x ?y)))
     :effect (and (not (at ?x)) (at ?y) (increase (total-cost) (length ?x ?y)) (increase (total-cost) 10))))";

/// The lengths of the roads: 3 from a to b, and 4 from a to d.
const WITH_METRIC: &str =
    "(define (problem p) (:init (= (length a b) 3) (= (length a d) 4)) (:goal ())
    (:metric minimize (total-cost)))";

const WITHOUT_METRIC: &str =
    "(define (problem p) (:init (= (length a b) 3) (= (length a d) 4)) (:goal ()))";

/// Types, objects, and whether the object is of the type.
const TYPES: &[(usize, usize, bool)] = &[
    (1, 0, true),
    (2, 0, true),
    (0, 0, true),
    (1, 3, false),
    (2, 3, true),
    (0, 4, false),
    (3, 0, false),
];

/// Checks which objects are of which types.
fn have_types(rt: &impl Abort, task: &Task) {
    for (type_number, object, want) in TYPES {
        assert!(rt;
            task.is_of_type(*type_number, *object) == *want,
            "at {type_number} {object}"
        );
    }
}

/// Checks which objects are of which types in the task of this problem.
fn have_types_in(rt: &impl Abort, alloc: Global, problem: &str) {
    let task = read_task(alloc, PLACES.as_bytes(), problem.as_bytes()).expect(rt, "a task");
    have_types(rt, &task);
}

#[test]
fn types_lead_to_their_supertypes(rt: HostRuntime) {
    have_types_in(&rt, rt.alloc(), WITH_METRIC);
}

/// Returns whether the atoms are `at` of this object alone.
fn is_at(atoms: &[GroundAtom], object: usize) -> bool {
    match atoms {
        [atom] => atom.predicate == 0 && atom.objects.as_slice() == [object].as_slice(),
        _ => false,
    }
}

/// Returns the cost of an action, if it moves from `start` to `end` and its precondition has two literals; else 0.
fn cost_of_trip(action: &GroundAction, start: usize, end: usize) -> u64 {
    if is_at(&action.adds, end) && is_at(&action.deletes, start) && action.precondition.len() == 2 {
        action.cost
    } else {
        0
    }
}

/// Returns the cost of the action from a town to a `place`, if there is one.
fn cost_between(
    rt: &impl Abort,
    alloc: Global,
    task: &Task,
    start: usize,
    end: usize,
) -> Option<u64>
    requires { IsTrue (has_small_costs task.now) }
{
    match task.action_of(alloc, 0, &[start, end]).expect(rt, "memory") {
        Some(action) => Some(cost_of_trip(&action, start, end)),
        None => None,
    }
}

/// Returns the same cost in the task of this problem, with the metric or without it.
fn cost_of(rt: &impl Abort, alloc: Global, problem: &str, start: usize, end: usize) -> Option<u64> {
    let task = read_task(alloc, PLACES.as_bytes(), problem.as_bytes()).expect(rt, "a task");
    cost_between(rt, alloc, &task, start, end)
}

/// The start, the end, and the costs with the metric and without it, `None` if there is no action.
const COSTS: &[(usize, usize, Option<u64>, Option<u64>)] = &[
    (0, 1, Some(13), Some(1)),
    (0, 3, Some(14), Some(1)),
    (0, 0, None, None),
    (1, 2, None, Some(1)),
    (3, 0, None, None),
    (0, 4, None, None),
];

#[test]
fn actions_are_those_of_their_objects(rt: HostRuntime) {
    for (start, end, with_metric, without) in COSTS {
        let cost = cost_of(&rt, rt.alloc(), WITH_METRIC, *start, *end);
        assert!(rt; cost == *with_metric, "at {start} {end}");
        let cost = cost_of(&rt, rt.alloc(), WITHOUT_METRIC, *start, *end);
        assert!(rt; cost == *without, "at {start} {end} without metric");
    }
}

/// Returns whether a set of the one atom contains the other.
fn set_of_one_contains(alloc: Global, one: GroundAtom, other: &GroundAtom) -> bool {
    let mut set = HashSet::new(alloc);
    set.insert(one).is_ok() && set.contains(other)
}

/// Returns whether a set of the atom of 0, 1, 2, 3 and 4 contains that of these objects.
fn set_contains(rt: &impl Abort, alloc: Global, objects: &[usize]) -> bool {
    let other = atom(rt, alloc, 1, objects);
    set_of_one_contains(alloc, atom(rt, alloc, 1, &[0, 1, 2, 3, 4]), &other)
}

#[test]
fn a_set_tells_equal_atoms(rt: HostRuntime) {
    assert!(rt; set_contains(&rt, rt.alloc(), &[0, 1, 2, 3, 4]));
    assert!(rt; !set_contains(&rt, rt.alloc(), &[0, 1, 2, 3, 5]));
    assert!(rt; !set_contains(&rt, rt.alloc(), &[1, 0, 2, 3, 4]));
}
