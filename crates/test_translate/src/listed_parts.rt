//! Faults of atoms and variables that are passed in.

ghost use Rattle.std.specs.Prelude.{All, IsTrue};
ghost use Rattle.std.specs.Bool.{OnTrue};
ghost use Rattle.std.specs.List.Sorted.{IsStrictlyIncreasing};
ghost use Rattle.pddl_task.specs.Planning.{has_small_costs};
ghost use Rattle.translate_theory.specs.Variables.{IsPlaced};

use pddl::read_task;
use pddl_task::{GroundAtom, Task};
use smallvec::SmallVec;
use std::alloc::Global;
use std::process::Abort;
use std::test::*;
use translate_theory::ListedVariable;
use translate_vars::{TranslateFault, check_parts};

/// A predicate, `at` of one object or `road` of two, and two objects or parameters, of which it uses the first ones.
type Row = (usize, [usize; 2]);

const AT_A: Row = (0, [0, 0]);

const AT_B: Row = (0, [1, 0]);

const AT_C: Row = (0, [2, 0]);

const ROAD_A_B: Row = (1, [0, 1]);

const ROAD_B_C: Row = (1, [1, 2]);

/// The atoms of the task; the last two are the roads.
const LISTED: [Row; 5] = [AT_A, AT_B, AT_C, ROAD_A_B, ROAD_B_C];

fn atom(rt: &impl Abort, alloc: Global, row: Row) -> GroundAtom {
    let (predicate, parameters) = row;
    let mut objects = SmallVec::new(alloc);
    for (place, object) in parameters.iter().enumerate() {
        if place <= predicate {
            objects.push(*object).expect(rt, "memory");
        }
    }
    GroundAtom::new(predicate, objects)
}

fn atoms(rt: &impl Abort, alloc: Global, rows: &[Row]) -> Vec<GroundAtom> {
    let mut atoms = Vec::new(alloc);
    for row in rows {
        atoms.push(atom(rt, alloc, *row)).expect(rt, "memory");
    }
    atoms
}

/// A variable: the index of its first atom, one past the last, and whether there is a none value.
type VariableRow = (usize, usize, bool);

fn variables(rt: &impl Abort, alloc: Global, rows: &[VariableRow]) -> Vec<ListedVariable> {
    let mut variables = Vec::new(alloc);
    for (first, end, has_none) in rows {
        let mut places = Vec::new(alloc);
        for place in *first..*end {
            places.push(place).expect(rt, "memory");
        }
        variables
            .push(ListedVariable {
                places,
                has_none: *has_none,
            })
            .expect(rt, "memory");
    }
    variables
}

fn first_object(atom: &GroundAtom) -> usize {
    atom.objects.get(0).copied().unwrap_or(0)
}

/// Returns the kind of a fault, with its index, its variable, or the first object of its atom.
fn kind_of(fault: &TranslateFault) -> (&'static str, usize) {
    match fault {
        TranslateFault::OutOfMemory => ("memory", 0),
        TranslateFault::GroundLimit => ("ground limit", 0),
        TranslateFault::Limit(_) => ("limit", 0),
        TranslateFault::BadAtom(place) => ("bad atom", *place),
        TranslateFault::Missing(atom) => ("missing", first_object(atom)),
        TranslateFault::NotClosed(atom) => ("not closed", first_object(atom)),
        TranslateFault::Uncovered(place) => ("uncovered", *place),
        TranslateFault::NotGroup(number) => ("no group", *number),
        TranslateFault::NotFull(number) => ("not full", *number),
        TranslateFault::Misplaced(number) => ("misplaced", *number),
    }
}

fn is_rising(places: &[usize]) -> bool
    ensures { OnTrue result (IsStrictlyIncreasing places.now) }
{
    for end in 1..places.len() {
        if places[end] <= places[end - 1] {
            return false;
        }
    }
    true
}

/// Returns whether the variable has atoms, with increasing numbers below `count`.
fn is_placed(variable: &ListedVariable, count: usize) -> bool
    ensures { OnTrue result (IsPlaced count variable.now) }
{
    let places = variable.places.as_slice();
    !places.is_empty() && is_rising(places) && places.iter().all(|place| *place < count)
}

fn are_placed(variables: &[ListedVariable], count: usize) -> bool
    ensures { OnTrue result (All (IsPlaced count) variables.now) }
{
    variables.iter().all(|variable| is_placed(variable, count))
}

/// Returns the fault of the atoms and the variables, or "fit" with the number of actions.
fn answer(
    rt: &impl Abort,
    alloc: Global,
    task: &Task,
    listed: &[Row],
    rows: &[VariableRow],
) -> (&'static str, usize)
    requires { IsTrue (has_small_costs task.now) }
{
    let atoms = atoms(rt, alloc, listed);
    let variables = variables(rt, alloc, rows);
    assert!(rt; are_placed(&variables, atoms.len()));
    match check_parts(alloc, task, &atoms, &variables) {
        Ok(parts) => ("fit", parts.actions.len()),
        Err(fault) => kind_of(&fault),
    }
}

const ROAD: &str = "(define (domain road) (:constants a b c) (:predicates (at ?x) (road ?x ?y))
    (:action go :parameters (?x ?y) :precondition (and (at ?x) (road ?x ?y)) :effect (and (at ?y) (not (at ?x)))))";

/// Initial atoms in addition to the roads from a by b to c, a goal, atoms and variables, and the answer for them.
#[derive(Clone, Copy)]
struct Case<'a> {
    initial: &'a str,
    goal: &'a str,
    listed: &'a [Row],
    variables: &'a [VariableRow],
    want: (&'a str, usize),
}

fn check(rt: &impl Abort, alloc: Global, case: &Case<'_>) {
    let problem = format!(in alloc;
        "(define (problem p) (:init {} (road a b) (road b c)) (:goal {}))",
        case.initial, case.goal
    )
    .expect(rt, "memory");
    let task = read_task(alloc, ROAD.as_bytes(), problem.as_bytes()).expect(rt, "a task");
    assert_eq!(rt;
        answer(rt, alloc, &task, case.listed, case.variables),
        case.want
    );
}

fn check_all(rt: &impl Abort, alloc: Global, cases: &[Case<'_>]) {
    for case in cases {
        check(rt, alloc, case);
    }
}

/// Returns the case of these variables over all atoms, from a with the goal c.
const fn with_variables<'a>(variables: &'a [VariableRow], want: (&'a str, usize)) -> Case<'a> {
    Case {
        initial: "(at a)",
        goal: "(at c)",
        listed: &LISTED,
        variables,
        want,
    }
}

/// Variables of at a and at b, and of at c.
#[test]
fn the_first_fault_of_variables_is_told(rt: HostRuntime) {
    let cases = [
        with_variables(&[(0, 2, true), (2, 3, true)], ("fit", 2)),
        with_variables(&[(0, 3, false)], ("fit", 2)),
        with_variables(&[(0, 2, false), (2, 3, true)], ("not full", 0)),
        with_variables(&[(0, 2, true)], ("uncovered", 2)),
        with_variables(&[(0, 3, true), (3, 4, true)], ("misplaced", 1)),
        with_variables(&[(0, 2, true), (1, 3, true)], ("misplaced", 1)),
        with_variables(&[(0, 1, false), (1, 3, true)], ("misplaced", 0)),
    ];
    check_all(&rt, rt.alloc(), &cases);
}

/// Returns the case of one variable of all three atoms.
const fn with_one_variable<'a>(
    initial: &'a str,
    goal: &'a str,
    want: (&'a str, usize),
) -> Case<'a> {
    Case {
        initial,
        goal,
        listed: &LISTED,
        variables: &[(0, 3, true)],
        want,
    }
}

#[test]
fn two_true_atoms_or_goals_are_in_no_variable(rt: HostRuntime) {
    let cases = [
        with_one_variable("(at a) (at b)", "(at c)", ("no group", 0)),
        with_one_variable("(at a)", "(and (at b) (at c))", ("misplaced", 0)),
    ];
    check_all(&rt, rt.alloc(), &cases);
}

/// Returns the case of these atoms, from a, without variables.
const fn with_atoms<'a>(goal: &'a str, listed: &'a [Row], want: (&'a str, usize)) -> Case<'a> {
    Case {
        initial: "(at a)",
        goal,
        listed,
        variables: &[],
        want,
    }
}

#[test]
fn the_first_fault_of_atoms_is_told(rt: HostRuntime) {
    let cases = [
        with_atoms("()", &[AT_A, AT_B, AT_C, ROAD_A_B], ("missing", 1)),
        with_atoms("()", &[AT_C, AT_B, ROAD_A_B, ROAD_B_C], ("missing", 0)),
        with_atoms("(at c)", &[AT_A, AT_B, ROAD_A_B, ROAD_B_C], ("missing", 2)),
        with_atoms("()", &[AT_A, AT_B, ROAD_A_B, ROAD_B_C], ("not closed", 2)),
        with_atoms("()", &[AT_A, AT_B, AT_A], ("bad atom", 2)),
        with_atoms("()", &[AT_A, (1, [0, 7])], ("bad atom", 1)),
        with_atoms("()", &[(2, [0, 0])], ("bad atom", 0)),
    ];
    check_all(&rt, rt.alloc(), &cases);
}
