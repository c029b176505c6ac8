//! Parts of tasks, worked out by hand. Only the parts are tested, because what `assemble` requires of its lists cannot
//! be tested at run time.

ghost use Rattle.std.specs.Prelude.{◌<◌, ◌≤◌, All, IsTrue, length};
ghost use Rattle.pddl_task.specs.Planning.{has_small_costs};

use crate::texts::{GRIPPER, TWO_BALLS};
use cost::Cost;
use fdr::{Fact, Operator};
use ground::ground;
use ground_atoms::Atoms;
use indexmap::IndexMap;
use pddl::read_task;
use pddl_names::Names;
use pddl_task::{GroundAction, GroundAtom, GroundLiteral, Task, Vocabulary};
use smallvec::SmallVec;
use std::alloc::Global;
use std::process::Abort;
use translate_assembly::{Parts, parts_of};
use translate_theory::ListedVariable;

/// A predicate and its objects.
type Atom<'a> = (usize, &'a [usize]);

fn atom(rt: &impl Abort, alloc: Global, row: Atom<'_>) -> GroundAtom {
    let objects = SmallVec::from_slice(alloc, row.1).expect(rt, "memory");
    GroundAtom::new(row.0, objects)
}

fn atoms(rt: &impl Abort, alloc: Global, rows: &[Atom<'_>]) -> Vec<GroundAtom> {
    let mut atoms = Vec::new(alloc);
    for row in rows {
        atoms.push(atom(rt, alloc, *row)).expect(rt, "memory");
    }
    atoms
}

fn listed(rt: &impl Abort, alloc: Global, rows: &[Atom<'_>]) -> Atoms {
    let mut atoms = Atoms::new(alloc);
    for row in rows {
        atoms.push(atom(rt, alloc, *row)).expect(rt, "memory");
    }
    atoms
}

/// Pushes a literal for each row: its atom, or the negation of it.
fn push_literals(
    rt: &impl Abort,
    alloc: Global,
    literals: &mut Vec<GroundLiteral>,
    rows: &[Atom<'_>],
    positive: bool,
) {
    for row in rows {
        let atom = atom(rt, alloc, *row);
        literals
            .push(GroundLiteral { atom, positive })
            .expect(rt, "memory");
    }
}

/// Returns an atom for each wanted row, and the negation of one for each excluded row.
fn literals(
    rt: &impl Abort,
    alloc: Global,
    wanted: &[Atom<'_>],
    excluded: &[Atom<'_>],
) -> Vec<GroundLiteral> {
    let mut literals = Vec::new(alloc);
    push_literals(rt, alloc, &mut literals, excluded, false);
    push_literals(rt, alloc, &mut literals, wanted, true);
    literals
}

/// An action: its objects, the wanted and the excluded atoms, and what it adds and deletes.
#[derive(Clone, Copy)]
struct Row<'a> {
    objects: &'a [usize],
    wanted: &'a [Atom<'a>],
    excluded: &'a [Atom<'a>],
    adds: &'a [Atom<'a>],
    deletes: &'a [Atom<'a>],
}

/// Returns the action of the first schema, at this cost.
fn action(rt: &impl Abort, alloc: Global, row: Row<'_>, cost: u64) -> GroundAction {
    GroundAction {
        schema: 0,
        objects: SmallVec::from_slice(alloc, row.objects).expect(rt, "memory"),
        precondition: literals(rt, alloc, row.wanted, row.excluded),
        adds: atoms(rt, alloc, row.adds),
        deletes: atoms(rt, alloc, row.deletes),
        cost,
    }
}

fn actions(rt: &impl Abort, alloc: Global, rows: &[Row<'_>], cost: u64) -> Vec<GroundAction> {
    let mut actions = Vec::new(alloc);
    for row in rows {
        actions
            .push(action(rt, alloc, *row, cost))
            .expect(rt, "memory");
    }
    actions
}

fn names(rt: &impl Abort, alloc: Global, texts: &[&str]) -> Names {
    let mut names = Names::new(alloc);
    for text in texts {
        names.add(alloc, text).expect(rt, "memory");
    }
    names
}

/// The names of objects, predicates and schemas, the initial atoms, the atoms of the goal and those that it excludes,
/// and whether there is a metric.
#[derive(Clone, Copy)]
struct TaskRow<'a> {
    objects: &'a [&'a str],
    predicates: &'a [&'a str],
    schemas: &'a [&'a str],
    initial: &'a [Atom<'a>],
    goal: &'a [Atom<'a>],
    excluded: &'a [Atom<'a>],
    metric: bool,
}

fn vocabulary(rt: &impl Abort, alloc: Global, row: TaskRow<'_>) -> Vocabulary {
    Vocabulary {
        objects: names(rt, alloc, row.objects),
        predicates: names(rt, alloc, row.predicates),
        functions: Names::new(alloc),
        schemas: names(rt, alloc, row.schemas),
    }
}

fn task(rt: &impl Abort, alloc: Global, row: TaskRow<'_>) -> Task {
    Task {
        supertypes: Vec::new(alloc),
        object_types: Vec::new(alloc),
        arities: Vec::new(alloc),
        schemas: Vec::new(alloc),
        initial: atoms(rt, alloc, row.initial),
        goal: literals(rt, alloc, row.goal, row.excluded),
        values: IndexMap::new(alloc),
        metric: row.metric,
        vocabulary: vocabulary(rt, alloc, row),
    }
}

fn variables(rt: &impl Abort, alloc: Global, rows: &[VariableRow<'_>]) -> Vec<ListedVariable> {
    let mut variables = Vec::new(alloc);
    for (places, has_none) in rows {
        let places = Vec::from_slice(alloc, *places).expect(rt, "memory");
        let has_none = *has_none;
        variables
            .push(ListedVariable { places, has_none })
            .expect(rt, "memory");
    }
    variables
}

fn is_within(variable: &ListedVariable, count: usize) -> bool
    ensures { IsTrue result → All (λ p. p < count) variable.now.places }
{
    variable.places.iter().all(|place| *place < count)
}

fn are_within(variables: &[ListedVariable], count: usize) -> bool
    ensures { IsTrue result → All (λ v. All (λ p. p < count) v.places) variables.now }
{
    variables.iter().all(|variable| is_within(variable, count))
}

fn are_short(variables: &[ListedVariable]) -> bool
    ensures { IsTrue result → All (λ v. length v.places ≤ 65536) variables.now }
{
    variables
        .iter()
        .all(|variable| variable.places.len() <= 65_536)
}

fn are_cheap(actions: &[GroundAction]) -> bool
    ensures { IsTrue result → All (λ a. a.cost ≤ 2147483647) actions.now }
{
    actions.iter().all(|action| action.cost <= 2_147_483_647)
}

fn parts(
    rt: &impl Abort,
    alloc: Global,
    task: &Task,
    atoms: &Atoms,
    actions: &[GroundAction],
    variables: &[ListedVariable],
) -> Parts {
    let count = atoms.as_slice().len();
    assert!(rt; are_within(variables, count));
    assert!(rt; are_short(variables));
    assert!(rt; are_cheap(actions));
    parts_of(alloc, task, atoms, actions, variables).expect(rt, "memory")
}

/// The indices of a variable's atoms, and whether it also has a none value.
type VariableRow<'a> = (&'a [usize], bool);

/// Returns the parts of the task over these actions, with variables of these rows over atoms of these rows.
fn parts_over(
    rt: &impl Abort,
    alloc: Global,
    task: &Task,
    all: &[Atom<'_>],
    actions: &[GroundAction],
    rows: &[VariableRow<'_>],
) -> Parts {
    let atoms = listed(rt, alloc, all);
    let variables = variables(rt, alloc, rows);
    parts(rt, alloc, task, &atoms, actions, &variables)
}

/// Returns the parts of a task of rows.
fn parts_of_rows(
    rt: &impl Abort,
    alloc: Global,
    row: TaskRow<'_>,
    all: &[Atom<'_>],
    actions: &[GroundAction],
    rows: &[VariableRow<'_>],
) -> Parts {
    let task = task(rt, alloc, row);
    parts_over(rt, alloc, &task, all, actions, rows)
}

fn name_of(names: &[Vec<String>], variable: usize, value: usize) -> &str {
    match names.get(variable) {
        Some(names) => match names.get(value) {
            Some(name) => name.as_str(),
            None => "no such value",
        },
        None => "no such variable",
    }
}

/// Returns whether the values of these variables have these names.
fn are_names(names: &[Vec<String>], rows: &[(usize, usize, &str)]) -> bool {
    rows.iter().all(|(variable, value, name)| name_of(names, *variable, *value) == *name)
}

/// Returns whether the facts are these, each a variable and a value.
fn are(facts: &[Fact], rows: &[(usize, u32)]) -> bool {
    facts.len() == rows.len()
        && facts.iter().zip(rows).all(|(fact, row)| fact.variable == row.0 && fact.value == row.1)
}

/// Returns whether the operator of this number has this name, precondition and effect.
fn is(
    operators: &[Operator],
    number: usize,
    name: &str,
    precondition: &[(usize, u32)],
    effect: &[(usize, u32)],
) -> bool {
    match operators.get(number) {
        Some(operator) => {
            operator.name.as_str() == name
                && are(&operator.precondition, precondition)
                && are(&operator.effect, effect)
        }
        None => false,
    }
}

/// A road from a by b to c.
const ROAD: TaskRow<'static> = TaskRow {
    objects: &["a", "b", "c"],
    predicates: &["at", "road"],
    schemas: &["go"],
    initial: &[(0, &[0]), (1, &[0, 1]), (1, &[1, 2])],
    goal: &[(0, &[2])],
    excluded: &[],
    metric: false,
};

/// The atoms at a, at b and at c, and the two roads.
const ROAD_ATOMS: &[Atom<'static>] = &[(0, &[0]), (0, &[1]), (0, &[2]), (1, &[0, 1]), (1, &[1, 2])];

const GO: &[Row<'static>] = &[
    Row {
        objects: &[0, 1],
        wanted: &[(0, &[0]), (1, &[0, 1])],
        excluded: &[],
        adds: &[(0, &[1])],
        deletes: &[(0, &[0])],
    },
    Row {
        objects: &[1, 2],
        wanted: &[(0, &[1]), (1, &[1, 2])],
        excluded: &[],
        adds: &[(0, &[2])],
        deletes: &[(0, &[1])],
    },
];

/// Returns the parts of the road, with these variables over its atoms.
fn road(rt: &impl Abort, alloc: Global, rows: &[VariableRow<'_>]) -> Parts {
    let actions = actions(rt, alloc, GO, 1);
    parts_of_rows(rt, alloc, ROAD, ROAD_ATOMS, &actions, rows)
}

fn is_road_of_one_variable(parts: &Parts) -> bool {
    are_names(
        &parts.value_names,
        &[
            (0, 0, "Atom at(a)"),
            (0, 1, "Atom at(b)"),
            (0, 2, "Atom at(c)"),
            (0, 3, "no such value"),
        ],
    ) && parts.initial.as_slice() == [0].as_slice()
        && are(&parts.goal, &[(0, 2)])
        && parts.operators.len() == 2
        && is(&parts.operators, 0, "go a b", &[(0, 0)], &[(0, 1)])
        && is(&parts.operators, 1, "go b c", &[(0, 1)], &[(0, 2)])
        && parts.carried.as_slice() == [0, 1].as_slice()
}

#[test]
fn a_road_of_one_variable(rt: HostRuntime) {
    let parts = road(&rt, rt.alloc(), &[(&[0, 1, 2], false)]);
    assert!(rt; is_road_of_one_variable(&parts));
}

fn is_road_of_two_variables(parts: &Parts) -> bool {
    are_names(
        &parts.value_names,
        &[
            (0, 0, "Atom at(a)"),
            (0, 1, "NegatedAtom at(a)"),
            (1, 0, "Atom at(b)"),
            (1, 1, "Atom at(c)"),
            (1, 2, "<none of those>"),
        ],
    ) && parts.initial.as_slice() == [0, 2].as_slice()
        && are(&parts.goal, &[(1, 1)])
        && is(&parts.operators, 0, "go a b", &[(0, 0)], &[(0, 1), (1, 0)])
        && is(&parts.operators, 1, "go b c", &[(1, 0)], &[(1, 1)])
}

#[test]
fn a_road_of_two_variables(rt: HostRuntime) {
    let parts = road(&rt, rt.alloc(), &[(&[0], true), (&[1, 2], true)]);
    assert!(rt; is_road_of_two_variables(&parts));
}

/// Atoms of the gripper.
const GRIPPER_ATOMS: &[Atom<'static>] = &[
    (0, &[0]),
    (1, &[2]),
    (2, &[0]),
    (2, &[1]),
    (3, &[2, 0]),
    (3, &[2, 1]),
    (5, &[2]),
    (3, &[3, 0]),
    (3, &[3, 1]),
    (5, &[3]),
    (4, &[]),
];

/// Variables for the gripper's room, for each ball, and for whether the gripper is free; the atoms of rooms and balls
/// are constant.
const GRIPPER_VARIABLES: &[VariableRow<'static>] = &[
    (&[2, 3], false),
    (&[4, 5, 6], false),
    (&[7, 8, 9], false),
    (&[10], true),
];

/// Returns the parts over all actions of the gripper: it moves from each of the rooms p and q to the other, and picks
/// up and drops each of the balls x and y in each.
fn gripper_parts(rt: &impl Abort, alloc: Global, task: &Task) -> Parts
    requires { IsTrue (has_small_costs task.now) }
{
    let grounded = ground(alloc, task).expect(rt, "room");
    parts_over(
        rt,
        alloc,
        task,
        GRIPPER_ATOMS,
        &grounded.actions,
        GRIPPER_VARIABLES,
    )
}

fn gripper(rt: &impl Abort, alloc: Global) -> Parts {
    let task = read_task(alloc, GRIPPER.as_bytes(), TWO_BALLS.as_bytes()).expect(rt, "a task");
    gripper_parts(rt, alloc, &task)
}

/// The facts before x is picked up in p, and before it is dropped in q.
const PICK: &[(usize, u32)] = &[(0, 0), (1, 0), (3, 0)];

const DROP: &[(usize, u32)] = &[(0, 1), (1, 2)];

fn is_gripper(parts: &Parts) -> bool {
    are_names(
        &parts.value_names,
        &[
            (1, 1, "Atom in(x, q)"),
            (1, 3, "no such value"),
            (3, 0, "Atom free()"),
        ],
    ) && parts.initial.as_slice() == [0, 0, 0, 0].as_slice()
        && are(&parts.goal, &[(1, 1), (2, 1)])
        && parts.operators.len() == 10
        && is(&parts.operators, 2, "pick x p", PICK, &[(1, 2), (3, 1)])
        && is(&parts.operators, 7, "drop x q", DROP, &[(1, 1), (3, 0)])
}

#[test]
fn a_gripper(rt: HostRuntime) {
    let parts = gripper(&rt, rt.alloc());
    assert!(rt; is_gripper(&parts));
}

const DOOR: TaskRow<'static> = TaskRow {
    objects: &["d"],
    predicates: &["in", "locked"],
    schemas: &["enter"],
    initial: &[(1, &[0])],
    goal: &[(0, &[])],
    excluded: &[],
    metric: false,
};

const ENTER: &[Row<'static>] = &[Row {
    objects: &[0],
    wanted: &[],
    excluded: &[(1, &[0])],
    adds: &[(0, &[])],
    deletes: &[],
}];

const DOOR_ATOMS: &[Atom<'static>] = &[(0, &[]), (1, &[0])];

fn door(rt: &impl Abort, alloc: Global) -> Parts {
    let actions = actions(rt, alloc, ENTER, 1);
    parts_of_rows(
        rt,
        alloc,
        DOOR,
        DOOR_ATOMS,
        &actions,
        &[(&[0], true), (&[1], true)],
    )
}

fn is_door(parts: &Parts) -> bool {
    parts.initial.as_slice() == [1, 0].as_slice()
        && are(&parts.goal, &[(0, 0)])
        && is(&parts.operators, 0, "enter d", &[(1, 1)], &[(0, 0)])
}

#[test]
fn a_door_that_may_be_locked(rt: HostRuntime) {
    let parts = door(&rt, rt.alloc());
    assert!(rt; is_door(&parts));
}

const RED: Atom<'static> = (0, &[]);

const GREEN: Atom<'static> = (1, &[]);

const FAN: Atom<'static> = (2, &[]);

const LAMPS: TaskRow<'static> = TaskRow {
    objects: &[],
    predicates: &["red", "green", "fan"],
    schemas: &["turn"],
    initial: &[RED],
    goal: &[FAN],
    excluded: &[RED],
    metric: true,
};

/// Returns an action of the lamps: the wanted and the excluded atoms, and what it adds and deletes.
const fn turn<'a>(
    wanted: &'a [Atom<'a>],
    excluded: &'a [Atom<'a>],
    adds: &'a [Atom<'a>],
    deletes: &'a [Atom<'a>],
) -> Row<'a> {
    Row {
        objects: &[],
        wanted,
        excluded,
        adds,
        deletes,
    }
}

/// Returns the parts of a task of these actions at this cost, with one variable for the red and the green lamp and one
/// for the fan.
fn lamps(rt: &impl Abort, alloc: Global, rows: &[Row<'_>], cost: u64) -> Parts {
    let actions = actions(rt, alloc, rows, cost);
    parts_of_rows(
        rt,
        alloc,
        LAMPS,
        &[RED, GREEN, FAN],
        &actions,
        &[(&[0, 1], true), (&[2], true)],
    )
}

/// Returns whether the action has an operator with these facts before and after.
fn turns(
    rt: &impl Abort,
    alloc: Global,
    row: Row<'_>,
    before: &[(usize, u32)],
    after: &[(usize, u32)],
) -> bool {
    let parts = lamps(rt, alloc, &[row], 1);
    is(&parts.operators, 0, "turn", before, after)
}

#[test]
fn what_is_deleted(rt: HostRuntime) {
    let alloc = rt.alloc();
    // if the green lamp is on, the red one is not
    let green = turn(&[GREEN], &[], &[], &[RED]);
    assert!(rt; turns(&rt, alloc, green, &[(0, 1)], &[]));
    let red = turn(&[RED], &[], &[], &[RED]);
    assert!(rt; turns(&rt, alloc, red, &[(0, 0)], &[(0, 2)]));
    let fan = turn(&[], &[], &[], &[FAN]);
    assert!(rt; turns(&rt, alloc, fan, &[], &[(1, 1)]));
}

#[test]
fn what_is_added_and_deleted(rt: HostRuntime) {
    let alloc = rt.alloc();
    let same = turn(&[RED], &[], &[RED], &[RED]);
    assert!(rt; turns(&rt, alloc, same, &[(0, 0)], &[]));
    let other = turn(&[GREEN], &[], &[RED], &[GREEN]);
    assert!(rt; turns(&rt, alloc, other, &[(0, 1)], &[(0, 0)]));
}

#[test]
fn what_is_excluded(rt: HostRuntime) {
    let alloc = rt.alloc();
    let green = turn(&[RED], &[GREEN], &[], &[]);
    assert!(rt; turns(&rt, alloc, green, &[(0, 0)], &[]));
    let red = turn(&[], &[RED], &[FAN], &[]);
    assert!(rt; turns(&rt, alloc, red, &[(0, 2)], &[(1, 0)]));
}

fn are_lamps(parts: &Parts) -> bool {
    are(&parts.goal, &[(0, 2), (1, 0)]) && parts.initial.as_slice() == [0, 1].as_slice()
}

#[test]
fn a_goal_and_a_state_of_lamps(rt: HostRuntime) {
    let parts = lamps(&rt, rt.alloc(), &[], 1);
    assert!(rt; are_lamps(&parts));
}

/// Returns whether the actions of these numbers have an operator, and each has this cost.
fn are_carried(parts: &Parts, carried: &[usize], cost: Cost) -> bool {
    parts.carried.as_slice() == carried
        && parts.operators.iter().all(|operator| operator.cost == cost)
}

/// Checks which of four actions at this cost have an operator.
fn leaves_out(rt: &impl Abort, alloc: Global, cost: u64, want: Cost) {
    let rows = [
        turn(&[RED, GREEN], &[], &[], &[]),
        turn(&[RED], &[], &[], &[RED]),
        turn(&[FAN], &[FAN], &[], &[]),
        turn(&[], &[], &[FAN], &[]),
    ];
    let parts = lamps(rt, alloc, &rows, cost);
    assert!(rt; are_carried(&parts, &[1, 3], want));
}

#[test]
fn actions_without_operator_are_left_out(rt: HostRuntime) {
    leaves_out(&rt, rt.alloc(), 0, Cost::ZERO);
    leaves_out(&rt, rt.alloc(), 1, Cost::ONE);
}
