//! Groundings as texts: an atom or an action is its name and those of its objects, and two of them are separated by
//! `|`.

ghost use Rattle.std.specs.Prelude.{IsTrue};
ghost use Rattle.pddl_task.specs.Planning.{has_small_costs};

use ground::{GroundFault, OpenFault, actions_over, ground, is_closed};
use ground_atoms::Atoms;
use pddl::read_task;
use pddl_names::Names;
use pddl_task::{GroundAction, GroundAtom, Task};
use std::alloc::Global;
use std::process::Abort;

/// Returns the three texts concatenated.
pub(crate) fn joined(
    rt: &impl Abort,
    alloc: Global,
    first: &str,
    between: &str,
    last: &str,
) -> String {
    let mut text = String::from_str(alloc, first).expect(rt, "memory");
    text.push_str(between).expect(rt, "memory");
    text.push_str(last).expect(rt, "memory");
    text
}

fn push_objects(rt: &impl Abort, text: &mut String, names: &Names, objects: &[usize]) {
    for object in objects {
        text.push_str(" ").expect(rt, "memory");
        text.push_str(names.name(*object).unwrap_or("?"))
            .expect(rt, "memory");
    }
}

/// Appends the name of that number and those of the objects, after a `|` unless the text is empty.
fn push_named(
    rt: &impl Abort,
    text: &mut String,
    named: &Names,
    number: usize,
    names: &Names,
    objects: &[usize],
) {
    if !text.is_empty() {
        text.push_str("|").expect(rt, "memory");
    }
    text.push_str(named.name(number).unwrap_or("?"))
        .expect(rt, "memory");
    push_objects(rt, text, names, objects);
}

fn atoms_text(rt: &impl Abort, alloc: Global, task: &Task, atoms: &[GroundAtom]) -> String {
    let mut text = String::new(alloc);
    for atom in atoms {
        let objects = atom.objects.as_slice();
        push_named(
            rt,
            &mut text,
            &task.vocabulary.predicates,
            atom.predicate,
            &task.vocabulary.objects,
            objects,
        );
    }
    text
}

fn actions_text(rt: &impl Abort, alloc: Global, task: &Task, actions: &[GroundAction]) -> String {
    let mut text = String::new(alloc);
    for action in actions {
        let objects = action.objects.as_slice();
        push_named(
            rt,
            &mut text,
            &task.vocabulary.schemas,
            action.schema,
            &task.vocabulary.objects,
            objects,
        );
    }
    text
}

/// Returns the atoms and the actions, separated by a blank line.
fn lists_text(
    rt: &impl Abort,
    alloc: Global,
    task: &Task,
    atoms: &[GroundAtom],
    actions: &[GroundAction],
) -> String {
    let atoms = atoms_text(rt, alloc, task, atoms);
    let actions = actions_text(rt, alloc, task, actions);
    joined(rt, alloc, atoms.as_str(), "\n\n", actions.as_str())
}

/// Returns an owned copy of the text.
fn owned(rt: &impl Abort, alloc: Global, text: &str) -> String {
    String::from_str(alloc, text).expect(rt, "memory")
}

fn grounding_text(rt: &impl Abort, alloc: Global, task: &Task) -> String
    requires { IsTrue (has_small_costs task.now) }
{
    match ground(alloc, task) {
        Ok(grounded) => {
            lists_text(
                rt,
                alloc,
                task,
                grounded.atoms.as_slice(),
                &grounded.actions,
            )
        }
        Err(_) => owned(rt, alloc, "no grounding"),
    }
}

/// Returns the atoms as a list without duplicates.
fn listed(rt: &impl Abort, alloc: Global, atoms: &[GroundAtom]) -> Atoms {
    let mut list = Atoms::new(alloc);
    for atom in atoms {
        list.push(atom.try_clone(alloc).expect(rt, "memory"))
            .expect(rt, "memory");
    }
    list
}

fn initial_actions(rt: &impl Abort, alloc: Global, task: &Task) -> String
    requires { IsTrue (has_small_costs task.now) }
{
    let atoms = listed(rt, alloc, &task.initial);
    match actions_over(alloc, task, &atoms) {
        Ok(actions) => actions_text(rt, alloc, task, &actions),
        Err(_) => owned(rt, alloc, "no actions"),
    }
}

/// Returns an action and an atom, separated by a `|`.
fn open_text(
    rt: &impl Abort,
    alloc: Global,
    task: &Task,
    actions: &[GroundAction],
    atoms: &[GroundAtom],
) -> String {
    let actions = actions_text(rt, alloc, task, actions);
    let atoms = atoms_text(rt, alloc, task, atoms);
    joined(rt, alloc, actions.as_str(), "|", atoms.as_str())
}

fn opening_text(rt: &impl Abort, alloc: Global, task: &Task) -> String
    requires { IsTrue (has_small_costs task.now) }
{
    let atoms = listed(rt, alloc, &task.initial);
    match is_closed(alloc, task, &atoms) {
        Ok(()) => owned(rt, alloc, "closed"),
        Err(OpenFault::Ground(_)) => owned(rt, alloc, "no answer"),
        Err(OpenFault::FirstOpen(action, atom)) => open_text(rt, alloc, task, &[action], &[atom]),
    }
}

/// Returns the number of atoms of a task's grounding, or that there are more than the limit.
fn count_text(rt: &impl Abort, alloc: Global, task: &Task) -> String
    requires { IsTrue (has_small_costs task.now) }
{
    match ground(alloc, task) {
        Ok(grounded) => format!(in alloc; "{}", grounded.atoms.len()).expect(rt, "memory"),
        Err(GroundFault::GroundLimit) => owned(rt, alloc, "more than the limit"),
        Err(GroundFault::OutOfMemory) => owned(rt, alloc, "no grounding"),
    }
}

/// A property of a task, as a text.
#[derive(Clone, Copy)]
pub(crate) enum Told {
    /// The atoms and the actions of its grounding, separated by a blank line.
    Grounding,
    /// The number of atoms of its grounding.
    Count,
    /// The actions over its initial atoms.
    InitialActions,
    /// The first action over its initial atoms that adds another atom, and the least such atom, or that there is none.
    Opening,
}

fn told_of(rt: &impl Abort, alloc: Global, task: &Task, told: Told) -> String
    requires { IsTrue (has_small_costs task.now) }
{
    match told {
        Told::Grounding => grounding_text(rt, alloc, task),
        Told::Count => count_text(rt, alloc, task),
        Told::InitialActions => initial_actions(rt, alloc, task),
        Told::Opening => opening_text(rt, alloc, task),
    }
}

/// Returns this property of the task that the texts spell. No other function owns a task, because the proof of a
/// function that does, and may return in many branches, is long.
fn text_of(rt: &impl Abort, alloc: Global, domain: &str, problem: &str, told: Told) -> String {
    match read_task(alloc, domain.as_bytes(), problem.as_bytes()) {
        Ok(task) => told_of(rt, alloc, &task, told),
        Err(_) => owned(rt, alloc, "no task"),
    }
}

/// Checks this property of the task.
pub(crate) fn tells(
    rt: &impl Abort,
    alloc: Global,
    domain: &str,
    problem: &str,
    told: Told,
    want: &str,
) {
    let found = text_of(rt, alloc, domain, problem, told);
    assert_eq!(rt; found.as_str(), want, "{domain} {problem}");
}
