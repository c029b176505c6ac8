//! The groups and the variables of tasks that texts spell, as numbers.

ghost use Rattle.std.specs.Prelude.{IsTrue};
ghost use Rattle.pddl_task.specs.Planning.{has_small_costs};

use ground::ground;
use mutex::{ActionIndex, groups};
use pddl::read_task;
use pddl_task::Task;
use std::alloc::Global;
use std::process::Abort;
use translate_choice::choose_variables;

/// A question about a task: the groups that are proposed, or the variables that are chosen.
#[derive(Clone, Copy)]
pub(crate) enum Asked {
    Groups,
    Variables,
}

/// Returns the groups over the atoms and actions, each as its length and then the numbers of its atoms.
fn group_numbers(rt: &impl Abort, alloc: Global, index: &ActionIndex<'_>) -> Vec<usize> {
    let mut numbers = Vec::new(alloc);
    for group in groups(alloc, index).expect(rt, "memory").as_slice() {
        numbers.push(group.places().len()).expect(rt, "memory");
        numbers
            .extend_from_slice(group.places())
            .expect(rt, "memory");
    }
    numbers
}

/// Returns the variables over the atoms and actions, each as its number of values and then the numbers of its atoms.
fn variable_numbers(rt: &impl Abort, alloc: Global, index: &ActionIndex<'_>) -> Vec<usize> {
    let groups = groups(alloc, index).expect(rt, "memory");
    let mut numbers = Vec::new(alloc);
    for variable in choose_variables(alloc, index, &groups).expect(rt, "memory") {
        let range = variable
            .places
            .len()
            .saturating_add(usize::from(variable.has_none));
        numbers.push(range).expect(rt, "memory");
        numbers
            .extend_from_slice(&variable.places)
            .expect(rt, "memory");
    }
    numbers
}

fn numbers_over(rt: &impl Abort, alloc: Global, task: &Task, asked: Asked) -> Vec<usize>
    requires { IsTrue (has_small_costs task.now) }
{
    let grounded = ground(alloc, task).expect(rt, "room");
    let index = ActionIndex::new(alloc, task, &grounded.atoms, &grounded.actions).expect(
        rt, "memory",
    );
    match asked {
        Asked::Groups => group_numbers(rt, alloc, &index),
        Asked::Variables => variable_numbers(rt, alloc, &index),
    }
}

/// Checks the numbers of the task that the texts spell.
pub(crate) fn has_numbers(
    rt: &impl Abort,
    alloc: Global,
    domain: &str,
    problem: &str,
    asked: Asked,
    want: &[usize],
) {
    let task = read_task(alloc, domain.as_bytes(), problem.as_bytes()).expect(rt, "a task");
    let numbers = numbers_over(rt, alloc, &task, asked);
    assert_eq!(rt; numbers.as_slice(), want, "{problem}");
}
