//! Written texts, worked out by hand, and the tasks that are read from them.

ghost use Rattle.std.specs.Prelude.{◌<◌, All};

use fdr::{FdrTask, Operator};
use sasfile::{read_sas, sas_plan_text, write_sas};
use std::alloc::Global;
use std::process::Abort;

/// A walk from `a` over `b` to `c`, in another spelling.
const WALK: &str =
    "begin_version\n03\nend_version \nbegin_metric\n-0\nend_metric\n1\nbegin_variable\nplace\n-01\n3\r\n\
Atom at(a)\nAtom at(b)  \nAtom at(c)\nend_variable\n0\nbegin_state\n00\nend_state\n\
begin_goal\n1\n0  2\nend_goal\n2\nbegin_operator\ngo a b\n0\n1\n 0 0 00 1\n1\nend_operator\n\
begin_operator\ngo b c\n0\n1\n0 0 01 2 \n1\nend_operator\n0";

/// The walk as it is written, in 45 lines.
const WALK_WRITTEN: &str =
    "begin_version\n3\nend_version\nbegin_metric\n0\nend_metric\n1\nbegin_variable\nvar0\n-1\n3\n\
Atom at(a)\nAtom at(b)\nAtom at(c)\nend_variable\n1\nbegin_mutex_group\n3\n0 0\n0 1\n0 2\nend_mutex_group\n\
begin_state\n0\nend_state\nbegin_goal\n1\n0 2\nend_goal\n2\nbegin_operator\ngo a b\n0\n1\n0 0 0 1\n1\nend_operator\n\
begin_operator\ngo b c\n0\n1\n0 0 1 2\n1\nend_operator\n0\n";

/// Two rooms and a lamp, in another spelling: one variable has a value besides its atoms, the other a single atom.
const ROOMS: &str =
    "begin_version\n3\nend_version\nbegin_metric\n01\nend_metric\n02\nbegin_variable\nroom\n-1\n3\n\
Atom in(p)\nAtom in(q)\n<none of those>\nend_variable\nbegin_variable\nlamp\n-1\n2\nAtom lit()\nNegatedAtom lit()\nend_variable\n\
1\nbegin_mutex_group\n2\n1 0\n0 0\nend_mutex_group\nbegin_state\n2\n1\nend_state\nbegin_goal\n2\n1 0\n0 1\nend_goal\n\
2\nbegin_operator\nenter q\n01\n1 0\n1\n0 0 -1 1\n7\nend_operator\n\
begin_operator\nleave q\n0\n2\n0 1 1 0\n0 0 1 2\n00\nend_operator\n0\n";

/// The rooms as they are written, in 59 lines.
const ROOMS_WRITTEN: &str =
    "begin_version\n3\nend_version\nbegin_metric\n1\nend_metric\n2\nbegin_variable\nvar0\n-1\n3\n\
Atom in(p)\nAtom in(q)\n<none of those>\nend_variable\nbegin_variable\nvar1\n-1\n2\nAtom lit()\nNegatedAtom lit()\nend_variable\n\
1\nbegin_mutex_group\n2\n0 0\n0 1\nend_mutex_group\nbegin_state\n2\n1\nend_state\nbegin_goal\n2\n1 0\n0 1\nend_goal\n\
2\nbegin_operator\nenter q\n1\n1 0\n1\n0 0 -1 1\n7\nend_operator\n\
begin_operator\nleave q\n0\n2\n0 1 1 0\n0 0 1 2\n0\nend_operator\n0\n";

/// An empty task as it is written, in 15 lines.
const NOTHING: &str =
    "begin_version\n3\nend_version\nbegin_metric\n0\nend_metric\n0\n0\nbegin_state\nend_state\nbegin_goal\n0\nend_goal\n0\n0\n";

fn is_same(one: &Operator, other: &Operator) -> bool {
    one.name.as_str() == other.name.as_str()
        && one.precondition.as_slice() == other.precondition.as_slice()
        && one.effect.as_slice() == other.effect.as_slice()
        && one.cost == other.cost
}

fn are_same(first: &[Operator], second: &[Operator]) -> bool {
    first.len() == second.len()
        && first
            .iter()
            .zip(second)
            .all(|(one, other)| is_same(one, other))
}

fn have_same_parts(first: &FdrTask, second: &FdrTask) -> bool {
    first.has_metric() == second.has_metric()
        && first.value_names() == second.value_names()
        && first.initial() == second.initial()
        && first.goal() == second.goal()
        && are_same(first.operators(), second.operators())
}

/// Returns whether the text spells a task of the same parts.
fn spells(alloc: Global, text: &[u8], task: &FdrTask) -> bool {
    match read_sas(alloc, text) {
        Ok(read) => have_same_parts(&read, task),
        Err(_) => false,
    }
}

/// Returns whether this text is written for the task, and spells it.
fn is_written(alloc: Global, task: &FdrTask, sizes: &[usize], wanted: &str) -> bool {
    match write_sas(alloc, task, sizes) {
        Ok(written) => written.as_slice() == wanted.as_bytes() && spells(alloc, &written, task),
        Err(_) => false,
    }
}

/// Returns whether the second text is written for the task that the first spells.
fn is_rewritten(alloc: Global, spelled: &str, sizes: &[usize], wanted: &str) -> bool {
    match read_sas(alloc, spelled.as_bytes()) {
        Ok(task) => is_written(alloc, &task, sizes, wanted),
        Err(_) => false,
    }
}

#[test]
fn writes_what_is_worked_out(rt: HostRuntime) {
    assert!(rt; is_rewritten(rt.alloc(), WALK, &[3], WALK_WRITTEN));
    assert!(rt; is_rewritten(rt.alloc(), ROOMS, &[2, 1], ROOMS_WRITTEN));
    assert!(rt; is_rewritten(rt.alloc(), NOTHING, &[], NOTHING));
}

/// Returns the text of a plan for a task of two operators.
fn plan_of(rt: &impl Abort, alloc: Global, text: &str, plan: &[usize], cost: u64) -> String
    requires { All (λ o. o < 2) plan.now }
{
    let task = read_sas(alloc, text.as_bytes()).expect(rt, "a task");
    assert_eq!(rt; task.operator_count(), 2);
    sas_plan_text(alloc, &task, plan, cost).expect(rt, "memory")
}

/// Checks the text of a plan for a task of two operators.
fn is_plan(rt: &impl Abort, alloc: Global, text: &str, plan: &[usize], cost: u64, wanted: &str)
    requires { All (λ o. o < 2) plan.now }
{
    let written = plan_of(rt, alloc, text, plan, cost);
    assert_eq!(rt; written.as_str(), wanted);
}

#[test]
fn plans_are_written(rt: HostRuntime) {
    let walk = "(go a b)\n(go b c)\n; cost = 2 (unit cost)\n";
    is_plan(&rt, rt.alloc(), WALK, &[0, 1], 2, walk);
    is_plan(&rt, rt.alloc(), WALK, &[], 0, "; cost = 0 (unit cost)\n");
    let rooms = "(leave q)\n(enter q)\n(leave q)\n; cost = 7 (general cost)\n";
    is_plan(&rt, rt.alloc(), ROOMS, &[1, 0, 1], 7, rooms);
}
