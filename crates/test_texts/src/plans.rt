//! Plans that are read, validated and written.

ghost use Rattle.std.specs.Prelude.{IsTrue};
ghost use Rattle.pddl_task.specs.Limits.{max_cost};
ghost use Rattle.pddl_task.specs.Planning.{has_small_costs};
ghost use Rattle.validate.specs.Verdicts.{CostsAtMost};

use pddl::read_task;
use pddl_task::Task;
use sexp::SexpFault;
use std::alloc::Global;
use std::process::Abort;
use validate::{Plan, PlanFault, plan_text, read_plan, validate, verdict_line};

/// Returns the plan's text that is written from this one, for a cost by numbers of steps or by the metric.
fn rewritten(rt: &impl Abort, alloc: Global, text: &str, cost: u64, is_unit: bool) -> String {
    let plan = read_plan(alloc, text.as_bytes()).expect(rt, "a plan");
    plan_text(alloc, &plan, cost, is_unit).expect(rt, "memory")
}

fn fault_of(alloc: Global, text: &str) -> Option<PlanFault> {
    read_plan(alloc, text.as_bytes()).err()
}

/// Checks the text of a plan: its steps, and its cost with the kind of cost.
fn is_text(rt: &impl Abort, alloc: Global, text: &str, steps: &str, cost: &str) {
    let wanted = format!(in alloc; "{steps}; cost = {cost}\n").expect(rt, "memory");
    assert_eq!(rt; text, wanted.as_str());
}

/// Checks the text that is written from a plan's text, for a cost of 2 by numbers of steps.
fn is_written_by_steps(rt: &impl Abort, alloc: Global, text: &str, steps: &str) {
    let written = rewritten(rt, alloc, text, 2, true);
    is_text(rt, alloc, written.as_str(), steps, "2 (unit cost)");
}

/// Checks the text that is written from a plan's text, for a cost of 70 by the metric.
fn is_written_by_metric(rt: &impl Abort, alloc: Global, text: &str, steps: &str) {
    let written = rewritten(rt, alloc, text, 70, false);
    is_text(rt, alloc, written.as_str(), steps, "70 (general cost)");
}

/// Plans, and their steps as they are written.
const PLANS: &[(&str, &str)] = &[
    ("(GO A B)(go b c) ; done", "(go a b)\n(go b c)\n"),
    ("(?x a)\n(stop)", "(?x a)\n(stop)\n"),
    ("; nothing", ""),
];

#[test]
fn plans_are_read_and_written(rt: HostRuntime) {
    for (text, steps) in PLANS {
        is_written_by_steps(&rt, rt.alloc(), text, steps);
        is_written_by_metric(&rt, rt.alloc(), text, steps);
    }
}

const SHAPES: &[(&str, PlanFault)] = &[
    ("go a b", PlanFault::PlanShape(0)),
    ("()", PlanFault::PlanShape(0)),
    ("(())", PlanFault::PlanShape(1)),
    ("(a (b))", PlanFault::PlanShape(3)),
    ("(a)((b))c", PlanFault::PlanShape(4)),
    ("c (a", PlanFault::Tree(SexpFault::Unclosed(2))),
];

#[test]
fn plans_of_another_shape_are_refused(rt: HostRuntime) {
    for (text, fault) in SHAPES {
        assert!(rt; fault_of(rt.alloc(), text) == Some(*fault), "at {text}");
    }
}

/// `go` moves from a `place` to a town over a road, at the road's length plus a fee of 10; `stay` adds and deletes the
/// same `at`, in the order of the text. The towns are a, b and c; d is a `place`, and e an object.
const JOURNEY: &str = "(define (domain journey) (:types town - place place - object)
    (:constants a b c - town d - place e - object)
    (:predicates (at ?x) (road ?x ?y) (locked ?x))
    (:functions (total-cost) - number (length ?x ?y) - number)
    (:action go :parameters (?x - place ?y - town)
     :precondition (and (at ?x) (not (= ?x ?y)) (road ?x ?y) (not (locked ?y)))
     :effect (and (not (at ?x)) (at ?y) (increase (total-cost) (length ?x ?y)) (increase (total-cost) 10)))
    (:action stay :parameters (?x) :precondition (at ?x) :effect (and (at ?x) (not (at ?x)))))";

/// The initial location is a, which is locked; there are roads from a to b and back, and from b to c. The road back to
/// a has no length.
const AT_A: &str = "(define (problem p) (:init (at a) (road a b) (road b a) (road b c) (locked a)
    (= (length a b) 3) (= (length b c) 4)) ";

/// Returns the line of the verdict on a plan that was read.
fn verdict_on(rt: &impl Abort, alloc: Global, task: &Task, plan: &Plan) -> String
    requires small { IsTrue (has_small_costs task.now) }
    requires costs { CostsAtMost task.now max_cost }
{
    let verdict = validate(alloc, task, plan).expect(rt, "memory");
    verdict_line(alloc, task, &verdict).expect(rt, "memory")
}

/// Returns the line of the verdict on a plan.
fn line_of(rt: &impl Abort, alloc: Global, task: &Task, plan: &str) -> String
    requires small { IsTrue (has_small_costs task.now) }
    requires costs { CostsAtMost task.now max_cost }
{
    let plan = read_plan(alloc, plan.as_bytes()).expect(rt, "a plan");
    verdict_on(rt, alloc, task, &plan)
}

/// Returns the line of the verdict on a plan for the journey with this problem.
#[tactic(auto, unfolding(validate::specs::Verdicts::CostsAtMost))]
fn line(rt: &impl Abort, alloc: Global, problem: &str, plan: &str) -> String {
    let task = read_task(alloc, JOURNEY.as_bytes(), problem.as_bytes()).expect(rt, "a task");
    line_of(rt, alloc, &task, plan)
}

/// Checks the line that is printed for a plan.
fn is_line(rt: &impl Abort, alloc: Global, problem: &str, plan: &str, wanted: &str) {
    let line = line(rt, alloc, problem, plan);
    assert_eq!(rt; line.as_str(), wanted, "at {plan}");
}

fn are_lines(rt: &impl Abort, alloc: Global, problem: &str, lines: &[(&str, &str)]) {
    for (plan, wanted) in lines {
        is_line(rt, alloc, problem, plan, wanted);
    }
}

/// Checks the line that is printed for each of the plans of the journey with this goal, and a metric or none.
fn expect_lines(rt: &impl Abort, alloc: Global, goal: &str, lines: &[(&str, &str)]) {
    let problem = format!(in alloc; "{AT_A}{goal})").expect(rt, "memory");
    are_lines(rt, alloc, problem.as_str(), lines);
}

const STEPS_NAME_ACTIONS: &[(&str, &str)] = &[
    ("(go a b)(go b c)", "valid 2\n"),
    ("(go a b)(fly b c)", "no such action 2\n"),
    ("(go a)", "no such action 1\n"),
    ("(go a b c)", "no such action 1\n"),
    ("(stay)", "no such action 1\n"),
    ("(go a f)", "no such action 1\n"),
    ("(go a road)", "no such action 1\n"),
    // d is not a town, and e is not a `place`
    ("(go a d)", "no such action 1\n"),
    ("(go e b)", "no such action 1\n"),
    ("(go a a)", "no such action 1\n"),
    ("(fly)(go)", "no such action 1\n"),
];

#[test]
fn steps_name_actions(rt: HostRuntime) {
    expect_lines(&rt, rt.alloc(), "(:goal (at c))", STEPS_NAME_ACTIONS);
}

const STEPS_APPLY: &[(&str, &str)] = &[
    ("(go a b)(go a b)", "not applicable 2 (at a)\n"),
    ("(go a c)(fly)", "not applicable 1 (road a c)\n"),
    ("(go c b)", "not applicable 1 (at c)\n"),
    ("(go d b)", "not applicable 1 (at d)\n"),
    ("(stay e)", "not applicable 1 (at e)\n"),
    ("(go a b)(go b a)", "not applicable 2 (not (locked a))\n"),
    // an atom that is deleted and added stays true
    ("(stay a)(stay a)(GO A B)(go b c)", "valid 4\n"),
];

#[test]
fn steps_apply(rt: HostRuntime) {
    expect_lines(&rt, rt.alloc(), "(:goal (at c))", STEPS_APPLY);
}

const GOALS_ARE_MET: &[(&str, &str)] = &[
    ("", "goal open (at c)\n"),
    ("(go a b)", "goal open (at c)\n"),
    ("(go a b)(go b c)", "valid 2\n"),
];

#[test]
fn goals_are_met(rt: HostRuntime) {
    expect_lines(
        &rt,
        rt.alloc(),
        "(:goal (and (at c) (not (at a))))",
        GOALS_ARE_MET,
    );
}

const GOALS_ARE_AVOIDED: &[(&str, &str)] = &[
    ("; stay", "goal open (not (at a))\n"),
    ("(stay a)", "goal open (not (at a))\n"),
    ("(go a b)", "goal open (at c)\n"),
    ("(go a b)(go b c)", "valid 2\n"),
];

#[test]
fn goals_are_avoided(rt: HostRuntime) {
    expect_lines(
        &rt,
        rt.alloc(),
        "(:goal (and (not (at a)) (at c)))",
        GOALS_ARE_AVOIDED,
    );
}

const NO_GOAL_IS_MET: &[(&str, &str)] = &[
    ("", "valid 0\n"),
    ("(go b c)", "not applicable 1 (at b)\n"),
];

#[test]
fn no_goal_is_met(rt: HostRuntime) {
    expect_lines(&rt, rt.alloc(), "(:goal ())", NO_GOAL_IS_MET);
}

const STEPS_COST_THEIR_INCREASES: &[(&str, &str)] = &[
    // 3 + 10 and 4 + 10
    ("(go a b)(go b c)", "valid 27\n"),
    // staying is free
    ("(stay a)(go a b)(stay b)(go b c)", "valid 27\n"),
    // the road back to a has no length
    ("(go a b)(go b a)", "no such action 2\n"),
    ("(go a b)", "goal open (at c)\n"),
];

#[test]
fn steps_cost_their_increases(rt: HostRuntime) {
    expect_lines(
        &rt,
        rt.alloc(),
        "(:goal (at c)) (:metric minimize (total-cost))",
        STEPS_COST_THEIR_INCREASES,
    );
}
