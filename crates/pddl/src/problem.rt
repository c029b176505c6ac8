//! A problem: its objects, its initial state, its goal and its metric.

ghost use Rattle.std.specs.Prelude.{◌≡◌, [], length, None, codes, IfErr, OnOk};
ghost use Rattle.sexp.specs.Forms.{alone};
ghost use Rattle.pddl_syntax.specs.declared.fault.PlanningFile.TheVariants.{Problem as ProblemFile};
ghost use Rattle.pddl_syntax.specs.Faults.{first_of};
ghost use Rattle.pddl_domain.specs.Objects.{objects_with, objects_faults};
ghost use Rattle.pddl_problem.specs.Initial.{initial_atoms, stated_values, initial_faults, values_of};
ghost use Rattle.pddl_problem.specs.Goals.{goal_faults};
ghost use Rattle.pddl.specs.Assembled.{task_in};
ghost use Rattle.pddl.specs.Texts as spec;
ghost use Rattle.pddl.specs.Texts.{inside_of, place_in, part, pass};
ghost use Rattle.pddl.specs.Passes.{Fails, AllFail, first_pass};

use crate::domain::Domain;
use crate::fault::PddlFault;
use crate::parts::{heads_pass, judge, part_of};
use crate::sums::blame_sums;
use indexmap::IndexMap;
use pddl_action::{Actions, Declarations};
use pddl_domain::{Objects, objects_section};
use pddl_names::Names;
use pddl_problem::{goal_section, initial_section, metric_section};
use pddl_syntax::{Fault, PlanningFile, Types, find_section, sections_of};
use pddl_task::{GroundAtom, GroundLiteral};
use pddl_terms::Scope;
use sexp::Tree;
use std::alloc::{AllocError, Global};

/// The initial state, function values, goal and metric of a problem.
#[derive(Drop)]
pub struct Problem {
    pub initial: Vec<GroundAtom>,
    pub values: IndexMap<GroundAtom, u64>,
    pub goal: Vec<GroundLiteral>,
    pub metric: bool,
}

impl Problem {
    /// Returns an empty problem, before its text is read.
    pub fn new(alloc: Global) -> Problem {
        Problem {
            initial: Vec::new(alloc),
            values: IndexMap::new(alloc),
            goal: Vec::new(alloc),
            metric: false,
        }
    }
}

fn objects_pass(
    alloc: Global,
    root: &Tree,
    types: &Types,
    objects: &mut Objects,
) -> Result<(), PddlFault>
    ensures objects { OnOk result (objects.new ≡ objects_with types.now.names objects.old (spec.declared_in (alone root.now) (codes ":objects"))) }
    ensures clean { OnOk result
        (first_of None (objects_faults types.now.names objects.old (place_in (alone root.now) (codes ":objects"))
        (inside_of (alone root.now) (codes ":objects"))) ≡ None) }
    ensures fault { IfErr result
        (λ e. Fails e (pass ProblemFile
        (objects_faults types.now.names objects.old (place_in (alone root.now) (codes ":objects")) (inside_of (alone root.now) (codes ":objects"))))) }
{
    let mut first = None;
    let section = part_of(root, ":objects");
    objects_section(alloc, section.items, types, section.at, objects, &mut first)?;
    judge(PlanningFile::Problem, first)
}

fn read_initial(
    alloc: Global,
    root: &Tree,
    scope: &Scope,
    problem: &mut Problem,
    first: &mut Option<Fault>,
) -> Result<(), AllocError>
    ensures atoms { OnOk result (problem.new.initial.items ≡ initial_atoms scope.now (inside_of (alone root.now) (codes ":init"))) }
    ensures values { OnOk result (values_of problem.new.values.entries ≡ stated_values scope.now [] (inside_of (alone root.now) (codes ":init"))) }
    ensures faults { OnOk result (first.new ≡ first_of first.old (initial_faults scope.now 0 [] (inside_of (alone root.now) (codes ":init")))) }
{
    let initial = initial_section(alloc, scope, part_of(root, ":init").items, first)?;
    problem.initial = initial.atoms;
    problem.values = initial.values;
    Ok(())
}

fn initial_pass(
    alloc: Global,
    root: &Tree,
    scope: &Scope,
    problem: &mut Problem,
) -> Result<(), PddlFault>
    ensures atoms { OnOk result (problem.new.initial.items ≡ initial_atoms scope.now (inside_of (alone root.now) (codes ":init"))) }
    ensures values { OnOk result (values_of problem.new.values.entries ≡ stated_values scope.now [] (inside_of (alone root.now) (codes ":init"))) }
    ensures clean { OnOk result (first_of None (initial_faults scope.now 0 [] (inside_of (alone root.now) (codes ":init"))) ≡ None) }
    ensures fault { IfErr result (λ e. Fails e (pass ProblemFile (initial_faults scope.now 0 [] (inside_of (alone root.now) (codes ":init"))))) }
{
    let mut first = None;
    read_initial(alloc, root, scope, problem, &mut first)?;
    judge(PlanningFile::Problem, first)
}

#[tactic(auto, unfolding(crate::specs::Texts::goal_of))]
fn goal_pass(
    alloc: Global,
    root: &Tree,
    scope: &Scope,
    goal: &mut Vec<GroundLiteral>,
) -> Result<(), PddlFault>
    ensures literals { OnOk result (goal.new.items ≡ spec.goal_of scope.now (alone root.now)) }
    ensures clean { OnOk result
        (first_of None (goal_faults scope.now (place_in (alone root.now) (codes ":goal")) (inside_of (alone root.now) (codes ":goal"))) ≡ None) }
    ensures fault { IfErr result
        (λ e. Fails e (pass ProblemFile (goal_faults scope.now (place_in (alone root.now) (codes ":goal")) (inside_of (alone root.now) (codes ":goal"))))) }
{
    let mut first = None;
    let section = part_of(root, ":goal");
    *goal = goal_section(alloc, scope, section.items, section.at, &mut first)?;
    judge(PlanningFile::Problem, first)
}

/// Records the faults of the metric, and returns whether there is one.
#[tactic(auto, unfolding(pddl_syntax::specs::Faults::first_of))]
fn read_metric(root: &Tree, first: &mut Option<Fault>) -> bool
    ensures metric { result ≡ spec.has_metric (alone root.now) }
    ensures faults { first.new ≡ first_of first.old (spec.stated_metric_faults (part (alone root.now) (codes ":metric"))) }
{
    match find_section(sections_of(root), ":metric") {
        Some(section) => {
            metric_section(section.items, section.at, first);
            true
        }
        None => false,
    }
}

fn metric_pass(root: &Tree, metric: &mut bool) -> Result<(), PddlFault>
    ensures metric { metric.new ≡ spec.has_metric (alone root.now) }
    ensures clean { OnOk result (first_of None (spec.stated_metric_faults (part (alone root.now) (codes ":metric"))) ≡ None) }
    ensures fault { IfErr result (λ e. Fails e (pass ProblemFile (spec.stated_metric_faults (part (alone root.now) (codes ":metric"))))) }
{
    let mut first = None;
    *metric = read_metric(root, &mut first);
    judge(PlanningFile::Problem, first)
}

/// Reads a problem from its tree, and adds its objects to the constants. `variables` must be empty, because a problem
/// has no parameters. Fails with the first fault of the first pass that has one, or if allocation fails; after a
/// failure `objects` and `problem` can only be dropped.
pub fn read_problem(
    alloc: Global,
    root: &Tree,
    declarations: &Declarations,
    variables: &Names,
    objects: &mut Objects,
    problem: &mut Problem,
) -> Result<(), PddlFault>
    requires { variables.now ≡ [] }
    ensures objects { OnOk result (objects.new ≡ spec.objects_of declarations.now objects.old (alone root.now)) }
    ensures initial { OnOk result (problem.new.initial.items
        ≡ initial_atoms (spec.scope_over declarations.now (spec.objects_of declarations.now objects.old (alone root.now)))
        (inside_of (alone root.now) (codes ":init"))) }
    ensures values { OnOk result (values_of problem.new.values.entries
        ≡ stated_values (spec.scope_over declarations.now (spec.objects_of declarations.now objects.old (alone root.now))) []
        (inside_of (alone root.now) (codes ":init"))) }
    ensures goal { OnOk result (problem.new.goal.items
        ≡ spec.goal_of (spec.scope_over declarations.now (spec.objects_of declarations.now objects.old (alone root.now))) (alone root.now)) }
    ensures metric { OnOk result (problem.new.metric ≡ spec.has_metric (alone root.now)) }
    ensures clean { OnOk result (first_pass (spec.stating_passes declarations.now objects.old (alone root.now)) ≡ None) }
    ensures fault { IfErr result (λ e. AllFail e (spec.stating_passes declarations.now objects.old (alone root.now))) }
{
    heads_pass(alloc, PlanningFile::Problem, root)?;
    objects_pass(alloc, root, &declarations.types, objects)?;
    let scope = Scope {
        predicates: &declarations.predicates,
        functions: &declarations.functions,
        variables,
        objects: objects.names(),
    };
    initial_pass(alloc, root, &scope, problem)?;
    goal_pass(alloc, root, &scope, &mut problem.goal)?;
    metric_pass(root, &mut problem.metric)?;
    Ok(())
}

/// Records F17 for each schema whose actions may cost too much, if there is a metric.
#[tactic(auto, unfolding(pddl_syntax::specs::Faults::first_of))]
fn read_sums(
    alloc: Global,
    problem: &Problem,
    actions: &Actions,
    first: &mut Option<Fault>,
) -> Result<(), AllocError>
    requires { length actions.now.schemas.items ≡ length actions.now.places.items }
    ensures { OnOk result (first.new
        ≡ first_of first.old
        (spec.sums_pass problem.now.metric (values_of problem.now.values.entries) actions.now.schemas.items actions.now.places.items).faults) }
{
    if problem.metric {
        blame_sums(
            alloc,
            &problem.values,
            &actions.schemas,
            &actions.places,
            first,
        )?;
    }
    Ok(())
}

/// Checks the costs of actions, in the last pass. Fails with F17 for the first schema whose actions may cost too much,
/// if there is a metric, or if allocation fails.
fn sums_pass(alloc: Global, problem: &Problem, actions: &Actions) -> Result<(), PddlFault>
    requires { length actions.now.schemas.items ≡ length actions.now.places.items }
    ensures clean { OnOk result
        (first_of None (spec.sums_pass problem.now.metric (values_of problem.now.values.entries)
        actions.now.schemas.items actions.now.places.items).faults ≡ None) }
    ensures fault { IfErr result
        (λ e. Fails e (spec.sums_pass problem.now.metric (values_of problem.now.values.entries) actions.now.schemas.items actions.now.places.items)) }
{
    let mut first = None;
    read_sums(alloc, problem, actions, &mut first)?;
    judge(PlanningFile::Domain, first)
}

/// Reads a problem, adds its objects to the domain, and checks the costs of actions. `variables` must be empty. Fails
/// with the first fault of the first pass that has one, or if allocation fails; after a failure `domain` and `problem`
/// can only be dropped.
pub fn with_problem(
    alloc: Global,
    root: &Tree,
    variables: &Names,
    domain: &mut Domain,
    problem: &mut Problem,
) -> Result<(), PddlFault>
    requires no_variables { variables.now ≡ [] }
    requires places { length domain.old.actions.schemas.items ≡ length domain.old.actions.places.items }
    ensures task { OnOk result (task_in domain.new problem.new
        ≡ spec.task_with domain.old.declarations domain.old.objects domain.old.actions.schemas.items domain.old.actions.names (alone root.now)) }
    ensures places { OnOk result (length domain.new.actions.schemas.items ≡ length domain.new.actions.places.items) }
    ensures sums { OnOk result
        (first_of None (spec.sums_pass problem.new.metric (values_of problem.new.values.entries)
        domain.new.actions.schemas.items domain.new.actions.places.items).faults ≡ None) }
    ensures clean { OnOk result
        (first_pass (spec.passes_with domain.old.declarations domain.old.objects
        domain.old.actions.schemas.items domain.old.actions.places.items (alone root.now)) ≡ None) }
    ensures fault { IfErr result
        (λ e. AllFail e (spec.passes_with domain.old.declarations domain.old.objects
        domain.old.actions.schemas.items domain.old.actions.places.items (alone root.now))) }
{
    read_problem(
        alloc,
        root,
        &domain.declarations,
        variables,
        &mut domain.objects,
        problem,
    )?;
    sums_pass(alloc, problem, &domain.actions)
}
