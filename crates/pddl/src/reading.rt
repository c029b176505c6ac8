//! Reading a task from its two texts.

ghost use Rattle.std.specs.Prelude.{◌≡◌, ◌≤◌, [], None, length, true, IsTrue, IfErr, IfOk, OnOk};
ghost use Rattle.sexp.specs.Forms.{alone};
ghost use Rattle.pddl_syntax.specs.Faults.{first_of};
ghost use Rattle.pddl_domain.specs.Objects.{no_objects};
ghost use Rattle.pddl_problem.specs.Initial.{values_of};
ghost use Rattle.pddl_task.specs.Planning.{PlanningTask, Action, IsActionOf, has_small_costs};
ghost use Rattle.pddl.specs.declared.fault.PddlFault.{PddlFault};
ghost use Rattle.pddl.specs.Assembled.{task_in};
ghost use Rattle.pddl.specs.Texts.{SpellTask, IsTaskRefusal, IsTree, IsTreeFault, sums_pass};
ghost use Rattle.pddl_task.specs.Limits.{max_cost};

use crate::domain::{Domain, read_domain};
use crate::fault::PddlFault;
use crate::problem::{Problem, with_problem};
use pddl_names::Names;
use pddl_syntax::PlanningFile;
use pddl_task::{Task, Vocabulary};
use sexp::{SexpFault, Tree};
use std::alloc::Global;

/// Reads the tree of a text. Fails with the first fault, or if allocation fails.
fn tree_of(alloc: Global, file: PlanningFile, bytes: &[u8]) -> Result<Tree, PddlFault>
    ensures found { IfOk result (λ t. IsTree bytes.now (alone t)) }
    ensures fault { IfErr result (λ e. IsTreeFault file bytes.now e) }
{
    match sexp::read(alloc, bytes) {
        Ok(tree) => Ok(tree),
        Err(SexpFault::OutOfMemory) => Err(PddlFault::OutOfMemory),
        Err(fault) => Err(PddlFault::Tree(file, fault)),
    }
}

/// The domain and the problem read from the two texts.
#[derive(Drop)]
struct TaskParts {
    domain: Domain,
    problem: Problem,
}

impl TaskParts {
    /// Returns the parts of a task before any text is read.
    fn new(alloc: Global) -> TaskParts
        ensures { result.domain.objects ≡ no_objects }
    {
        TaskParts {
            domain: Domain::new(alloc),
            problem: Problem::new(alloc),
        }
    }

    /// Returns the task of these parts.
    fn assembled(self) -> Task
        ensures { result ≡ task_in self.domain self.problem }
    {
        let domain = self.domain;
        let problem = self.problem;
        let declarations = domain.declarations;
        let actions = domain.actions;
        let types = declarations.types;
        let (predicates, arities) = declarations.predicates.into_parts();
        let (functions, _) = declarations.functions.into_parts();
        let (objects, object_types) = domain.objects.into_parts();
        Task {
            supertypes: types.supertypes,
            object_types,
            arities,
            schemas: actions.schemas,
            initial: problem.initial,
            goal: problem.goal,
            values: problem.values,
            metric: problem.metric,
            vocabulary: Vocabulary {
                objects,
                predicates,
                functions,
                schemas: actions.names,
            },
        }
    }
}

/// Reads both texts into `parts`, which must be empty. Fails with the first fault, or if allocation fails.
fn read_into(
    alloc: Global,
    domain: &[u8],
    problem: &[u8],
    variables: &Names,
    parts: &mut TaskParts,
) -> Result<(), PddlFault>
    requires no_objects { parts.old.domain.objects ≡ no_objects }
    requires no_variables { variables.now ≡ [] }
    ensures found { OnOk result (SpellTask domain.now problem.now (task_in parts.new.domain parts.new.problem)) }
    ensures places { OnOk result (length parts.new.domain.actions.schemas.items ≡ length parts.new.domain.actions.places.items) }
    ensures sums { OnOk result
        (first_of None (sums_pass parts.new.problem.metric (values_of parts.new.problem.values.entries)
        parts.new.domain.actions.schemas.items parts.new.domain.actions.places.items).faults ≡ None) }
    ensures fault { IfErr result (λ e. IsTaskRefusal domain.now problem.now e) }
{
    let domain_tree = tree_of(alloc, PlanningFile::Domain, domain)?;
    read_domain(alloc, &domain_tree, &mut parts.domain)?;
    let problem_tree = tree_of(alloc, PlanningFile::Problem, problem)?;
    with_problem(
        alloc,
        &problem_tree,
        variables,
        &mut parts.domain,
        &mut parts.problem,
    )
}

/// Reads both texts. Fails with the first fault, or if allocation fails.
fn read_parts(
    alloc: Global,
    domain: &[u8],
    problem: &[u8],
    variables: &Names,
) -> Result<TaskParts, PddlFault>
    requires { variables.now ≡ [] }
    ensures found { IfOk result (λ p. SpellTask domain.now problem.now (task_in p.domain p.problem)) }
    ensures places { IfOk result (λ p. length p.domain.actions.schemas.items ≡ length p.domain.actions.places.items) }
    ensures sums { IfOk result
        (λ p. first_of None (sums_pass p.problem.metric (values_of p.problem.values.entries)
        p.domain.actions.schemas.items p.domain.actions.places.items).faults ≡ None) }
    ensures fault { IfErr result (λ e. IsTaskRefusal domain.now problem.now e) }
{
    let mut parts = TaskParts::new(alloc);
    match read_into(alloc, domain, problem, variables, &mut parts) {
        Err(fault) => {
            // An explicit call, so that this function drops one value rather than each of its parts.
            drop(parts);
            Err(fault)
        }
        Ok(()) => Ok(parts),
    }
}

/// Reads a planning task from the texts of its domain and its problem, in bytes (McDermott and others 1998; Fox and
/// Long 2003).
///
/// Fails with the first fault, or if allocation fails. The faults are in this order: those of the domain's tree; those
/// of the domain's parts, in the order heads, requirements, types, constants, predicates, functions and actions; those
/// of the problem's tree; those of the problem's parts, in the order heads, objects, initial state, goal and metric;
/// and last those of the actions' costs. Within a part the fault at the least place precedes the others.
pub fn read_task(alloc: Global, domain: &[u8], problem: &[u8]) -> Result<Task, PddlFault>
    // The result is what the texts spell.
    ensures found { IfOk result (λ t. SpellTask domain.now problem.now t) }
    // Texts that spell a task are read, unless allocation fails.
    ensures only { (t : PlanningTask) → SpellTask domain.now problem.now t → IfOk result (λ r. r ≡ t) }
    ensures never_refused { (t : PlanningTask) → SpellTask domain.now problem.now t → IfErr result (λ e. e ≡ PddlFault.OutOfMemory) }
    // No cost reaches 2^63.
    ensures small { IfOk result (λ t. IsTrue (has_small_costs t)) }
    // The bound on an action's cost.
    ensures costs { IfOk result (λ t. (a : Action) → IsActionOf t a → a.cost ≤ max_cost) }
    // An error is the first fault, or that allocation failed.
    ensures fault { IfErr result (λ e. IsTaskRefusal domain.now problem.now e) }
{
    let variables = Names::new(alloc);
    match read_parts(alloc, domain, problem, &variables) {
        Err(fault) => Err(fault),
        Ok(parts) => Ok(parts.assembled()),
    }
}
