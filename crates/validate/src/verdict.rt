//! The verdict on a plan.

ghost use Rattle.std.specs.Prelude.{◌≡◌, IfOk, IsTrue};
ghost use Rattle.std.specs.Option.{option_map};
ghost use Rattle.pddl_names.specs.Names.{texts_of};
ghost use Rattle.pddl_task.specs.Planning.{has_small_costs};
ghost use Rattle.validate.specs.Steps.{numbers_of, action_named};
ghost use Rattle.validate.specs.Validation.{verdict_of};
ghost use Rattle.validate.specs.Verdicts.{IsVerdict, CostsAtMost};
ghost use Rattle.pddl_task.specs.Limits.{max_cost};

use crate::plan::{Plan, Step};
use crate::state::AtomSet;
use pddl_names::Names;
use pddl_task::{GroundAction, GroundLiteral, Task};
use std::alloc::{AllocError, Global};

/// The verdict on a plan in a task. Steps count from 1.
#[derive(Debug, Drop)]
pub enum Verdict {
    /// The plan is valid, and has this cost.
    Valid(u64),
    /// This step is the first that is not applicable, and it names no ground action of the task.
    NoSuchAction(usize),
    /// This step is the first that is not applicable. It names a ground action, and this is the first literal of its
    /// precondition, in the order of the text, that does not hold.
    NotApplicable(usize, GroundLiteral),
    /// Every step is applicable, and this is the first literal of the goal, in the order of the text, that does not
    /// hold at the end.
    GoalOpen(GroundLiteral),
}

/// Returns the numbers of these names, or `None` if one of them has no number.
fn numbers_of(
    alloc: Global,
    names: &Names,
    words: &[String],
) -> Result<Option<Vec<usize>>, AllocError>
    ensures { IfOk result (λ r. option_map (λ ns. ns.items) r ≡ numbers_of names.now (texts_of words.now)) }
{
    let mut numbers = Vec::new(alloc);
    for word in words {
        match names.place_of(word.as_str()) {
            Some(number) => numbers.push(number)?,
            None => return Ok(None),
        }
    }
    Ok(Some(numbers))
}

/// Returns the ground action that a step names, or `None` if it names no action.
fn action_named(alloc: Global, task: &Task, step: &Step) -> Result<Option<GroundAction>, AllocError>
    requires { IsTrue (has_small_costs task.now) }
    ensures { IfOk result (λ a. a ≡ action_named task.now step.now) }
{
    let Some(schema) = task.vocabulary.schemas.place_of(step.name()) else {
        return Ok(None);
    };
    match numbers_of(alloc, &task.vocabulary.objects, step.arguments())? {
        Some(objects) => task.action_of(alloc, schema, &objects),
        None => Ok(None),
    }
}

/// Returns the verdict on a plan, by applying its steps one after the other.
fn verdict_of(alloc: Global, task: &Task, plan: &Plan) -> Result<Verdict, AllocError>
    requires small { IsTrue (has_small_costs task.now) }
    requires costs { CostsAtMost task.now max_cost }
    ensures { IfOk result (λ verdict. verdict ≡ verdict_of task.now plan.now) }
{
    let mut state = AtomSet::of(alloc, &task.initial)?;
    let mut cost: u64 = 0;
    for (place, step) in plan.steps().iter().enumerate() {
        let Some(action) = action_named(alloc, task, step)? else {
            return Ok(Verdict::NoSuchAction(place + 1));
        };
        if let Some(literal) = state.first_failing(&action.precondition) {
            return Ok(Verdict::NotApplicable(place + 1, literal.try_clone(alloc)?));
        }
        cost += action.cost;
        state.apply(action)?;
    }
    match state.first_failing(&task.goal) {
        Some(literal) => Ok(Verdict::GoalOpen(literal.try_clone(alloc)?)),
        None => Ok(Verdict::Valid(cost)),
    }
}

/// Returns the verdict on a plan in a task: its cost if it is valid, otherwise its first step that is not applicable,
/// or the first literal of the goal that does not hold at its end (Fox and Long 2003). The time for a step depends on
/// the schema and the effects of its action, but not on the size of the state.
pub fn validate(alloc: Global, task: &Task, plan: &Plan) -> Result<Verdict, AllocError>
    requires small { IsTrue (has_small_costs task.now) }
    requires costs { CostsAtMost task.now max_cost }
    ensures { IfOk result (λ verdict. IsVerdict task.now plan.now verdict) }
{
    verdict_of(alloc, task, plan)
}
