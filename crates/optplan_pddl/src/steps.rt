//! The steps of a plan, from the names of its operators.

ghost use Rattle.std.specs.Prelude.{◌≡◌, ◌<◌, ℕ, List, [], ◌∷◌, ◌++◌, All, IfOk, IfSome, IfNone, length, map};
ghost use Rattle.fdr.specs.Tasks as spec;
ghost use Rattle.pddl_names.specs.Names.{texts_of};
ghost use Rattle.pddl_task.specs.Planning.{PlanningTask, Action};
ghost use Rattle.pddl.specs.Texts.{SpellTask};
ghost use Rattle.translate.specs.Translated.{TranslatedTask, IsTranslation, AreOperatorsOf};
ghost use Rattle.optplan_pddl.specs.Plans.{step_of};
ghost use Rattle.validate.specs.PlanWords.{IsPlanStep};
ghost use Rattle.optplan_pddl.specs.Steps.{words_of, step_of_words, HasStepNames, operator_step};

use fdr::FdrTask;
use std::alloc::{AllocError, Global};
use validate::Step;

/// Returns the words of a text that are separated by single blanks.
fn words(alloc: Global, text: &str) -> Result<Vec<String>, AllocError>
    ensures { IfOk result (λ words. texts_of words.items ≡ words_of text.now) }
{
    let mut words = Vec::new(alloc);
    for word in text.split(' ') {
        words.push(String::from_str(alloc, word)?)?;
    }
    Ok(words)
}

/// Returns the step whose words, separated by single blanks, are this name, or `None` if one of them is not a plan
/// word.
pub fn named_step(alloc: Global, name: &str) -> Result<Option<Step>, AllocError>
    ensures some { IfOk result (λ o. IfSome o (λ step. step ≡ step_of_words (words_of name.now))) }
    ensures none { IfOk result (λ o. IfNone o (IsPlanStep (step_of_words (words_of name.now)) → ⊥)) }
{
    match name.split_once(' ') {
        Some((schema, objects)) => {
            let schema = String::from_str(alloc, schema)?;
            let objects = words(alloc, objects)?;
            Ok(Step::new(schema, objects))
        }
        None => Ok(Step::new(String::from_str(alloc, name)?, Vec::new(alloc))),
    }
}

/// Pushes the step that a name spells.
fn push_named(alloc: Global, name: &str, steps: &mut Vec<Step>) -> Result<(), AllocError>
    requires { IsPlanStep (step_of_words (words_of name.now)) }
    ensures { IfOk result (λ _. steps.new.items ≡ steps.old.items ++ step_of_words (words_of name.now) ∷ []) }
{
    match named_step(alloc, name)? {
        Some(step) => {
            steps.push(step)?;
            Ok(())
        }
        None => unreachable!(),
    }
}

/// Returns the steps that name the actions of these operators: each operator's name is that of its schema and those of
/// its objects, separated by single blanks.
pub fn named_steps(
    alloc: Global,
    translated: &FdrTask,
    plan: &[usize],
) -> Result<Vec<Step>, AllocError>
    requires there { All (λ o. o < length translated.now.operators) plan.now }
    requires names { HasStepNames translated.now }
    ensures { (domain problem : List ℕ) (task : PlanningTask) (t : TranslatedTask) (actions : List Action) → SpellTask domain problem task →
        IsTranslation task t → t.task ≡ translated.now → AreOperatorsOf task t actions plan.now →
        IfOk result (λ steps. steps.items ≡ map (step_of task.vocabulary) actions) }
{
    let operators = translated.operators();
    let mut steps = Vec::new(alloc);
    for operator in plan {
        let operator = &operators[*operator];
        push_named(alloc, operator.name.as_str(), &mut steps)?;
    }
    Ok(steps)
}
