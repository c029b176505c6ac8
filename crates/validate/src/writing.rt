//! Writing plans and verdicts.

ghost use Rattle.std.specs.Prelude.{◌≡◌, ◌≤◌, ◌++◌, IfOk, OnOk, length, string_bytes};
ghost use Rattle.std.specs.Fmt.{decimal};
ghost use Rattle.std.specs.List.{flat_map};
ghost use Rattle.sexp.specs.Limits.{max_bytes};
ghost use Rattle.pddl_names.specs.Names.{texts_of};
ghost use Rattle.validate.specs.PlanTexts.{SpellsPlan};
ghost use Rattle.validate.specs.Written.{spaced, step_line, cost_kind, plan_text_of, name_of, spaced_names, atom_text, literal_text, verdict_text, verdict_line_of};

use crate::plan::{Plan, Step};
use crate::verdict::Verdict;
use itoa::Buffer;
use pddl_names::Names;
use pddl_task::{GroundAtom, GroundLiteral, Task, Vocabulary};
use std::alloc::{AllocError, Global};

fn push_number(text: &mut String, number: u64) -> Result<(), AllocError>
    ensures { OnOk result (string_bytes text.new ≡ string_bytes text.old ++ decimal number) }
{
    let mut buffer = Buffer::new();
    text.push_str(buffer.format(number))
}

// ---- plans

/// Appends each of the words, with a blank before it.
#[tactic(auto, using(crate::proofs::PlanLaws::appending))]
fn push_words(text: &mut String, words: &[String]) -> Result<(), AllocError>
    ensures { OnOk result (string_bytes text.new ≡ string_bytes text.old ++ spaced (texts_of words.now)) }
{
    for word in words {
        text.push_str(" ")?;
        text.push_str(word.as_str())?;
    }
    Ok(())
}

#[tactic(auto, using(crate::proofs::PlanLaws::appending))]
fn push_step(text: &mut String, step: &Step) -> Result<(), AllocError>
    ensures { OnOk result (string_bytes text.new ≡ string_bytes text.old ++ step_line step.now) }
{
    text.push_str("(")?;
    text.push_str(step.name())?;
    push_words(text, step.arguments())?;
    text.push_str(")\n")?;
    Ok(())
}

#[tactic(auto, using(crate::proofs::PlanLaws::appending))]
fn push_steps(text: &mut String, steps: &[Step]) -> Result<(), AllocError>
    ensures { OnOk result (string_bytes text.new ≡ string_bytes text.old ++ flat_map step_line steps.now) }
{
    for step in steps {
        push_step(text, step)?;
    }
    Ok(())
}

fn push_cost_kind(text: &mut String, unit: bool) -> Result<(), AllocError>
    ensures { OnOk result (string_bytes text.new ≡ string_bytes text.old ++ cost_kind unit) }
{
    text.push_str(if unit {
        " (unit cost)\n"
    } else {
        " (general cost)\n"
    })
}

#[tactic(auto, using(crate::proofs::PlanLaws::appending))]
fn steps_text(alloc: Global, steps: &[Step], cost: u64, unit: bool) -> Result<String, AllocError>
    ensures { IfOk result (λ text. string_bytes text ≡ plan_text_of steps.now cost unit) }
{
    let mut text = String::new(alloc);
    push_steps(&mut text, steps)?;
    text.push_str("; cost = ")?;
    push_number(&mut text, cost)?;
    push_cost_kind(&mut text, unit)?;
    Ok(text)
}

/// Returns the plan as a text: a line for each step, such as `(go a b)`, and a last line such as `; cost = 2 (unit
/// cost)`. If `unit` is not set, that line ends with `(general cost)`.
pub fn plan_text(alloc: Global, plan: &Plan, cost: u64, unit: bool) -> Result<String, AllocError>
    ensures written { IfOk result (λ text. string_bytes text ≡ plan_text_of plan.now cost unit) }
    // `read_plan` reads the text back as this plan, unless the text is too long.
    ensures read { IfOk result (λ text. length (string_bytes text) ≤ max_bytes → SpellsPlan (string_bytes text) plan.now) }
{
    let text = steps_text(alloc, plan.steps(), cost, unit)?;
    Ok(text)
}

// ---- verdicts

/// Appends the name with this number, or nothing if there is none.
fn push_name(text: &mut String, names: &Names, number: usize) -> Result<(), AllocError>
    ensures { OnOk result (string_bytes text.new ≡ string_bytes text.old ++ name_of names.now number) }
{
    match names.name(number) {
        Some(name) => text.push_str(name),
        None => Ok(()),
    }
}

/// Appends the name of each of the numbers, with a blank before it.
#[tactic(auto, using(crate::proofs::PlanLaws::appending))]
fn push_names(text: &mut String, names: &Names, numbers: &[usize]) -> Result<(), AllocError>
    ensures { OnOk result (string_bytes text.new ≡ string_bytes text.old ++ spaced_names names.now numbers.now) }
{
    for number in numbers {
        text.push_str(" ")?;
        push_name(text, names, *number)?;
    }
    Ok(())
}

#[tactic(auto, using(crate::proofs::PlanLaws::appending))]
fn push_atom(
    text: &mut String,
    vocabulary: &Vocabulary,
    atom: &GroundAtom,
) -> Result<(), AllocError>
    ensures { OnOk result (string_bytes text.new ≡ string_bytes text.old ++ atom_text vocabulary.now atom.now) }
{
    text.push_str("(")?;
    push_name(text, &vocabulary.predicates, atom.predicate)?;
    push_names(text, &vocabulary.objects, atom.objects.as_slice())?;
    text.push_str(")")?;
    Ok(())
}

#[tactic(auto, using(crate::proofs::PlanLaws::appending))]
fn push_literal(
    text: &mut String,
    vocabulary: &Vocabulary,
    literal: &GroundLiteral,
) -> Result<(), AllocError>
    ensures { OnOk result (string_bytes text.new ≡ string_bytes text.old ++ literal_text vocabulary.now literal.now) }
{
    if literal.positive {
        return push_atom(text, vocabulary, &literal.atom);
    }
    text.push_str("(not ")?;
    push_atom(text, vocabulary, &literal.atom)?;
    text.push_str(")")?;
    Ok(())
}

#[tactic(auto, using(crate::proofs::PlanLaws::appending))]
fn push_verdict(
    text: &mut String,
    vocabulary: &Vocabulary,
    verdict: &Verdict,
) -> Result<(), AllocError>
    ensures { OnOk result (string_bytes text.new ≡ string_bytes text.old ++ verdict_text vocabulary.now verdict.now) }
{
    match verdict {
        Verdict::Valid(cost) => {
            text.push_str("valid ")?;
            push_number(text, *cost)?;
        }
        Verdict::NoSuchAction(number) => {
            text.push_str("no such action ")?;
            push_number(text, *number as u64)?;
        }
        Verdict::NotApplicable(number, literal) => {
            text.push_str("not applicable ")?;
            push_number(text, *number as u64)?;
            text.push_str(" ")?;
            push_literal(text, vocabulary, literal)?;
        }
        Verdict::GoalOpen(literal) => {
            text.push_str("goal open ")?;
            push_literal(text, vocabulary, literal)?;
        }
    }
    Ok(())
}

/// Returns the verdict as a line: `valid 7`, `no such action 2`, `not applicable 2 (at a)` or `goal open (not (at a))`,
/// with a line feed. Literals are written with the names of the task; a number without a name is written as nothing.
pub fn verdict_line(alloc: Global, task: &Task, verdict: &Verdict) -> Result<String, AllocError>
    ensures { IfOk result (λ text. string_bytes text ≡ verdict_line_of task.now verdict.now) }
{
    let mut text = String::new(alloc);
    push_verdict(&mut text, &task.vocabulary, verdict)?;
    text.push_str("\n")?;
    Ok(text)
}
