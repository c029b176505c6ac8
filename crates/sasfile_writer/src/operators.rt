//! Writing operators.
#![tactic(auto, using(crate::proofs::Appends::appending))]

ghost use Rattle.std.specs.Prelude.{◌≡◌, ◌++◌, ◌∷◌, [], OnOk, codes, decimal, filter, length, map, not};
ghost use Rattle.std.specs.List.{flat_map};
ghost use Rattle.std.specs.Option.{option_map_or};
ghost use Rattle.fdr.specs.Tasks.{names_variable};
ghost use Rattle.sasfile_writer.specs.Written as spec;
ghost use Rattle.sasfile_writer.specs.Written.{text_of_lines, fact_line, fact_lines, effect_line, operator_lines};

use crate::facts::push_fact;
use crate::lines::{push_line, push_number, push_number_line};
use cost::Cost;
use fdr::{Fact, Operator};
use std::alloc::AllocError;

/// Returns whether one of the facts is on the variable.
fn names_variable(facts: &[Fact], variable: usize) -> bool
    ensures { result ≡ names_variable facts.now variable }
{
    facts.iter().any(|fact| fact.variable == variable)
}

/// Returns the value of the fact on the variable, if there is one.
fn value_of(facts: &[Fact], variable: usize) -> Option<u32>
    ensures { result ≡ spec.value_of facts.now variable }
{
    let fact = facts.iter().find(|fact| fact.variable == variable)?;
    Some(fact.value)
}

/// Returns the number of prevail conditions: facts of the precondition on variables that the effect does not name.
fn prevail_count(precondition: &[Fact], effect: &[Fact]) -> usize
    ensures { result ≡ length (filter (λ f. not (names_variable effect.now f.variable)) precondition.now) }
{
    let conditions = precondition.iter();
    conditions
        .filter(|fact| !names_variable(effect, fact.variable))
        .count()
}

/// Appends the prevail conditions.
fn push_prevail(out: &mut Vec<u8>, precondition: &[Fact], effect: &[Fact]) -> Result<(), AllocError>
    ensures { OnOk result (out.new.items ≡ out.old.items
        ++ text_of_lines (map fact_line (filter (λ f. not (names_variable effect.now f.variable)) precondition.now))) }
{
    for fact in precondition {
        if !names_variable(effect, fact.variable) {
            push_fact(out, *fact)?;
        }
    }
    Ok(())
}

/// Appends the number of prevail conditions, and each of them.
fn push_prevail_list(
    out: &mut Vec<u8>,
    precondition: &[Fact],
    effect: &[Fact],
) -> Result<(), AllocError>
    ensures { OnOk result (out.new.items ≡ out.old.items
        ++ text_of_lines (fact_lines (filter (λ f. not (names_variable effect.now f.variable)) precondition.now))) }
{
    push_number_line(out, prevail_count(precondition, effect) as u64)?;
    push_prevail(out, precondition, effect)
}

/// Appends the value that a variable must have before an effect, or -1 for any value.
fn push_before(out: &mut Vec<u8>, before: Option<u32>) -> Result<(), AllocError>
    ensures { OnOk result (out.new.items ≡ out.old.items ++ option_map_or decimal before (codes "-1")) }
{
    match before {
        Some(value) => push_number(out, u64::from(value)),
        None => out.extend_from_slice(b"-1"),
    }
}

/// Appends an effect with no conditions of its own.
fn push_effect(out: &mut Vec<u8>, precondition: &[Fact], effect: Fact) -> Result<(), AllocError>
    ensures { OnOk result (out.new.items ≡ out.old.items ++ text_of_lines (effect_line precondition.now effect ∷ [])) }
{
    out.extend_from_slice(b"0 ")?;
    push_number(out, effect.variable as u64)?;
    out.push(b' ')?;
    push_before(out, value_of(precondition, effect.variable))?;
    out.push(b' ')?;
    push_number_line(out, u64::from(effect.value))
}

fn push_effects(
    out: &mut Vec<u8>,
    precondition: &[Fact],
    effects: &[Fact],
) -> Result<(), AllocError>
    ensures { OnOk result (out.new.items ≡ out.old.items ++ text_of_lines (map (effect_line precondition.now) effects.now)) }
{
    for effect in effects {
        push_effect(out, precondition, *effect)?;
    }
    Ok(())
}

/// Appends the number of effects, and each of them.
fn push_effect_list(
    out: &mut Vec<u8>,
    precondition: &[Fact],
    effects: &[Fact],
) -> Result<(), AllocError>
    ensures { OnOk result (out.new.items ≡ out.old.items
        ++ text_of_lines (decimal (length effects.now) ∷ map (effect_line precondition.now) effects.now)) }
{
    push_number_line(out, effects.len() as u64)?;
    push_effects(out, precondition, effects)
}

/// Appends the cost of an operator, whatever the metric.
fn push_cost(out: &mut Vec<u8>, cost: Cost) -> Result<(), AllocError>
    ensures { OnOk result (out.new.items ≡ out.old.items ++ text_of_lines (decimal cost ∷ [])) }
{
    push_number_line(out, cost.get())
}

fn push_operator(out: &mut Vec<u8>, operator: &Operator) -> Result<(), AllocError>
    ensures { OnOk result (out.new.items ≡ out.old.items ++ text_of_lines (operator_lines operator.now)) }
{
    let precondition = operator.precondition.as_slice();
    let effect = operator.effect.as_slice();
    push_line(out, b"begin_operator")?;
    push_line(out, operator.name.as_bytes())?;
    push_prevail_list(out, precondition, effect)?;
    push_effect_list(out, precondition, effect)?;
    push_cost(out, operator.cost)?;
    push_line(out, b"end_operator")
}

fn push_operators(out: &mut Vec<u8>, operators: &[Operator]) -> Result<(), AllocError>
    ensures { OnOk result (out.new.items ≡ out.old.items ++ text_of_lines (flat_map operator_lines operators.now)) }
{
    for operator in operators {
        push_operator(out, operator)?;
    }
    Ok(())
}

/// Appends the number of operators, and each of them.
pub(crate) fn push_operator_list(
    out: &mut Vec<u8>,
    operators: &[Operator],
) -> Result<(), AllocError>
    ensures { OnOk result (out.new.items ≡ out.old.items
        ++ text_of_lines (decimal (length operators.now) ∷ flat_map operator_lines operators.now)) }
{
    push_number_line(out, operators.len() as u64)?;
    push_operators(out, operators)
}
