//! Writing facts: conditions, the initial state and the goal.
#![tactic(auto, using(crate::proofs::Appends::appending))]

ghost use Rattle.std.specs.Prelude.{◌≡◌, ◌++◌, ◌∷◌, [], OnOk, codes, decimal, map};
ghost use Rattle.sasfile_writer.specs.Written.{text_of_lines, fact_line, fact_lines};

use crate::lines::{push_line, push_number_line, push_pair_line};
use fdr::Fact;
use std::alloc::AllocError;

pub(crate) fn push_fact(out: &mut Vec<u8>, fact: Fact) -> Result<(), AllocError>
    ensures { OnOk result (out.new.items ≡ out.old.items ++ text_of_lines (fact_line fact ∷ [])) }
{
    push_pair_line(out, fact.variable as u64, u64::from(fact.value))
}

fn push_facts(out: &mut Vec<u8>, facts: &[Fact]) -> Result<(), AllocError>
    ensures { OnOk result (out.new.items ≡ out.old.items ++ text_of_lines (map fact_line facts.now)) }
{
    for fact in facts {
        push_fact(out, *fact)?;
    }
    Ok(())
}

/// Appends a line for each value.
fn push_values(out: &mut Vec<u8>, values: &[u32]) -> Result<(), AllocError>
    ensures { OnOk result (out.new.items ≡ out.old.items ++ text_of_lines (map decimal values.now)) }
{
    for value in values {
        push_number_line(out, u64::from(*value))?;
    }
    Ok(())
}

/// Appends the initial state.
pub(crate) fn push_state(out: &mut Vec<u8>, state: &[u32]) -> Result<(), AllocError>
    ensures { OnOk result (out.new.items ≡ out.old.items
        ++ text_of_lines (codes "begin_state" ∷ (map decimal state.now ++ codes "end_state" ∷ []))) }
{
    push_line(out, b"begin_state")?;
    push_values(out, state)?;
    push_line(out, b"end_state")
}

/// Appends the goal: the number of its facts, and each of them.
pub(crate) fn push_goal(out: &mut Vec<u8>, goal: &[Fact]) -> Result<(), AllocError>
    ensures { OnOk result (out.new.items ≡ out.old.items
        ++ text_of_lines (codes "begin_goal" ∷ (fact_lines goal.now ++ codes "end_goal" ∷ []))) }
{
    push_line(out, b"begin_goal")?;
    push_number_line(out, goal.len() as u64)?;
    push_facts(out, goal)?;
    push_line(out, b"end_goal")
}
