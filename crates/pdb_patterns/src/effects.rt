//! Operators, indexed by the variables of their effects.

use fdr::{FdrTask, Operator};
use std::alloc::{AllocError, Global};

/// An effect of an operator on a variable. Both are denoted by their numbers.
#[derive(Clone, Copy, PartialEq, Eq, PartialOrd, Ord)]
pub(crate) struct Effect {
    pub(crate) variable: usize,
    pub(crate) operator: usize,
}

/// Appends the effects of an operator.
fn push_effects(
    effects: &mut Vec<Effect>,
    number: usize,
    operator: &Operator,
) -> Result<(), AllocError> {
    for fact in &operator.effect {
        effects.push(Effect {
            variable: fact.variable,
            operator: number,
        })?;
    }
    Ok(())
}

/// Returns the effects of all operators, ordered by variable and then by operator.
pub(crate) fn effects_of(alloc: Global, task: &FdrTask) -> Result<Vec<Effect>, AllocError> {
    let mut effects = Vec::new(alloc);
    for (number, operator) in task.operators().iter().enumerate() {
        push_effects(&mut effects, number, operator)?;
    }
    effects.sort_unstable();
    Ok(effects)
}
