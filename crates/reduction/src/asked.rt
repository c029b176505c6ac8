//! Asked facts, and the operators that change a class.

ghost use Rattle.std.specs.Prelude.{◌≡◌, ℕ, true, ◌↔◌, length, map, IfOk};
ghost use Rattle.fdr.specs.Tasks.{ranges};
ghost use Rattle.reduction.specs.Facts.{is_in};
ghost use Rattle.reduction.specs.Asked.{AreAsked, ChangesClass};
ghost use Rattle.reduction.specs.Closing.{is_marked};

use crate::closing::Closing;
use crate::facts::FactSet;
use crate::waiting::Waiting;
use fdr::FdrTask;
use std::alloc::{AllocError, Global};

/// The asked facts of a task: the least set that holds the facts of the goal and the conditions of each operator with
/// an effect that changes a class, if each asked value of a variable is a class of its own and its other values share
/// one.
#[derive(Drop)]
pub(crate) struct Asked {
    pub(crate) facts: FactSet,
    /// For each operator whether it changes a class.
    pub(crate) changing: Vec<bool>,
}

/// Returns the asked facts. Takes time linear in the number of values of all variables and in the facts of the
/// operators: each operator's conditions are asked for once, and each fact's waiting operators are visited once.
pub(crate) fn asked_of(alloc: Global, task: &FdrTask) -> Result<Asked, AllocError>
    ensures asked { IfOk result (λ a. AreAsked task.now (is_in a.facts)) }
    ensures shape { IfOk result (λ a. map length a.facts ≡ ranges task.now) }
    ensures len { IfOk result (λ a. length a.changing.items ≡ length task.now.operators) }
    ensures changing { IfOk result (λ a. (o : ℕ) → (is_marked a.changing.items o ≡ true) ↔ ChangesClass task.now (is_in a.facts) o) }
{
    let waiting = Waiting::new(alloc, task)?;
    let asked = FactSet::new(alloc, task)?;
    let changing = vec![in alloc; false; task.operator_count()]?;
    let visited = vec![in alloc; false; task.variable_count()]?;
    let pending = Vec::new(alloc);
    let mut closing = Closing {
        asked,
        changing,
        visited,
        pending,
    };
    closing.ask_all(task.goal())?;
    closing.close(task, &waiting)?;
    let Closing {
        asked,
        changing,
        visited: _,
        pending: _,
    } = closing;
    Ok(Asked {
        facts: asked,
        changing,
    })
}
