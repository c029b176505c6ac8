//! The transitions of an abstraction, operator after operator.

ghost use Rattle.std.specs.Prelude.{◌≡◌, ◌<◌, ◌^◌, length, IfOk, OnOk};
ghost use Rattle.abstraction_groups.specs.Lists.{AreEntries};
ghost use Rattle.abstraction_listed.specs.Affecting.{affecting, single_classes};
ghost use Rattle.abstraction_listed.specs.Entries.{AreAppended};

use abstraction::Abstraction;
use abstraction_groups::Transition;
use keyed_lists::Keyed;
use std::alloc::{AllocError, Global};

/// Returns the operators that affect the abstraction, by strictly increasing numbers. `operators` is the number of
/// operators of the task.
pub(crate) fn affecting_operators<A: Abstraction>(
    alloc: Global,
    abstraction: &A,
    operators: usize,
) -> Result<Vec<u32>, AllocError>
    requires operators { operators ≡ length (A.task abstraction.now).operators }
    requires few { operators < 2 ^ 32 }
    ensures { IfOk result (λ list. list.items ≡ affecting (A.task abstraction.now) (A.abstraction abstraction.now)) }
{
    let mut list = Vec::new(alloc);
    for operator in 0..operators {
        if abstraction.touches(operator) {
            list.push(operator as u32)?;
        }
    }
    Ok(list)
}

/// Appends the transitions of an operator, each with the abstract state that it enters as its key. On failure the
/// content is not specified.
fn append_transitions<A: Abstraction>(
    abstraction: &A,
    operator: usize,
    class: u32,
    entries: &mut Vec<Keyed<Transition>>,
) -> Result<(), AllocError>
    ensures { OnOk result (AreAppended (A.abstraction abstraction.now) operator class
        (A.abstraction abstraction.now).size entries.old.items entries.new.items) }
{
    for state in 0..abstraction.size() {
        if let Some(target) = abstraction.transition(state, operator) {
            entries.push(Keyed {
                key: target as u32,
                item: Transition {
                    class,
                    source: state as u32,
                },
            })?;
        }
    }
    Ok(())
}

/// Returns the transitions of the operators that affect the abstraction, each with the abstract state that it enters as
/// its key.
pub(crate) fn entries_of<A: Abstraction>(
    alloc: Global,
    abstraction: &A,
    operators: &[u32],
) -> Result<Vec<Keyed<Transition>>, AllocError>
    requires operators { operators.now ≡ affecting (A.task abstraction.now) (A.abstraction abstraction.now) }
    requires few { length (A.task abstraction.now).operators < 2 ^ 32 }
    ensures { IfOk result (λ entries. AreEntries (A.abstraction abstraction.now)
        (single_classes (A.task abstraction.now) (A.abstraction abstraction.now)) entries.items) }
{
    let mut entries = Vec::new(alloc);
    for class in 0..operators.len() {
        let operator = operators[class] as usize;
        append_transitions(abstraction, operator, class as u32, &mut entries)?;
    }
    Ok(entries)
}
