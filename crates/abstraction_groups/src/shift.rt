//! By how much an operator changes the number of an abstract state.

ghost use Rattle.std.specs.Prelude.{◌≡◌, ℕ, ◌+◌, ◌<◌, ◌≤◌, ◌^◌, true, length, IfSome, IfNone};
ghost use Rattle.std.specs.List.{list_any};
ghost use Rattle.abstraction_groups.specs.Changes.{is_assigned};
ghost use Rattle.abstraction_groups.specs.Collected.{changes_by_number};
ghost use Rattle.abstraction_groups.specs.Entrances.{LeadsTo};

use crate::change::Change;
use crate::factored::FactoredAbstraction;
use crate::pairs::first_entry;
use crate::read::read_changes;

/// By how much an operator changes the number of an abstract state, wherever it applies.
#[derive(Clone, Copy, Debug, PartialEq, Eq)]
pub struct Shift {
    /// What is subtracted.
    pub less: u32,
    /// What is added.
    pub more: u32,
}

impl Shift {
    /// Returns the abstract state that an operator with this shift reaches from one in which it applies.
    pub fn after(self, abstract_state: usize) -> usize
        requires small { abstract_state ≤ 2 ^ 32 }
        requires applies { self.less ≤ abstract_state + self.more }
        ensures { result + self.less ≡ abstract_state + self.more }
    {
        abstract_state + self.more as usize - self.less as usize
    }
}

/// Returns whether one of the changes is an effect alone.
fn has_assigned(changes: &[Change]) -> bool
    ensures { result ≡ list_any is_assigned changes.now }
{
    changes.iter().any(|change| change.sets_any_value())
}

/// Returns by how much an operator changes the number of an abstract state, or `None` if that depends on the state: if
/// it has an effect on a variable of the abstraction without a precondition on it. `changes` is a buffer with an
/// element for each variable of the abstraction.
pub fn shift_of<A: FactoredAbstraction>(
    abstraction: &A,
    operator: usize,
    changes: &mut [Change],
) -> Option<Shift>
    requires operator { operator < length (A.task abstraction.now).operators }
    requires room { length changes.old ≡ length (A.factors abstraction.now).variables }
    ensures shift { IfSome result (λ s. (i j : ℕ) → j < (A.abstraction abstraction.now).size →
        LeadsTo (A.abstraction abstraction.now) operator i j → j + s.less ≡ i + s.more) }
    ensures none { IfNone result
        (list_any is_assigned (changes_by_number (A.task abstraction.now) (A.factors abstraction.now) operator) ≡ true) }
    ensures room { length changes.new ≡ length changes.old }
{
    let task = abstraction.task();
    read_changes(abstraction, &task.operators()[operator], changes);
    if has_assigned(changes) {
        return None;
    }
    let first = first_entry(abstraction.digits(), changes, 0);
    Some(Shift {
        less: first.item.source,
        more: first.key,
    })
}
