//! The states that owners have expanded.

ghost use Rattle.std.specs.Prelude.{◌≡◌, ◌≤◌, ◌++◌, length, All, IfOk, OnOk};
ghost use Rattle.owner_theory.specs.Families.{expanded_of};
ghost use Rattle.owner.specs.Owned.{max_total};
ghost use Rattle.cert.specs.Expanded.{closed_in, listed, IsLong};

use owner::Owner;
use packed::StateForm;
use packed_spread::Spread;
use std::alloc::{AllocError, Global};

/// Expanded states with their costs.
#[derive(Drop)]
pub(crate) struct ExpandedStates {
    pub(crate) costs: Vec<u64>,
    /// The values of the states, concatenated.
    pub(crate) values: Vec<u32>,
}

impl ExpandedStates {
    /// Reserves memory for all states of an owner. A refusal is not an error, since fewer states may be expanded: the
    /// lists then grow as states are appended.
    fn reserve_owner<S: Spread + Drop, F: StateForm + Drop>(
        &mut self,
        owner: &Owner<'_, S, F>,
        width: usize,
    )
        ensures costs { self.new.costs.items ≡ self.old.costs.items }
        ensures values { self.new.values.items ≡ self.old.values.items }
    {
        let count = owner.len();
        let _ = self.costs.reserve(count);
        let _ = self.values.reserve(count.saturating_mul(width));
    }

    /// Appends the states that an owner has expanded at their present ranks; `state` is a buffer.
    fn push_owner<S: Spread + Drop, F: StateForm + Drop>(
        &mut self,
        owner: &Owner<'_, S, F>,
        state: &mut [u32],
    ) -> Result<(), AllocError>
        requires buffer { length state.old ≡ length owner.now.space.task.value_names }
        requires long { IsLong (length state.old) self.old }
        ensures states { OnOk result (listed (length state.old) self.new ≡ listed (length state.old) self.old ++ expanded_of owner.now.nodes) }
        ensures long { OnOk result (IsLong (length state.old) self.new) }
    {
        self.reserve_owner(owner, state.len());
        for index in 0..owner.len() {
            let entry = owner.entry(index);
            if entry.expanded {
                owner.copy_state(index, state);
                self.costs.push(entry.rank.cost)?;
                self.values.extend_from_slice(state)?;
            }
        }
        Ok(())
    }
}

/// Returns the states, of `width` values each, that these owners have expanded at their present ranks.
pub(crate) fn expanded_states<S: Spread + Drop, F: StateForm + Drop>(
    alloc: Global,
    width: usize,
    owners: &[Owner<'_, S, F>],
) -> Result<ExpandedStates, AllocError>
    requires { All (λ o. length o.space.task.value_names ≡ width) owners.now }
    ensures states { IfOk result (λ states. listed width states ≡ closed_in owners.now) }
    ensures long { IfOk result (IsLong width) }
    ensures cheap { OnOk result (All (λ o. All (λ n. n.cost ≤ max_total) o.nodes) owners.now) }
{
    let mut state = vec![in alloc; 0u32; width]?;
    let mut states = ExpandedStates {
        costs: Vec::new(alloc),
        values: Vec::new(alloc),
    };
    for owner in owners {
        owner.recall();
        states.push_owner(owner, &mut state)?;
    }
    Ok(states)
}
