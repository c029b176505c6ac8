//! States as lists of values.

ghost use Rattle.std.specs.Prelude.{◌≡◌, ◌↔◌, ◌<◌, ℕ, List, length, All, IsTrue, IfOk};
ghost use Rattle.fdr.specs.Tasks.{with_values};

use crate::form::StateForm;
use crate::layout::Layout;
use crate::masks::TaskMasks;
use fdr::Fact;
use smallvec::SmallVec;
use std::alloc::{AllocError, Global};

/// The number of values that are stored in the form itself. A form then takes 64 bytes, one cache line of most
/// processors.
const INLINE_VALUES: usize = 12;

/// A state as the list of its values, 4 bytes each. Up to 12 values are stored in the form itself, more of them in an
/// allocation of their own.
#[derive(Drop, Debug, PartialEq, Eq, Hash)]
pub struct Plain {
    values: SmallVec<u32, INLINE_VALUES>,
}

/// Sets the variables of the facts to the facts' values, in their order. The other variables are unchanged.
fn set_values(facts: &[Fact], state: &mut [u32])
    requires { All (λ f. f.variable < length state.old) facts.now }
    ensures { state.new ≡ with_values facts.now state.old }
{
    for fact in facts {
        state[fact.variable] = fact.value;
    }
}

impl StateForm for Plain {
    ghost use Rattle.std.specs.Cmp.Lexicographic.{bytes_decides};
    ghost use Rattle.fdr.specs.Tasks.{IsState};
    ghost use Rattle.packed.specs.Fields.{state_alike};

    ghost Fits = { λ _. Unit {0} };

    ghost IsForm = { λ ranges f. IsState ranges f.values.items };

    ghost values = { λ ranges f. f.values.items };

    ghost state = { λ ranges f form. form };

    ghost equal = { λ ranges f g _ _ same. (bytes_decides f.values.items g.values.items).1 same };

    ghost like = { λ ranges f g form same. state_alike ranges f.values.items g.values.items ((bytes_decides f.values.items g.values.items).0 same) form };

    ghost same = { λ ranges f g _ _ same. (bytes_decides f.values.items g.values.items).0 same };

    fn fits(layout: &Layout) -> bool {
        let _ = layout;
        true
    }

    fn pack(alloc: Global, layout: &Layout, state: &[u32]) -> Result<Plain, AllocError> {
        let _ = layout;
        Ok(Plain {
            values: SmallVec::from_slice(alloc, state)?,
        })
    }

    fn is_form(&self, layout: &Layout) -> bool {
        layout.is_state(self.values.as_slice())
    }

    fn holds_state(&self, layout: &Layout) -> bool {
        layout.is_state(self.values.as_slice())
    }

    fn repack(&mut self, layout: &Layout, state: &[u32]) {
        let _ = layout;
        self.values.as_mut_slice().copy_from_slice(state);
    }

    fn unpack(&self, layout: &Layout, state: &mut [u32]) {
        let _ = layout;
        state.copy_from_slice(self.values.as_slice());
    }

    fn value(&self, layout: &Layout, variable: usize) -> u32 {
        let _ = layout;
        self.values.as_slice()[variable]
    }

    fn copy(&self, alloc: Global) -> Result<Plain, AllocError> {
        Ok(Plain {
            values: SmallVec::from_slice(alloc, self.values.as_slice())?,
        })
    }

    fn after(
        &self,
        alloc: Global,
        masks: &TaskMasks<'_>,
        operator: usize,
    ) -> Result<Plain, AllocError> {
        let operator = &masks.task().operators()[operator];
        let facts: &[Fact] = &operator.effect;
        let mut changed = self.copy(alloc)?;
        set_values(facts, changed.values.as_mut_slice());
        Ok(changed)
    }

    fn is_goal(&self, masks: &TaskMasks<'_>) -> bool {
        masks.task().is_goal(self.values.as_slice())
    }
}
