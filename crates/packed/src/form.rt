//! The trait of forms of states.

use crate::layout::Layout;
use crate::masks::TaskMasks;
use std::alloc::{AllocError, Global};
use std::hash::Hash;

/// A form in which the states of a task are stored. The state can be read back from its form, and two forms are equal
/// exactly if their states are.
pub trait StateForm: Eq + Hash {
    ghost use Rattle.std.specs.Prelude.{◌≡◌, ◌↔◌, ◌<◌, ℕ, List, length, slice_index, IsTrue, IfOk};
    ghost use Rattle.fdr.specs.Tasks.{ranges, IsState, with_values, is_goal_state};
    ghost use Rattle.packed.specs.Masks.{effect_at};

    /// States over variables with these ranges have this form.
    ghost Fits: { List ℕ → Type 0 };

    /// The form is that of a state over variables with these ranges (numbers of values).
    ghost IsForm: { List ℕ → Self → Type 0 };

    /// The values of the state, one for each variable.
    ghost values: { List ℕ → Self → List ℕ };

    /// Returns whether states with the layout's ranges have this form.
    fn fits(layout: &Layout) -> bool
        ensures { IsTrue result ↔ Fits layout.now };

    /// Returns the form of a state.
    fn pack(alloc: Global, layout: &Layout, state: &[u32]) -> Result<Self, AllocError>
        requires fits { Fits layout.now }
        requires state { IsState layout.now state.now }
        ensures form { IfOk result (IsForm layout.now) }
        ensures values { IfOk result (λ f. values layout.now f ≡ state.now) };

    /// Returns whether this is the form of a state with the layout's ranges.
    fn is_form(&self, layout: &Layout) -> bool
        ensures { IsTrue result ↔ IsForm layout.now self.now };

    /// Returns whether the values are a state with the layout's ranges, in a form that such states have. It need not be
    /// equal to the form of that state: bits outside all values are ignored.
    fn holds_state(&self, layout: &Layout) -> bool
        requires { Fits layout.now }
        ensures { IsTrue result ↔ IsState layout.now (values layout.now self.now) };

    /// Replaces the form by that of another state.
    fn repack(&mut self, layout: &Layout, state: &[u32])
        requires form { IsForm layout.now self.old }
        requires state { IsState layout.now state.now }
        ensures form { IsForm layout.now self.new }
        ensures values { values layout.now self.new ≡ state.now };

    /// Writes the values of the state into `state`.
    fn unpack(&self, layout: &Layout, state: &mut [u32])
        requires fits { Fits layout.now }
        requires values { IsState layout.now (values layout.now self.now) }
        requires len { length state.old ≡ length layout.now }
        ensures { state.new ≡ values layout.now self.now };

    /// Returns the value of one variable of the state.
    fn value(&self, layout: &Layout, variable: usize) -> u32
        requires fits { Fits layout.now }
        requires values { IsState layout.now (values layout.now self.now) }
        requires variable { variable < length layout.now }
        ensures { result ≡ slice_index (values layout.now self.now) variable };

    /// Returns a copy of the form.
    fn copy(&self, alloc: Global) -> Result<Self, AllocError>
        ensures form { (ranges : List ℕ) → IsForm ranges self.now → IfOk result (IsForm ranges) }
        ensures values { (ranges : List ℕ) → IsForm ranges self.now →
            IfOk result (λ f. values ranges f ≡ values ranges self.now) };

    /// Returns the form of the state after the effect of an operator: its variables have the effect's values, and all
    /// others their value in this form's state.
    fn after(
        &self,
        alloc: Global,
        masks: &TaskMasks<'_>,
        operator: usize,
    ) -> Result<Self, AllocError>
        requires form { IsForm (ranges masks.now) self.now }
        requires operator { operator < length masks.now.operators }
        ensures form { IfOk result (IsForm (ranges masks.now)) }
        ensures values { IfOk result (λ f. values (ranges masks.now) f ≡ with_values (effect_at masks.now operator) (values (ranges masks.now) self.now)) };

    /// Returns whether the state is a goal state.
    fn is_goal(&self, masks: &TaskMasks<'_>) -> bool
        requires { IsForm (ranges masks.now) self.now }
        ensures { result ≡ is_goal_state masks.now (values (ranges masks.now) self.now) };

    /// The values of a form are a state.
    ghost state: { (ranges : List ℕ) (f : Self) → IsForm ranges f → IsState ranges (values ranges f) };

    /// Forms of equal states are equal.
    ghost equal: { (ranges : List ℕ) (f g : Self) → IsForm ranges f → IsForm ranges g → values ranges f ≡ values ranges g →
        IsTrue (Self.eq f g) };

    /// A value that equals the form of a state is itself one.
    ghost like: { (ranges : List ℕ) (f g : Self) → IsForm ranges g → IsTrue (Self.eq f g) → IsForm ranges f };

    /// Equal forms are forms of equal states.
    ghost same: { (ranges : List ℕ) (f g : Self) → IsForm ranges f → IsForm ranges g → IsTrue (Self.eq f g) →
        values ranges f ≡ values ranges g };
}
