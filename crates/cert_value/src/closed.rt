//! The closed list of a certificate.

ghost use Rattle.std.specs.Prelude.{◌≡◌, ◌<◌, ◌==◌, ◌++◌, [], ◌∷◌, length, slice_get, option_map, nat_eq, false, Some, All, IsSomeAnd, IfOk, OnOk, OnErr};
ghost use Rattle.std.specs.Cmp.Lexicographic.{pointwise};
ghost use Rattle.std.specs.List.{AllByRecursion};
ghost use Rattle.std.specs.Option.{option_map_or};

use crate::numbers::Numbers;
use std::alloc::{AllocError, Global};
use std::marker::Model;

/// States with the costs at which they were reached, all with the same number of values. A state takes 8 bytes and 2
/// for each value, or 4 if a value of the list is 2^16 or more. In contracts its value is a list of entries.
#[derive(Drop)]
pub struct ClosedList {
    alloc: Global,
    costs: Vec<u64>,
    /// The number of values of a state. It is not specified while the list is empty.
    width: usize,
    values: Numbers,
}

impl Model for ClosedList {
    ghost use Rattle.std.specs.Prelude.{◌*◌, ◌≡◌, List, length};
    ghost use Rattle.cert_value.specs.Certificates.{Entry};
    ghost use Rattle.cert_value.specs.Kept.{entries};

    ghost Value = { List Entry };

    ghost view = { λ c. entries c.width c.costs.items c.values };

    ghost invariant = { λ c. length c.values ≡ length c.costs.items * c.width };
}

impl ClosedList {
    ghost use Rattle.cert_value.specs.Certificates.{width_of};

    /// Returns an empty list.
    pub fn new(alloc: Global) -> ClosedList
        ensures { result ≡ [] }
    {
        ClosedList {
            alloc,
            costs: Vec::new(alloc),
            width: 0,
            values: Numbers::new(alloc),
        }
    }

    /// Returns an empty list with memory for `count` states of `width` values each, all below 2^16.
    pub fn with_capacity(
        alloc: Global,
        count: usize,
        width: usize,
    ) -> Result<ClosedList, AllocError>
        ensures { IfOk result (λ closed. closed ≡ []) }
    {
        let costs = Vec::with_capacity(alloc, count)?;
        let values = Numbers::with_capacity(alloc, count.saturating_mul(width))?;
        Ok(ClosedList {
            alloc,
            costs,
            width: 0,
            values,
        })
    }

    /// Returns the number of states.
    pub fn len(&self) -> usize
        ensures { result ≡ length self.now }
    {
        self.costs.len()
    }

    /// Returns whether the list is empty.
    pub fn is_empty(&self) -> bool
        ensures { result ≡ (length self.now == 0) }
    {
        self.costs.is_empty()
    }

    /// Returns the number of values of each state, or `None` if the list is empty.
    pub fn width(&self) -> Option<usize>
        ensures { result ≡ width_of self.now }
    {
        if self.costs.is_empty() {
            None
        } else {
            Some(self.width)
        }
    }

    /// Returns the cost of the state at `index`.
    pub fn cost(&self, index: usize) -> u64
        requires { index < length self.now }
        ensures { option_map (λ e. e.cost) (slice_get self.now index) ≡ Some result }
    {
        self.costs[index]
    }

    /// Returns a buffer for the values of one state, filled with 0.
    pub fn buffer(&self, alloc: Global) -> Result<Vec<u32>, AllocError>
        ensures { IfOk result (λ b. All (λ e. length e.state ≡ length b.items) self.now) }
    {
        let buffer = vec![in alloc; 0; self.width]?;
        Ok(buffer)
    }

    /// Copies the values of the state at `index` into a buffer of the same length.
    pub fn copy_state(&self, index: usize, into: &mut [u32])
        requires { IsSomeAnd (slice_get self.now index) (λ e. length e.state ≡ length into.old) }
        ensures state { option_map (λ e. e.state) (slice_get self.now index) ≡ Some into.new }
        ensures len { length into.new ≡ length into.old }
    {
        self.values.copy(index, into);
    }

    /// Returns whether the state at `index` has these values.
    pub fn has_state(&self, index: usize, state: &[u32]) -> bool
        requires { index < length self.now }
        ensures { result ≡ option_map_or (λ e. pointwise nat_eq e.state state.now) (slice_get self.now index) false }
    {
        self.width == state.len() && self.values.is_at(index, state)
    }

    /// Appends a state, which must have as many values as those before it. On failure the list is unchanged.
    pub fn push(&mut self, cost: u64, state: &[u32]) -> Result<(), AllocError>
        requires { AllByRecursion (λ e. length e.state ≡ length state.now) self.old }
        ensures ok { OnOk result (self.new ≡ self.old ++ record { cost = cost; state = state.now } ∷ []) }
        ensures err { OnErr result (self.new ≡ self.old) }
    {
        let before = self.values.len();
        self.values.extend(self.alloc, state)?;
        match self.costs.push(cost) {
            Ok(()) => {
                self.width = state.len();
                Ok(())
            }
            Err(_) => {
                self.values.truncate(before);
                Err(AllocError)
            }
        }
    }
}
