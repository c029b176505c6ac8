//! The change that an operator makes to the value of one variable.

ghost use Rattle.std.specs.Prelude.{◌≡◌};
ghost use Rattle.abstraction_groups.specs.Changes as spec;
ghost use Rattle.abstraction_groups.specs.Hashes as hashes;

use abstraction::Digit;

/// The values of one variable to which an operator applies, and the value that it sets.
#[derive(Clone, Copy)]
pub enum Change {
    /// The operator has neither a condition nor an effect on the variable.
    Kept,
    /// A prevail condition: the variable has this value before and after.
    Required(u32),
    /// A precondition and an effect.
    Moved {
        /// The value before.
        from: u32,
        /// The value after.
        to: u32,
    },
    /// An effect alone: the variable may have any value before.
    Assigned(u32),
}

/// The change that an operator makes to the value at one digit of an abstract state.
#[derive(Clone, Copy)]
pub struct DigitChange {
    /// The digit.
    pub digit: Digit,
    /// The change of its value.
    pub change: Change,
}

impl Change {
    /// Returns the change with a condition on the value, if there is none yet. It has no effect.
    pub(crate) fn with_condition(self, value: u32) -> Change
        ensures { result ≡ spec.with_condition self value }
    {
        match self {
            Change::Kept => Change::Required(value),
            Change::Required(_) | Change::Moved { .. } | Change::Assigned(_) => self,
        }
    }

    /// Returns the change with an effect on the value, if there is none yet.
    pub(crate) fn with_effect(self, value: u32) -> Change
        ensures { result ≡ spec.with_effect self value }
    {
        match self {
            Change::Kept => Change::Assigned(value),
            Change::Required(from) => Change::Moved { from, to: value },
            Change::Moved { .. } | Change::Assigned(_) => self,
        }
    }

    /// Returns the change of one of `range` values, written in one way.
    pub(crate) fn plain(self, range: usize) -> Change
        ensures { result ≡ spec.plain range self }
    {
        match self {
            _ if range == 1 => Change::Kept,
            Change::Moved { from, to } if from == to => Change::Required(from),
            _ => self,
        }
    }

    /// Returns whether the change turns some value into a different one, if it is plain.
    pub(crate) fn moves(self) -> bool
        ensures { result ≡ spec.moves_at self }
    {
        match self {
            Change::Kept | Change::Required(_) => false,
            Change::Moved { .. } | Change::Assigned(_) => true,
        }
    }

    /// Returns whether there is an effect alone, so that the variable may have any value before the change.
    pub fn sets_any_value(self) -> bool
        ensures { result ≡ spec.is_assigned self }
    {
        match self {
            Change::Assigned(_) => true,
            Change::Kept | Change::Required(_) | Change::Moved { .. } => false,
        }
    }

    /// Returns whether it is the same change.
    pub(crate) fn is_same(self, other: Change) -> bool
        ensures { result ≡ spec.same_at self other }
    {
        match (self, other) {
            (Change::Kept, Change::Kept) => true,
            (Change::Required(value), Change::Required(also)) => value == also,
            (
                Change::Moved { from, to },
                Change::Moved {
                    from: also_from,
                    to: also_to,
                },
            ) => from == also_from && to == also_to,
            (Change::Assigned(value), Change::Assigned(also)) => value == also,
            _ => false,
        }
    }

    /// Returns the number of values that the variable may have before, if it has `range` values.
    pub(crate) fn choices(self, range: usize) -> usize
        ensures { result ≡ spec.choices_at range self }
    {
        match self {
            Change::Kept | Change::Assigned(_) => range,
            Change::Required(_) | Change::Moved { .. } => 1,
        }
    }

    /// Returns the least value to which the change applies.
    pub(crate) fn least_before(self) -> u32
        ensures { result ≡ spec.least_before self }
    {
        match self {
            Change::Kept | Change::Assigned(_) => 0,
            Change::Required(value) => value,
            Change::Moved { from, .. } => from,
        }
    }

    /// Returns the value that the change makes of the least value to which it applies.
    pub(crate) fn least_after(self) -> u32
        ensures { result ≡ spec.least_after self }
    {
        match self {
            Change::Kept => 0,
            Change::Required(value) | Change::Assigned(value) => value,
            Change::Moved { to, .. } => to,
        }
    }

    /// Returns the value that the change makes of a value, or `None` if it does not apply to it.
    pub(crate) fn value_after(self, value: usize) -> Option<usize>
        ensures { result ≡ spec.value_after self value }
    {
        match self {
            Change::Kept => Some(value),
            Change::Required(required) if value == required as usize => Some(value),
            Change::Moved { from, to } if value == from as usize => Some(to as usize),
            Change::Assigned(to) => Some(to as usize),
            Change::Required(_) | Change::Moved { .. } => None,
        }
    }

    /// Returns a code of the change. Different changes of values below 2^20 have different codes.
    pub(crate) fn code(self) -> u64
        ensures { result ≡ hashes.code_of self }
    {
        match self {
            Change::Kept => 0,
            Change::Required(value) => 4 * u64::from(value) + 1,
            Change::Moved { from, to } => 4 * (1_048_576 * u64::from(from) + u64::from(to)) + 2,
            Change::Assigned(value) => 4 * u64::from(value) + 3,
        }
    }
}
