//! The encoding of values in abstract states.

ghost use Rattle.std.specs.Prelude.{◌≡◌, ◌^◌, ◌<◌, ◌≤◌};
ghost use Rattle.abstraction.specs.Digits as spec;
ghost use Rattle.abstraction.specs.Digits.{IsDigitBelow};

/// The position of a variable's value in the number of an abstract state: the value is the number divided by the
/// weight, modulo the range.
#[derive(Clone, Copy)]
pub struct Digit {
    /// The product of the ranges of the variables before this one. It must be positive.
    pub weight: usize,
    /// The number of values of the variable. It must be positive.
    pub range: usize,
}

impl Digit {
    /// Returns the value of the variable in an abstract state.
    pub fn value(self, abstract_state: usize) -> usize
        requires { IsDigitBelow (2 ^ 24) self }
        ensures { result ≡ spec.value_of self abstract_state }
    {
        abstract_state / self.weight % self.range
    }

    /// Returns the abstract state in which the variable has another value, and all others are unchanged.
    pub(crate) fn with_value(self, abstract_state: usize, value: usize) -> usize
        requires digit { IsDigitBelow (2 ^ 24) self }
        requires state { abstract_state < 2 ^ 24 }
        requires value { value < self.range }
        ensures { result ≡ spec.with_value self abstract_state value }
    {
        abstract_state - self.value(abstract_state) * self.weight + value * self.weight
    }
}
