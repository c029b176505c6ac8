//! The position of an atom among variables and values.

ghost use Rattle.std.specs.Prelude.{◌≡◌};
ghost use Rattle.translate_assembly.specs.Operators.{own_fact, none_fact};

use fdr::Fact;

/// The variable that an atom is in, and its value there.
#[derive(Clone, Copy, Debug)]
pub(crate) struct Slot {
    pub(crate) variable: usize,
    pub(crate) value: u32,
    /// The number of atoms of the variable. It is also the none value, at which none of them is true.
    pub(crate) count: u32,
}

impl Slot {
    /// Returns the fact that the atom is true.
    pub(crate) fn own_fact(self) -> Fact
        ensures { result ≡ own_fact self }
    {
        Fact {
            variable: self.variable,
            value: self.value,
        }
    }

    /// Returns the fact that none of the variable's atoms is true.
    pub(crate) fn none_fact(self) -> Fact
        ensures { result ≡ none_fact self }
    {
        Fact {
            variable: self.variable,
            value: self.count,
        }
    }
}
