//! Facts: values of variables.

ghost use Rattle.std.specs.Prelude.{◌≡◌, ◌<◌, All, length};
ghost use Rattle.std.specs.List.{list_all};
ghost use Rattle.fdr.specs.Tasks as spec;

/// A fact: a variable and one of its values, as conditions and effects name them.
#[derive(Clone, Copy, Debug, PartialEq, Eq, Hash)]
pub struct Fact {
    /// The number of the variable.
    pub variable: usize,
    /// The number of its value.
    pub value: u32,
}

/// Returns whether every fact holds in the state.
pub(crate) fn all_hold(facts: &[Fact], state: &[u32]) -> bool
    requires { All (λ f. f.variable < length state.now) facts.now }
    ensures { result ≡ list_all (spec.holds state.now) facts.now }
{
    for fact in facts {
        if state[fact.variable] != fact.value {
            return false;
        }
    }
    true
}

/// Sets the variables of the facts to the facts' values, in their order. The other variables keep their values.
pub(crate) fn set_values(facts: &[Fact], state: &mut [u32])
    requires { All (λ f. f.variable < length state.old) facts.now }
    ensures value { state.new ≡ spec.with_values facts.now state.old }
    ensures len { length state.new ≡ length state.old }
{
    for fact in facts {
        state[fact.variable] = fact.value;
    }
}
