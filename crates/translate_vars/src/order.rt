//! The test whether one variable is fit, after the earlier ones.

ghost use Rattle.std.specs.Prelude.{◌≡◌, nat_le, length, count_by, not};
ghost use Rattle.std.specs.List.{list_any};
ghost use Rattle.translate_theory.specs.Variables.{IsPlaced};
ghost use Rattle.translate_vars.specs.Flags.{flag_at, is_misplaced_at, fault_at};

use crate::fault::TranslateFault;
use crate::flags::{AtomFlags, flag};
use mutex::ActionIndex;
use translate_theory::ListedVariable;

/// Returns whether the flag is set at one of the indices `places`.
fn has_flag(flags: &[bool], places: &[usize]) -> bool
    ensures { result ≡ list_any (flag_at flags.now) places.now }
{
    places.iter().any(|place| flag(flags, *place))
}

/// Returns whether the flag is set at two or more of the indices `places`.
fn has_two_flags(flags: &[bool], places: &[usize]) -> bool
    ensures { result ≡ not (nat_le (count_by (flag_at flags.now) places.now) 1) }
{
    1 < places.iter().filter(|place| flag(flags, **place)).count()
}

/// Returns whether the flags show that the variable has an atom that it must not have, or a single atom and no none
/// value.
fn is_misplaced(flags: &AtomFlags, taken: &[bool], variable: &ListedVariable) -> bool
    ensures { result ≡ is_misplaced_at flags.now taken.now variable.now }
{
    if has_flag(&flags.constant, &variable.places) || has_flag(taken, &variable.places) {
        return true;
    }
    if variable.places.len() < 2 {
        return !variable.has_none;
    }
    has_flag(&flags.excluded, &variable.places) || has_two_flags(&flags.goal, &variable.places)
}

/// Returns the fault of the variable with this number, given which atoms earlier variables have taken.
pub(crate) fn fault_at(
    index: &ActionIndex,
    flags: &AtomFlags,
    taken: &[bool],
    number: usize,
    variable: &ListedVariable,
) -> Option<TranslateFault>
    requires { IsPlaced (length index.now.atoms) variable.now }
    ensures { result ≡ fault_at index.now flags.now taken.now number variable.now }
{
    if is_misplaced(flags, taken, variable) {
        return Some(TranslateFault::Misplaced(number));
    }
    if variable.places.len() < 2 {
        return None;
    }
    if !index.is_usable(&variable.places) {
        return Some(TranslateFault::NotGroup(number));
    }
    if !variable.has_none && !index.is_full(&variable.places) {
        return Some(TranslateFault::NotFull(number));
    }
    None
}
