//! What the change of one variable's value says of the abstract states that operators enter.

ghost use Rattle.std.specs.Prelude.{◌≡◌, ◌<◌};
ghost use Rattle.pdb_regression.specs.Changes as spec;
ghost use Rattle.pdb_regression.specs.Words as words;

use abstraction_groups::Change;

/// Returns the value that the variable must have after the change, if there is one.
pub(crate) fn value_asked(change: Change) -> Option<u32>
    ensures { result ≡ spec.asked change }
{
    match change {
        Change::Kept => None,
        Change::Required(value) => Some(value),
        Change::Moved { to, .. } | Change::Assigned(to) => Some(to),
    }
}

/// Returns the value that the variable must have after the change, and 0 if there is none.
pub(crate) fn value_wanted(change: Change) -> u32
    ensures { result ≡ words.want_at change }
{
    match change {
        Change::Kept => 0,
        Change::Required(value) => value,
        Change::Moved { to, .. } | Change::Assigned(to) => to,
    }
}

/// Returns `room - 1` if the variable must have some value after the change, otherwise 0.
pub(crate) fn mask_of(change: Change, room: u64) -> u64
    requires { 0 < room }
    ensures { result ≡ words.mask_at room change }
{
    match change {
        Change::Kept => 0,
        Change::Required(_) | Change::Moved { .. } | Change::Assigned(_) => room - 1,
    }
}

/// Returns the value that the effect sets, if there is one, otherwise 0.
pub(crate) fn value_put(change: Change) -> u32
    ensures { result ≡ spec.put_at change }
{
    match change {
        Change::Kept | Change::Required(_) => 0,
        Change::Moved { to, .. } | Change::Assigned(to) => to,
    }
}

/// Returns the value that the effect replaces, if the operator has a precondition on the variable, otherwise 0.
pub(crate) fn value_taken(change: Change) -> u32
    ensures { result ≡ spec.taken_at change }
{
    match change {
        Change::Moved { from, .. } => from,
        Change::Kept | Change::Required(_) | Change::Assigned(_) => 0,
    }
}
