//! Laws of keyed entries, for all entries.

ghost use Rattle.std.specs.Prelude.{◌≡◌, Bool};
ghost use Rattle.openlist.specs.declared.entry.OpenEntry.{OpenEntry};
ghost use Rattle.owner_space.specs.declared.ties.Ties.{Ties};
ghost use Rattle.owner_space.specs.Keyed.{IsSmall, keyed, denoted};

/// Proves that a stored entry denotes the one that was keyed, whether or not its state was ever expanded.
pub fn keyed_entries_denote()
    ensures { (ties : Ties) (ever : Bool) (e : OpenEntry) → IsSmall e → denoted ties (keyed ties ever e) ≡ e }
{}
