//! The trait of open lists.

use crate::entry::OpenEntry;
use std::alloc::AllocError;

/// A multiset of entries from which the first, in the order of entries, is taken.
pub trait OpenList: Drop {
    ghost use Rattle.std.specs.Prelude.{◌≡◌, ℕ, List, [], ◌∷◌, Contains, IsOk, IfSome, IfNone, OnOk, OnErr};
    ghost use Rattle.std.specs.List.Sorted.{IsPermutation};
    ghost use Rattle.openlist.specs.declared.entry.OpenEntry.{OpenEntry};
    ghost use Rattle.openlist.specs.OpenLists.{IsFirst};

    /// The entries, in no particular order.
    ghost entries: { Self → List OpenEntry };

    /// Entries of these f-values, in this order and with any left out, can be pushed without an allocation.
    ghost HasRoom: { Self → List ℕ → Type 0 };

    /// Makes room to push entries of these f-values in this order, with any left out. The entries are unchanged, also
    /// on failure.
    fn reserve(&mut self, fs: &[u64]) -> Result<(), AllocError>
        ensures entries { IsPermutation (entries self.old) (entries self.new) }
        ensures room { OnOk result (HasRoom self.new fs.now) };

    /// Adds an entry. On failure the entries are unchanged. It cannot fail if `HasRoom` holds for f-values the first of
    /// which is the entry's.
    fn push(&mut self, entry: OpenEntry) -> Result<(), AllocError>
        ensures pushed { OnOk result (IsPermutation (entry ∷ entries self.old) (entries self.new)) }
        ensures unchanged { OnErr result (IsPermutation (entries self.old) (entries self.new)) }
        ensures succeeds { (fs : List ℕ) → HasRoom self.old (entry.f ∷ fs) → IsOk result }
        ensures room { (fs : List ℕ) → HasRoom self.old (entry.f ∷ fs) → HasRoom self.new fs };

    /// Removes and returns the first entry, or returns `None` if the list is empty.
    fn pop(&mut self) -> Option<OpenEntry>
        ensures first { IfSome result (λ e. IsFirst e (entries self.old)) }
        ensures rest { IfSome result (λ e. IsPermutation (entries self.old) (e ∷ entries self.new)) }
        ensures none { IfNone result (entries self.old ≡ []) }
        ensures empty { IfNone result (entries self.new ≡ []) }
        ensures room { (fs : List ℕ) → HasRoom self.old fs → HasRoom self.new fs };

    /// Returns the first entry, or `None` if the list is empty.
    fn least(&self) -> Option<OpenEntry>
        ensures member { IfSome result (λ e. Contains (entries self.now) e) }
        ensures first { IfSome result (λ e. IsFirst e (entries self.now)) }
        ensures none { IfNone result (entries self.now ≡ []) };

    /// Room for a list of f-values is room for its tail.
    ghost fewer: { (s : Self) (f : ℕ) (fs : List ℕ) → HasRoom s (f ∷ fs) → HasRoom s fs };
}
