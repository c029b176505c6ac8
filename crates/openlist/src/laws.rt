//! Laws of the order of entries, for all entries.

ghost use Rattle.std.specs.Prelude.{◌≡◌, ◌≤◌, ◌⊎◌, ℕ, List, [], ◌∷◌, true, false, Contains, IsPermutation};
ghost use Rattle.openlist.specs.declared.entry.OpenEntry.{OpenEntry};
ghost use Rattle.openlist.specs.OpenLists.{comes_first, IsFirst, entry_of};
ghost use Rattle.openlist.specs.BucketLists.{bucket_entry_of, count_of, far_count, row_entries};

/// Proves that the order of entries is total, and that f never decreases along it. The first entry of a list does not
/// depend on how the list is arranged, and there is at most one.
pub fn entries_are_ordered()
    ensures reflexive { (x : OpenEntry) → comes_first x x ≡ true }
    ensures total { (x y : OpenEntry) → (comes_first x y ≡ true) ⊎ (comes_first y x ≡ true) }
    ensures transitive { (x y z : OpenEntry) →
        comes_first x y ≡ true → comes_first y z ≡ true → comes_first x z ≡ true }
    ensures antisymmetric { (x y : OpenEntry) → comes_first x y ≡ true → comes_first y x ≡ true → x ≡ y }
    ensures rises { (x y : OpenEntry) → comes_first x y ≡ true → x.f ≤ y.f }
    ensures arranged { (x : OpenEntry) (xs ys : List OpenEntry) → IsPermutation xs ys → IsFirst x xs → IsFirst x ys }
    ensures unique { (x y : OpenEntry) (xs : List OpenEntry) →
        Contains xs x → IsFirst x xs → Contains xs y → IsFirst y xs → x ≡ y }
{}

/// Proves worked examples of the order: a lower f comes first whatever the rank, then a lower cost, then fewer
/// operators, then a lower index.
pub fn worked_examples()
    ensures f { comes_first (entry_of 65535 9 9 4) (entry_of 65536 0 0 3) ≡ true }
    ensures f_is_higher { comes_first (entry_of 65536 0 0 3) (entry_of 65535 9 9 4) ≡ false }
    ensures cost { comes_first (entry_of 3 1 9 8) (entry_of 3 2 0 0) ≡ true }
    ensures cost_is_higher { comes_first (entry_of 3 2 0 0) (entry_of 3 1 9 8) ≡ false }
    ensures steps { comes_first (entry_of 3 1 1 2) (entry_of 3 1 2 1) ≡ true }
    ensures steps_are_more { comes_first (entry_of 3 1 2 1) (entry_of 3 1 1 2) ≡ false }
    ensures place { comes_first (entry_of 3 1 1 2) (entry_of 3 1 1 7) ≡ true }
    ensures place_is_later { comes_first (entry_of 3 1 1 7) (entry_of 3 1 1 2) ≡ false }
{}

/// Proves worked examples of buckets: the entries of an array of buckets have their bucket's f-value; of some f-values,
/// those of one bucket and those without a bucket are counted.
pub fn worked_buckets()
    ensures entries { row_entries 3 ((bucket_entry_of 1 1 2 ∷ bucket_entry_of 1 2 1 ∷ []) ∷ [] ∷ (bucket_entry_of 5 1 0 ∷ []) ∷ [])
        ≡ entry_of 3 1 1 2 ∷ entry_of 3 1 2 1 ∷ entry_of 5 5 1 0 ∷ [] }
    ensures counted { count_of 3 (3 ∷ 5 ∷ 3 ∷ 65536 ∷ []) ≡ 2 }
    ensures other { count_of 4 (3 ∷ 5 ∷ 3 ∷ 65536 ∷ []) ≡ 0 }
    ensures far { far_count (65535 ∷ 65536 ∷ 65537 ∷ []) ≡ 2 }
{}
