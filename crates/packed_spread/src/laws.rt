//! Worked examples.

ghost use Rattle.std.specs.Prelude.{◌≡◌, [], ◌∷◌, ◌%◌, Some, None};
ghost use Rattle.packed_spread.specs.Projections.{frequency, with_changes, next_variable, wanted, chosen_in, projected};
ghost use Rattle.packed_spread.specs.Spreads.{splitmix_words, firsts_of, hash, value_owner};

/// Proves worked examples: the first words of SplitMix64 from seed 1; the indices of the first words of variables with
/// 2, 3 and 1 values; hashes, by these words, of states with ranges 2 and 3 and of a state without variables; and
/// owners by the value of variable 0.
pub fn worked_examples()
    ensures words { splitmix_words 1 5 ≡
        0x910a2dec89025cc1 ∷ 0xbeeb8da1658eec67 ∷ 0xf893a2eefb32555e ∷ 0x71c18690ee42c90b ∷ 0x71bb54d8d101b5b9 ∷ [] }
    ensures firsts { firsts_of (2 ∷ 3 ∷ 1 ∷ []) ≡ 0 ∷ 2 ∷ 5 ∷ [] }
    ensures first { hash (splitmix_words 1 5) (firsts_of (2 ∷ 3 ∷ [])) (0 ∷ 0 ∷ []) ≡ 0x69998f027230099f }
    ensures last { hash (splitmix_words 1 5) (firsts_of (2 ∷ 3 ∷ [])) (1 ∷ 2 ∷ []) ≡ 0xcf50d979b48f59de }
    ensures none { hash [] (firsts_of []) [] ≡ 0 }
    ensures value { value_owner (7 ∷ 3 ∷ []) 4 ≡ 3 }
    ensures no_value { value_owner [] 4 ≡ 0 }
{}

/// Proves worked examples: the frequency of an operator with facts on variables of 3 and of 2 values; sums with a
/// number added to those of two variables; of variables that change 7, 4, 5, 4 and 1 times the first that changes least
/// often and has several values, the same with that one chosen, and none; the numbers of states that a projection has
/// to distinguish, of 24 and of 2^32, and the variables that are chosen for that; and words of three variables of which
/// the second is chosen.
pub fn worked_projections()
    ensures frequency { frequency (2 ∷ 3 ∷ []) (record { name = []; precondition = record { variable = 1; value = 2 } ∷ record { variable = 0; value = 0 } ∷ []; effect = []; cost = 1 }) ≡ 715827882 }
    ensures always { frequency [] (record { name = []; precondition = []; effect = []; cost = 1 }) ≡ 4294967296 }
    ensures changes { with_changes 9 (1 ∷ 2 ∷ 3 ∷ []) (record { variable = 2; value = 0 } ∷ record { variable = 0; value = 5 } ∷ []) ≡ 10 ∷ 2 ∷ 12 ∷ [] }
    ensures first { next_variable (2 ∷ 3 ∷ 2 ∷ 2 ∷ 1 ∷ []) (7 ∷ 4 ∷ 5 ∷ 4 ∷ 1 ∷ []) [] ≡ Some 1 }
    ensures second { next_variable (2 ∷ 3 ∷ 2 ∷ 2 ∷ 1 ∷ []) (7 ∷ 4 ∷ 5 ∷ 4 ∷ 1 ∷ []) (1 ∷ []) ≡ Some 3 }
    ensures none { next_variable (2 ∷ 1 ∷ []) (7 ∷ 1 ∷ []) (0 ∷ []) ≡ None }
    ensures small { wanted (2 ∷ 3 ∷ 2 ∷ 2 ∷ 1 ∷ []) ≡ 6 }
    ensures large { wanted (65536 ∷ 65536 ∷ []) ≡ 1048576 }
    ensures quarter { chosen_in 20 (2 ∷ 3 ∷ 2 ∷ 2 ∷ 1 ∷ []) (7 ∷ 4 ∷ 5 ∷ 4 ∷ 1 ∷ []) ≡ 1 ∷ 3 ∷ [] }
    ensures enough { chosen_in 20 (1024 ∷ 1024 ∷ 4 ∷ []) (3 ∷ 2 ∷ 4 ∷ []) ≡ 1 ∷ 0 ∷ [] }
    ensures words { projected (2 ∷ 3 ∷ 1 ∷ []) (1 ∷ []) (11 ∷ 12 ∷ 13 ∷ 14 ∷ 15 ∷ 16 ∷ []) ≡ 0 ∷ 0 ∷ 13 ∷ 14 ∷ 15 ∷ 0 ∷ [] }
{}
