//! Laws of fields, for all ranges.

ghost use Rattle.std.specs.Prelude.{◌≡◌, ◌*◌, ◌^◌, ◌<◌, ◌≤◌, ◌++◌, ℕ, List, [], ◌∷◌, replicate};
ghost use Rattle.packed.specs.Fields.{width_of, word_count, words_of, values_in};

/// Proves that a variable has as many bits as its greatest value has binary digits.
pub fn widths()
    ensures one_value { width_of 1 ≡ 0 }
    ensures enough { (range : ℕ) → range ≤ 2 ^ width_of range }
    ensures no_more { (range : ℕ) → 1 < range → 2 ^ width_of range < 2 * range }
{}

/// Proves worked examples: the words of states.
pub fn worked_examples()
    ensures four { words_of 1 (2 ∷ 3 ∷ 3 ∷ 2 ∷ []) (1 ∷ 2 ∷ 0 ∷ 1 ∷ []) ≡ 37 ∷ [] }
    ensures four_back { values_in (37 ∷ []) (2 ∷ 3 ∷ 3 ∷ 2 ∷ []) ≡ 1 ∷ 2 ∷ 0 ∷ 1 ∷ [] }
    ensures last_is_set { words_of 1 (2 ∷ 2 ∷ []) (0 ∷ 1 ∷ []) ≡ 2 ∷ [] }
    ensures first_is_set { words_of 1 (2 ∷ 2 ∷ []) (1 ∷ 0 ∷ []) ≡ 1 ∷ [] }
    ensures no_bits { words_of 1 (2 ∷ 1 ∷ 2 ∷ []) (1 ∷ 0 ∷ 1 ∷ []) ≡ 3 ∷ [] }
    ensures whole_word { word_count (replicate 64 2) ≡ 1 }
    ensures second_word { word_count (replicate 63 2 ++ 3 ∷ []) ≡ 2 }
    ensures second_words { words_of 2 (replicate 63 2 ++ 3 ∷ []) (replicate 63 0 ++ 2 ∷ []) ≡ 0 ∷ 2 ∷ [] }
{}
