//! Laws of plan texts, for every text, and worked examples.

ghost use Rattle.std.specs.Prelude.{◌≡◌, ℕ, List, [], length, codes};
ghost use Rattle.optplan_plan_texts.specs.Plain.{plain};

/// Proves that no byte is moved.
pub fn same_length()
    ensures { (text : List ℕ) → length (plain text) ≡ length text }
{}

/// Proves worked examples: time stamps and durations.
pub fn worked_stamps()
    ensures plans { (plain (codes "0.0: (a)\n1.5 : (b c) [1.0]\n") ≡ codes "     (a)\n      (b c)      \n") ×
        (plain (codes "1: (a)\r\n") ≡ codes "   (a)\r\n") × (plain (codes "\t1\t:(a)\t[2]\t") ≡ codes "\t \t (a)\t   \t") }
    ensures ascending { (plain (codes "1: (a)\n1.0: (b)\n2: (c)") ≡ codes "   (a)\n1.0: (b)\n   (c)") ×
        (plain (codes "01.5: (a)\n1.50: (b)") ≡ codes "      (a)\n1.50: (b)") ×
        (plain (codes "01.5: (a)\n\n1.51: (b)") ≡ codes "      (a)\n\n      (b)") ×
        (plain (codes "2: (a)\n1: (b)\n1.5: (c)") ≡ codes "   (a)\n1: (b)\n     (c)") ×
        (plain (codes "99999999999999999999: (a)\n100000000000000000000: (b)") ≡ codes "                      (a)\n                       (b)") }
    ensures unchanged { (plain [] ≡ []) × (plain (codes "(a)\n(b c) ; 1: (d)\n") ≡ codes "(a)\n(b c) ; 1: (d)\n") ×
        (plain (codes "; 1: (a)\n") ≡ codes "; 1: (a)\n") × (plain (codes "1 (a)") ≡ codes "1 (a)") × (plain (codes "1.: (a)") ≡ codes "1.: (a)") ×
        (plain (codes ".5: (a)") ≡ codes ".5: (a)") × (plain (codes "1: a") ≡ codes "1: a") × (plain (codes "(a) [1.0]") ≡ codes "(a) [1.0]") }
    ensures durations { (plain (codes "1: (a) [1.0] (b)") ≡ codes "   (a) [1.0] (b)") × (plain (codes "1: (a) [1.]") ≡ codes "   (a) [1.]") ×
        (plain (codes "1: (a ; b) [1]") ≡ codes "   (a ; b) [1]") × (plain (codes "1: (a)[20]") ≡ codes "   (a)    ") }
{}

/// Proves worked examples: the line of a limit.
pub fn worked_limits()
    ensures plans { (plain (codes "limit 30\n(a)\n") ≡ codes "        \n(a)\n") × (plain (codes "limit  3 \r\n1: (a)") ≡ codes "         \r\n   (a)") ×
        (plain (codes "limit 3") ≡ codes "       ") }
    ensures unchanged { (plain (codes "(a)\nlimit 3\n") ≡ codes "(a)\nlimit 3\n") × (plain (codes "limit\n3\n") ≡ codes "limit\n3\n") ×
        (plain (codes "limit3\n") ≡ codes "limit3\n") × (plain (codes "limit 3 x\n") ≡ codes "limit 3 x\n") × (plain (codes "; limit 3\n") ≡ codes "; limit 3\n") ×
        (plain (codes " limit 3\n") ≡ codes " limit 3\n") × (plain (codes "limit 3.0\n") ≡ codes "limit 3.0\n") }
{}
