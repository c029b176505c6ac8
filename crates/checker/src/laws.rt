//! Laws of verdicts.

ghost use Rattle.std.specs.Prelude.{◌≡◌, ℕ, List};
ghost use Rattle.checker.specs.Judgements.{verdict_text};
ghost use Rattle.checker.specs.Answers.{IsAnswer};
ghost use Rattle.checker.specs.declared.verdict.PlanningVerdict.{PlanningVerdict};

/// Proves that the texts of a domain, a problem and a certificate have at most one verdict, as it is printed.
pub fn one_answer()
    ensures { (domain problem cert : List ℕ) (v w : PlanningVerdict) → IsAnswer domain problem cert v → IsAnswer domain problem cert w →
        verdict_text v ≡ verdict_text w }
{}
