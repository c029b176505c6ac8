//! Laws of verdicts, for every four texts, and worked examples.

ghost use Rattle.std.specs.Prelude.{◌≡◌, ◌≢◌, ℕ, List, [], codes};
ghost use Rattle.checker_clauses.specs.declared.violation.Violation.TheVariants.{Successor};
ghost use Rattle.checker.specs.declared.verdict.PlanningViolation.TheVariants.{Task};
ghost use Rattle.pddl_worked.specs.Noop.{noop_domain, noop_problem};
ghost use Rattle.optplan_replies.specs.declared.status.Status.TheVariants as exit;
ghost use Rattle.validate.specs.declared.plan.PlanFault.TheVariants.{PlanShape};
ghost use Rattle.optplan_optimal.specs.declared.fault.OptimalityFault.{OptimalityFault};
ghost use Rattle.optplan_optimal.specs.declared.fault.OptimalityFault.TheVariants.{OutOfMemory, Plan};
ghost use Rattle.optplan_optimal.specs.declared.verdict.OptimalityVerdict.{OptimalityVerdict};
ghost use Rattle.optplan_optimal.specs.declared.verdict.OptimalityVerdict.TheVariants.{Optimal, Gap, CertificateRejected, Unsolvable, AtLeast, ClaimRejected};
ghost use Rattle.optplan_optimal.specs.Lines.{verdict_text};
ghost use Rattle.optplan_optimal.specs.Statuses.{verdict_status};
ghost use Rattle.optplan_optimal.specs.Plans.{ClaimsUnsolvable};
ghost use Rattle.optplan_optimal.specs.Answers.{SpellTaskAndValidPlan, SpellTaskAndInvalidPlan, IsAnswer, IsRefusal};

/// Proves that four texts have at most one verdict, as it is printed, and one exit status.
pub fn one_answer()
    ensures line { (domain problem plan cert : List ℕ) (v w : OptimalityVerdict) → IsAnswer domain problem plan cert v →
        IsAnswer domain problem plan cert w → verdict_text v ≡ verdict_text w }
    ensures status { (domain problem plan cert : List ℕ) (v w : OptimalityVerdict) → IsAnswer domain problem plan cert v →
        IsAnswer domain problem plan cert w → verdict_status v ≡ verdict_status w }
{}

/// Proves that four texts with a verdict have no fault.
pub fn answered_not_refused()
    ensures { (domain problem plan cert : List ℕ) (v : OptimalityVerdict) (e : OptimalityFault) → IsAnswer domain problem plan cert v →
        e ≢ OutOfMemory → IsRefusal domain problem plan cert e → ⊥ }
{}

/// Proves worked examples: the lines of verdicts, and their exit statuses.
pub fn worked_lines()
    ensures lines { (verdict_text (Optimal 7) ≡ codes "optimal 7") × (verdict_text (Gap 7 5) ≡ codes "valid 7, at least 5") ×
        (verdict_text (CertificateRejected 7 (Task (Successor 1 4))) ≡ codes "valid 7, rejected C8 state 1 op 4") ×
        (verdict_text Unsolvable ≡ codes "unsolvable") × (verdict_text (AtLeast 5) ≡ codes "at least 5") ×
        (verdict_text (ClaimRejected (Task (Successor 1 4))) ≡ codes "rejected C8 state 1 op 4") }
    ensures statuses { (verdict_status (Optimal 7) ≡ exit.Done) × (verdict_status (Gap 7 5) ≡ exit.Rejected) × (verdict_status Unsolvable ≡ exit.Unsolvable) ×
        (verdict_status (AtLeast 5) ≡ exit.Rejected) }
{}

/// Proves worked examples: which texts claim that there is no valid plan.
pub fn worked_claims()
    ensures claims { ClaimsUnsolvable (codes "unsolvable") × ClaimsUnsolvable (codes "unsolvable\n") }
    ensures others { (ClaimsUnsolvable (codes "Unsolvable") → ⊥) × (ClaimsUnsolvable (codes "unsolvable\n\n") → ⊥) × (ClaimsUnsolvable (codes "") → ⊥) }
{}

/// Proves worked examples, on the texts of `examples/noop`: its plan is valid at cost 5; the plan without steps leaves
/// the goal open; and a text with a word outside a list is refused for it, whatever the text of the certificate is.
pub fn worked_noop()
    ensures valid { SpellTaskAndValidPlan noop_domain noop_problem (codes "(NOOP ) ; only step") 5 }
    ensures not_valid { SpellTaskAndInvalidPlan noop_domain noop_problem [] (codes "goal open (p)") }
    ensures refused { (cert : List ℕ) → IsRefusal noop_domain noop_problem (codes "(noop) end") cert (Plan (PlanShape 7)) }
{}
