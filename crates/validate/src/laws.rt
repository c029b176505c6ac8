//! Laws of plans and verdicts, for every text and every plan; the text written for a plan is read as that plan.

ghost use Rattle.std.specs.Prelude.{◌≡◌, ◌≢◌, ◌<◌, ◌≤◌, ◌^◌, ◌⊎◌, ℕ, Bool, List, length};
ghost use Rattle.std.specs.List.{AllByRecursion};
ghost use Rattle.sexp.specs.Limits.{max_bytes};
ghost use Rattle.pddl_task.specs.Planning.{PlanningTask};
ghost use Rattle.validate.specs.Steps.{Step as Words};
ghost use Rattle.validate.specs.Written.{plan_text_of};
ghost use Rattle.validate.specs.PlanWords.{IsPlanStep};
ghost use Rattle.validate.specs.PlanTexts.{max_steps, SpellsPlan, IsPlanFault};
ghost use Rattle.validate.specs.Verdicts.{IsVerdict};
ghost use Rattle.validate.specs.declared.plan.PlanFault.{PlanFault};
ghost use Rattle.validate.specs.declared.plan.PlanFault.TheVariants.{OutOfMemory};
ghost use Rattle.validate.specs.declared.verdict.Verdict.{Verdict};

/// Proves that a text spells at most one plan.
pub fn one_plan()
    ensures { (bytes : List ℕ) (plan other : List Words) → SpellsPlan bytes plan → SpellsPlan bytes other → plan ≡ other }
{}

/// Proves that a text that spells a plan has no fault.
pub fn no_plan_fault()
    ensures { (bytes : List ℕ) (plan : List Words) (e : PlanFault) → SpellsPlan bytes plan → e ≢ OutOfMemory → IsPlanFault bytes e → ⊥ }
{}

/// Proves that a text spells a plan or has a fault.
pub fn plan_spelled_or_not()
    ensures { (bytes : List ℕ) →
        ((plan : List Words) × SpellsPlan bytes plan) ⊎ ((e : PlanFault) × (e ≢ OutOfMemory) × IsPlanFault bytes e) }
{}

/// Proves that a text has at most one fault.
pub fn one_plan_fault()
    ensures { (bytes : List ℕ) (e f : PlanFault) → e ≢ OutOfMemory → f ≢ OutOfMemory → IsPlanFault bytes e → IsPlanFault bytes f → e ≡ f }
{}

/// Proves that a plan has exactly one verdict.
pub fn one_verdict()
    ensures some { (task : PlanningTask) (steps : List Words) → (verdict : Verdict) × IsVerdict task steps verdict }
    ensures unique { (task : PlanningTask) (steps : List Words) (verdict other : Verdict) →
        IsVerdict task steps verdict → IsVerdict task steps other → verdict ≡ other }
{}

/// Proves that the text written for a plan spells that plan, if its names are plan words, it has at most `max_steps`
/// steps, the text is not longer than `max_bytes` and the cost fits 64 bits.
pub fn written_plan_is_read()
    ensures { (steps : List Words) (cost : ℕ) (unit : Bool) → AllByRecursion IsPlanStep steps → length steps ≤ max_steps → cost < 2 ^ 64 →
        length (plan_text_of steps cost unit) ≤ max_bytes → SpellsPlan (plan_text_of steps cost unit) steps }
{}

/// Proves that the names of a plan that a text spells are plan words.
pub fn read_words_are_plan_words()
    ensures { (bytes : List ℕ) (steps : List Words) → SpellsPlan bytes steps → AllByRecursion IsPlanStep steps }
{}

/// Proves that a plan that a text spells is also spelled by the text written for it, if that text is not longer than
/// `max_bytes` and the cost fits 64 bits.
pub fn read_plan_is_read_again()
    ensures { (bytes : List ℕ) (steps : List Words) (cost : ℕ) (unit : Bool) → SpellsPlan bytes steps → cost < 2 ^ 64 →
        length (plan_text_of steps cost unit) ≤ max_bytes → SpellsPlan (plan_text_of steps cost unit) steps }
{}
