//! Laws of the texts of planning tasks, for any two texts.

ghost use Rattle.std.specs.Prelude.{◌≡◌, ◌≢◌, ◌⊎◌, ℕ, List};
ghost use Rattle.pddl_task.specs.Planning.{PlanningTask};
ghost use Rattle.pddl.specs.Texts.{SpellTask, IsTaskRefusal};
ghost use Rattle.pddl.specs.declared.fault.PddlFault.{PddlFault};

/// Proves that two texts spell at most one task.
pub fn one_task()
    ensures { (domain problem : List ℕ) (t u : PlanningTask) → SpellTask domain problem t → SpellTask domain problem u → t ≡ u }
{}

/// Proves that texts that spell a task are not refused, unless allocation fails.
pub fn spelled_not_refused()
    ensures { (domain problem : List ℕ) (t : PlanningTask) (e : PddlFault) → SpellTask domain problem t →
        IsTaskRefusal domain problem e → e ≡ PddlFault.OutOfMemory }
{}

/// Proves that two texts spell a task or have a first fault.
pub fn spelled_or_refused()
    ensures { (domain problem : List ℕ) →
        ((t : PlanningTask) × SpellTask domain problem t) ⊎ ((e : PddlFault) × (e ≢ PddlFault.OutOfMemory) × IsTaskRefusal domain problem e) }
{}

/// Proves that two texts have at most one first fault.
pub fn one_refusal()
    ensures { (domain problem : List ℕ) (e f : PddlFault) → e ≢ PddlFault.OutOfMemory → f ≢ PddlFault.OutOfMemory
        → IsTaskRefusal domain problem e → IsTaskRefusal domain problem f → e ≡ f }
{}
