//! Laws of the texts of a task's plans.

ghost use Rattle.std.specs.Prelude.{◌<◌, ◌≤◌, ◌^◌, ℕ, List, All, length, map};
ghost use Rattle.sexp.specs.Limits.{max_bytes};
ghost use Rattle.pddl_task.specs.Planning.{PlanningTask, Action, IsActionOf};
ghost use Rattle.pddl_task.specs.Plans.{IsValidPlan, total_cost};
ghost use Rattle.pddl.specs.Texts.{SpellTask};
ghost use Rattle.validate.specs.Steps.{Step};
ghost use Rattle.validate.specs.PlanTexts.{max_steps, SpellsPlan};
ghost use Rattle.validate.specs.Verdicts.{IsVerdict};
ghost use Rattle.validate.specs.declared.verdict.Verdict.TheVariants.{Valid};
ghost use Rattle.optplan_pddl.specs.Plans.{step_of, text_of_plan};
ghost use Rattle.validate.specs.PlanWords.{IsPlanWord};
ghost use Rattle.optplan_pddl.specs.PlanNames.{NamesAre};

/// Proves that the names of the objects, predicates and schemas of a spelled task are plan words: a plan's text has
/// them unchanged.
pub fn spelled_names_are_plan_words()
    ensures { (domain problem : List ℕ) (t : PlanningTask) → SpellTask domain problem t → NamesAre IsPlanWord t.vocabulary }
{}

/// Proves that the text of a plan of a spelled task's actions spells the steps that name these actions, if there are at
/// most 1,048,576 of them, the text is at most 16,777,216 bytes long and the cost fits 64 bits.
pub fn task_plan_is_read()
    ensures { (domain problem : List ℕ) (task : PlanningTask) (actions : List Action) (cost : ℕ) → SpellTask domain problem task →
        All (IsActionOf task) actions → length actions ≤ max_steps → cost < 2 ^ 64 → length (text_of_plan task actions cost) ≤ max_bytes →
        SpellsPlan (text_of_plan task actions cost) (map (step_of task.vocabulary) actions) }
{}

/// Proves that the text of a valid plan of a spelled task spells a plan with the verdict `Valid`, at the same cost,
/// within the same limits.
pub fn valid_plan_is_found_valid()
    ensures { (domain problem : List ℕ) (task : PlanningTask) (actions : List Action) → SpellTask domain problem task →
        IsValidPlan task actions → length actions ≤ max_steps → total_cost actions < 2 ^ 64 →
        length (text_of_plan task actions (total_cost actions)) ≤ max_bytes →
        (steps : List Step) × SpellsPlan (text_of_plan task actions (total_cost actions)) steps × IsVerdict task steps (Valid (total_cost actions)) }
{}
