//! Laws of plans and translations.

ghost use Rattle.std.specs.Prelude.{◌≡◌, ◌<◌, ◌≤◌, ◌^◌, ℕ, List, All, length, map};
ghost use Rattle.fdr.specs.Tasks.{FiniteDomainTask, IsTask, IsWithinLimits, IsPlan, plan_cost};
ghost use Rattle.pddl_task.specs.Planning.{PlanningTask, Action, IsActionOf};
ghost use Rattle.pddl_task.specs.Plans.{IsValidPlan, total_cost};
ghost use Rattle.pddl.specs.Texts.{SpellTask};
ghost use Rattle.sasfile_writer.specs.Plans.{sas_plan_text};
ghost use Rattle.sasfile_reader.specs.SasTexts.{SpellsTask};
ghost use Rattle.sasfile_writer.specs.Written.{written};
ghost use Rattle.sasfile_writer.specs.TextOrder.{CanBeWritten, in_text_order};
ghost use Rattle.translate.specs.Translated.{TranslatedTask, IsTranslation, HasSamePlans, AreOperatorsOf};
ghost use Rattle.validate.specs.PlanTexts.{max_steps, SpellsPlan};
ghost use Rattle.validate.specs.Verdicts.{IsVerdict};
ghost use Rattle.validate.specs.declared.verdict.Verdict.TheVariants.{Valid};
ghost use Rattle.optplan_pddl.specs.Plans.{step_of, text_of_plan};
ghost use Rattle.optplan_pddl.specs.Steps.{HasStepNames, operator_step};
ghost use Rattle.pddl_task.specs.Limits.{max_cost};

/// Proves that the text of a plan of the translation is the text of the plan of its ground actions.
pub fn translated_plan_has_same_text()
    ensures { (task : PlanningTask) (t : TranslatedTask) (actions : List Action) (plan : List ℕ) (cost : ℕ) → IsTranslation task t →
        AreOperatorsOf task t actions plan → sas_plan_text t.task plan cost ≡ text_of_plan task actions cost }
{}

/// Proves that each plan of the translation corresponds to a valid plan of the task, of the same cost.
pub fn translated_plan_is_valid()
    ensures { (task : PlanningTask) (t : TranslatedTask) (plan : List ℕ) → IsTranslation task t → HasSamePlans task t → IsPlan t.task plan →
        (actions : List Action) × AreOperatorsOf task t actions plan × IsValidPlan task actions × (total_cost actions ≡ plan_cost t.task plan) }
{}

/// Proves that the output of `translate` can be read again: the names of a spelled task are words, so the names of
/// values and operators can be written in a text.
pub fn translation_can_be_written()
    ensures written { (domain problem : List ℕ) (task : PlanningTask) (t : TranslatedTask) → SpellTask domain problem task → IsTranslation task t →
        IsTask t.task → IsWithinLimits t.task → ((a : Action) → IsActionOf task a → a.cost ≤ max_cost) →
        CanBeWritten t.task (map (λ v. length v.places) t.variables) }
    ensures read { (domain problem : List ℕ) (task : PlanningTask) (t : TranslatedTask) → SpellTask domain problem task → IsTranslation task t →
        IsTask t.task → IsWithinLimits t.task → ((a : Action) → IsActionOf task a → a.cost ≤ max_cost) →
        SpellsTask (written t.task (map (λ v. length v.places) t.variables)) (in_text_order t.task) }
{}

/// Proves that the steps that name the actions of a valid plan have the verdict `Valid` with the plan's cost, for a
/// task that texts spell.
pub fn valid_plan_has_verdict()
    ensures { (domain problem : List ℕ) (task : PlanningTask) (actions : List Action) → SpellTask domain problem task → IsValidPlan task actions →
        IsVerdict task (map (step_of task.vocabulary) actions) (Valid (total_cost actions)) }
{}

/// Proves that the text of a plan of a finite-domain task whose operators' names spell steps of plan words is read as
/// these steps, if there are at most 1,048,576 of them, the text is at most 16,777,216 bytes long and the cost fits 64
/// bits.
pub fn named_plan_is_read()
    ensures { (task : FiniteDomainTask) (plan : List ℕ) (cost : ℕ) → HasStepNames task → All (λ o. o < length task.operators) plan →
        length plan ≤ max_steps → cost < 2 ^ 64 → length (sas_plan_text task plan cost) ≤ 2 ^ 24 →
        SpellsPlan (sas_plan_text task plan cost) (map (operator_step task) plan) }
{}
