//! Laws of written texts.

ghost use Rattle.std.specs.Prelude.{◌≡◌, ◌↔◌, ℕ, List, [], ◌∷◌};
ghost use Rattle.fdr.specs.Tasks.{FiniteDomainTask, IsTask, IsPlan, plan_cost};
ghost use Rattle.sasfile_reader.specs.SasTexts.{SpellsTask};
ghost use Rattle.sasfile_writer.specs.Written.{written, written_lines};
ghost use Rattle.sasfile_writer.specs.TextOrder.{in_text_order, CanBeWritten};
ghost use Rattle.sasfile_writer.specs.Worked.{road_task, road_lines};

/// Proves that the written text of a task spells that task, up to the order of the facts in preconditions.
pub fn written_text_is_read()
    ensures { (task : FiniteDomainTask) (sizes : List ℕ) → CanBeWritten task sizes → SpellsTask (written task sizes) (in_text_order task) }
{}

/// Proves that the order of the facts in preconditions changes no plan and no cost.
pub fn text_order_has_same_plans()
    ensures plans { (task : FiniteDomainTask) (plan : List ℕ) → IsTask task → IsPlan (in_text_order task) plan ↔ IsPlan task plan }
    ensures costs { (task : FiniteDomainTask) (plan : List ℕ) → plan_cost (in_text_order task) plan ≡ plan_cost task plan }
{}

/// Proves a worked example: the lines written for the road task.
pub fn worked_texts()
    ensures { written_lines road_task (3 ∷ []) ≡ road_lines }
{}
