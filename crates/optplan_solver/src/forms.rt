//! Findings with their plans in the form in which they are given.

ghost use Rattle.std.specs.Prelude.{IfOk, IfSome};
ghost use Rattle.optplan_search.specs.Findings.{IsPlanAt};
ghost use Rattle.optplan_solver.specs.Answers.{HasPlans, IsGiven, IsGivenBest};

use optplan_search::{Answer, Found, FoundPlan, SoFar, Solution};
use std::alloc::{AllocError, Global};

/// A plan with its cost and its text; `P` is the form of the plan itself.
#[derive(Drop)]
pub struct WrittenPlan<P: Drop> {
    /// The cost of the plan.
    pub cost: u64,
    /// The plan.
    pub plan: P,
    /// The text of the plan.
    pub plan_text: String,
}

/// The form of the plans of a task, which is searched or translated into one that is.
pub trait PlanForm<P: Drop> {
    ghost use Rattle.std.specs.Prelude.{◌≡◌, IfOk};
    ghost use Rattle.fdr.specs.Tasks.{FiniteDomainTask};
    ghost use Rattle.optplan_search.specs.Findings.{IsPlanAt};
    ghost use Rattle.optplan_solver.specs.declared.forms.WrittenPlan.{WrittenPlan};

    /// The finite-domain task of the plans that are found.
    ghost task: { Self → FiniteDomainTask };

    /// The form can be given to plans of the task.
    ghost is_ready: { Self → Type 0 };

    /// A plan in this form.
    ghost is_plan: { Self → WrittenPlan P → Type 0 };

    /// Returns a plan in this form, with its text.
    fn plan(&self, alloc: Global, found: FoundPlan) -> Result<WrittenPlan<P>, AllocError>
        requires ready { is_ready self.now }
        requires plan { IsPlanAt (task self.now) found.plan.items found.cost }
        ensures plan { IfOk result (is_plan self.now) }
        ensures cost { IfOk result (λ p. p.cost ≡ found.cost) };
}

/// Returns the best plan so far in the form, if there is one.
fn best_in<P: Drop, W: PlanForm<P>>(
    alloc: Global,
    form: &W,
    best: Option<FoundPlan>,
) -> Result<Option<WrittenPlan<P>>, AllocError>
    requires ready { W.is_ready form.now }
    requires plan { IfSome best (λ p. IsPlanAt (W.task form.now) p.plan.items p.cost) }
    ensures { IfOk result (IsGivenBest (W.is_plan form.now) best) }
{
    match best {
        Some(found) => Ok(Some(form.plan(alloc, found)?)),
        None => Ok(None),
    }
}

/// Returns the finding with its plans in the form: the costs, the bound and the certificate are the same.
pub fn answer_in<P: Drop, W: PlanForm<P>>(
    alloc: Global,
    form: &W,
    found: Found,
) -> Result<Answer<WrittenPlan<P>>, AllocError>
    requires ready { W.is_ready form.now }
    requires plans { HasPlans (W.task form.now) found }
    ensures { IfOk result (IsGiven (W.is_plan form.now) found) }
{
    match found {
        Answer::Solved(solution) => {
            let found = form.plan(alloc, solution.found)?;
            Ok(Answer::Solved(Solution {
                found,
                certificate: solution.certificate,
            }))
        }
        Answer::Unsolvable(certificate) => Ok(Answer::Unsolvable(certificate)),
        Answer::Limit(known) => {
            let best = best_in(alloc, form, known.best)?;
            Ok(Answer::Limit(SoFar {
                bound: known.bound,
                best,
                certificate: known.certificate,
            }))
        }
    }
}
