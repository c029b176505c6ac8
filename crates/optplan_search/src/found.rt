//! The finding of a search.

ghost use Rattle.std.specs.Prelude.{◌≡◌, ◌≤◌, ◌^◌, ℕ, Some, IfOk, IsSomeAnd};
ghost use Rattle.std.specs.Option.{option_map};
ghost use Rattle.cost.specs.Distances.{Distance, Finite, ◌≤ᵈ◌};
ghost use Rattle.fdr.specs.Tasks.{plan_cost};
ghost use Rattle.extract.specs.Bounds.{least_best, lower_bound};
ghost use Rattle.extract.specs.Ends.{IsBestGoal};
ghost use Rattle.optplan_search.specs.SearchEnds.{single};
ghost use Rattle.optplan_search.specs.Findings.{plain, IsPlanAt, IsBestSoFar, IsCertifiedBy, IsSettledEnd, IsFound, IsSoFar};

use crate::answer::{Answer, SoFar, Solution};
use cert::cert_of;
use cert_value::{Certificate, CertificateKind};
use extract::{Joined, plan_of};
use fdr::FdrTask;
use packed::StateForm;
use packed_spread::Spread;
use std::alloc::{AllocError, Global};
use std::thread::Threads;

/// A plan with its cost.
#[derive(Drop)]
pub struct FoundPlan {
    /// The cost of the plan.
    pub cost: u64,
    /// The numbers of its operators, in the order of the plan.
    pub plan: Vec<usize>,
}

/// The finding of a search.
pub type Found = Answer<FoundPlan>;

/// Returns the cost of these operators.
fn cost_of_plan(task: &FdrTask, plan: &[usize]) -> u64
    requires { plan_cost task.now plan.now ≤ 2 ^ 62 }
    ensures { result ≡ plan_cost task.now plan.now }
{
    let mut cost = 0;
    for operator in plan {
        cost += task.cost(*operator).get();
    }
    cost
}

/// Returns the plan to a goal node of least cost, with its own cost: at most that of the node, and exactly the bound if
/// the search is settled.
fn plan_to<'a, S: Spread + Drop, F: StateForm + Drop>(
    alloc: Global,
    joined: &Joined<'a, S, F>,
    goal: (usize, usize),
) -> Result<FoundPlan, AllocError>
    requires { IsBestGoal joined.now (Some goal) }
    ensures plan { IfOk result (λ p. IsPlanAt joined.now.space.task p.plan.items p.cost) }
    ensures within { IfOk result (λ p. Finite p.cost ≤ᵈ least_best joined.now) }
    ensures settled { (cost : ℕ) → IsSettledEnd S.owner joined.now (Finite cost) → IfOk result (λ p. p.cost ≡ cost) }
{
    joined.recall();
    let plan = plan_of(alloc, joined, goal)?;
    let (worker, _) = goal;
    joined.owners()[worker].recall();
    let cost = cost_of_plan(joined.space().task(), &plan);
    Ok(FoundPlan { cost, plan })
}

/// Returns the best plan so far, if a goal state was taken.
fn best_plan<'a, S: Spread + Drop, F: StateForm + Drop>(
    alloc: Global,
    joined: &Joined<'a, S, F>,
) -> Result<Option<FoundPlan>, AllocError>
    ensures best { IfOk result (IsBestSoFar joined.now.space.task (least_best joined.now)) }
    ensures settled { (cost : ℕ) → IsSettledEnd S.owner joined.now (Finite cost) → IfOk result (λ best. IsSomeAnd best (λ p. p.cost ≡ cost)) }
{
    joined.recall();
    match joined.best(alloc)? {
        Some(goal) => Ok(Some(plan_to(alloc, joined, goal)?)),
        None => Ok(None),
    }
}

/// Returns the certificate of the search of the kind that is wanted, or `None` if none is. Making it takes time and
/// memory in proportion to the states that were expanded.
fn certificate_of<'a, R: Threads + Sync, S: Spread + Drop, F: StateForm + Drop>(
    rt: &R,
    alloc: Global,
    joined: &Joined<'a, S, F>,
    wanted: Option<CertificateKind>,
) -> Result<Option<Certificate>, AllocError>
    ensures bound { IfOk result (IsCertifiedBy joined.now.space.task (option_map plain wanted) (lower_bound S.owner joined.now)) }
    ensures settled { (bound : Distance) → IsSettledEnd S.owner joined.now bound →
        IfOk result (IsCertifiedBy joined.now.space.task (option_map plain wanted) bound) }
{
    match wanted {
        Some(kind) => Ok(Some(cert_of(rt, alloc, joined, kind)?)),
        None => Ok(None),
    }
}

/// Returns the finding of a search that is settled: a cheapest plan, or that there is none.
pub fn found_when_settled<'a, R: Threads + Sync, S: Spread + Drop, F: StateForm + Drop>(
    rt: &R,
    alloc: Global,
    joined: &Joined<'a, S, F>,
    wanted: Option<CertificateKind>,
) -> Result<Found, AllocError>
    requires settled { (bound : Distance) × IsSettledEnd S.owner joined.now bound }
    ensures { IfOk result (IsFound S.owner (single joined.now) (option_map plain wanted)) }
{
    joined.recall();
    let certificate = certificate_of(rt, alloc, joined, wanted)?;
    match best_plan(alloc, joined)? {
        Some(found) => Ok(Answer::Solved(Solution { found, certificate })),
        None => Ok(Answer::Unsolvable(certificate)),
    }
}

/// Returns the result of a search that is not settled.
pub fn so_far_of<'a, R: Threads + Sync, S: Spread + Drop, F: StateForm + Drop>(
    rt: &R,
    alloc: Global,
    joined: &Joined<'a, S, F>,
    wanted: Option<CertificateKind>,
) -> Result<SoFar<FoundPlan>, AllocError>
    requires { (at : Distance) → IsSettledEnd S.owner joined.now at → ⊥ }
    ensures known { IfOk result (IsSoFar joined.now.space.task (option_map plain wanted) (least_best joined.now)) }
    ensures bound { IfOk result (λ s. lower_bound S.owner joined.now ≡ Finite s.bound) }
{
    joined.recall();
    let certificate = certificate_of(rt, alloc, joined, wanted)?;
    let best = best_plan(alloc, joined)?;
    let bound = joined.lower_bound(alloc)?;
    match bound.get() {
        Some(bound) => Ok(SoFar {
            bound,
            best,
            certificate,
        }),
        None => unreachable!(),
    }
}

/// Returns the finding of the search: if it is settled, a cheapest plan, or that there is none; otherwise a lower bound
/// on the cost of every plan, with the best plan so far. `wanted` is the kind of the certificate to make, `None` if
/// none is made.
pub fn found_by<'a, R: Threads + Sync, S: Spread + Drop, F: StateForm + Drop>(
    rt: &R,
    alloc: Global,
    joined: &Joined<'a, S, F>,
    wanted: Option<CertificateKind>,
) -> Result<Found, AllocError>
    ensures { IfOk result (IsFound S.owner (single joined.now) (option_map plain wanted)) }
{
    joined.recall();
    match joined.settled(alloc)? {
        None => Ok(Answer::Limit(so_far_of(rt, alloc, joined, wanted)?)),
        Some(_) => found_when_settled(rt, alloc, joined, wanted),
    }
}
