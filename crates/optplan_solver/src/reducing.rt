//! Multi-threaded searches for a plan of a task, or of what a reduction leaves of it.

ghost use Rattle.std.specs.Prelude.{◌≡◌, ◌<◌, true, length, All, Option, IfOk, IfErr};
ghost use Rattle.std.specs.Option.{option_map};
ghost use Rattle.cost.specs.Distances.{Distance};
ghost use Rattle.cert_value.specs.Views.{kind_of};
ghost use Rattle.cert_value.specs.declared.certificate.CertificateKind.{CertificateKind as KindOf};
ghost use Rattle.packed_spread.specs.Spreads as spread;
ghost use Rattle.packed_spread.specs.Spreads.{zobrist_owner};
ghost use Rattle.optplan_search.specs.SearchEnds.{EndsOf};
ghost use Rattle.optplan_search.specs.Findings.{plain, wants, IsPlanAt, IsBestSoFar, IsCertifiedBy, IsSolution, IsSoFar, IsFoundFor, IsFinding};
ghost use Rattle.optplan_solver.specs.ThreadedSearches.{EndsByThreads, IsRefusedByThreads};
ghost use Rattle.reduction.specs.Reductions.{in_task};
ghost use Rattle.optplan_solver.specs.Reduced.{IsReductionOf, stated_classes};

use crate::stages::found_without_reduction;
use cert_value::{Certificate, CertificateKind};
use engine::{EndingGate, Gate};
use fdr::FdrTask;
use optplan_options::Options;
use optplan_search::{Answer, Found, FoundPlan, SearchFault, SoFar, Solution};
use reduction::{Reduction, reduce};
use reduction_certs::certificate_for_task;
use std::alloc::{AllocError, Global};
use std::sync::Wait;
use std::thread::Threads;
use std::time::Clock;

/// Returns the numbers in the task of operators that are given by their indices in the list of the retained ones.
fn operators_in_task(
    alloc: Global,
    retained: &[usize],
    indices: &[usize],
) -> Result<Vec<usize>, AllocError>
    requires { All (λ index. index < length retained.now) indices.now }
    ensures { IfOk result (λ operators. operators.items ≡ in_task retained.now indices.now) }
{
    let mut operators = Vec::with_capacity(alloc, indices.len())?;
    for index in indices {
        operators.push(retained[*index])?;
    }
    Ok(operators)
}

/// Returns the plan of a task that a plan of its reduced task is: the same operators, by their numbers in the task.
fn plan_for_task(
    alloc: Global,
    task: &FdrTask,
    reduction: &Reduction,
    found: FoundPlan,
) -> Result<FoundPlan, AllocError>
    requires reduction { IsReductionOf task.now reduction.now }
    requires plan { IsPlanAt reduction.now.task found.plan.items found.cost }
    ensures plan { IfOk result (λ p. IsPlanAt task.now p.plan.items p.cost) }
    ensures cost { IfOk result (λ p. p.cost ≡ found.cost) }
{
    let _ = task;
    let plan = operators_in_task(alloc, &reduction.retained, &found.plan)?;
    Ok(FoundPlan {
        cost: found.cost,
        plan,
    })
}

/// Returns the best plan so far of a task, from that of its reduced task, if there is one.
fn best_for_task(
    alloc: Global,
    task: &FdrTask,
    reduction: &Reduction,
    best: Option<FoundPlan>,
) -> Result<Option<FoundPlan>, AllocError>
    requires reduction { IsReductionOf task.now reduction.now }
    requires best { (most : Distance) × IsBestSoFar reduction.now.task most best }
    ensures { (most : Distance) → IsBestSoFar reduction.now.task most best → IfOk result (IsBestSoFar task.now most) }
{
    match best {
        Some(found) => Ok(Some(plan_for_task(alloc, task, reduction, found)?)),
        None => Ok(None),
    }
}

/// Returns the certificate for a task, from one for its reduced task, if there is one.
fn certificate_of(
    alloc: Global,
    task: &FdrTask,
    reduction: &Reduction,
    certificate: Option<Certificate>,
) -> Result<Option<Certificate>, AllocError>
    requires reduction { IsReductionOf task.now reduction.now }
    requires certified { (wanted : Option KindOf) × ((bound : Distance) × IsCertifiedBy reduction.now.task (option_map plain wanted) bound certificate) }
    ensures { (wanted : Option KindOf) (bound : Distance) → IsCertifiedBy reduction.now.task (option_map plain wanted) bound certificate →
        IfOk result (IsCertifiedBy task.now (wants (stated_classes reduction.now.classes) (option_map kind_of wanted)) bound) }
{
    match certificate {
        Some(certificate) => {
            let made = certificate_for_task(alloc, task, reduction, certificate)?;
            Ok(Some(made))
        }
        None => Ok(None),
    }
}

/// Returns the solution for a task, from that for its reduced task.
fn solution_for_task(
    alloc: Global,
    task: &FdrTask,
    reduction: &Reduction,
    solution: Solution<FoundPlan>,
) -> Result<Solution<FoundPlan>, AllocError>
    requires reduction { IsReductionOf task.now reduction.now }
    requires solution { (wanted : Option KindOf) × IsSolution reduction.now.task (option_map plain wanted) solution }
    ensures solution { (wanted : Option KindOf) → IsSolution reduction.now.task (option_map plain wanted) solution →
        IfOk result (IsSolution task.now (wants (stated_classes reduction.now.classes) (option_map kind_of wanted))) }
    ensures cost { IfOk result (λ s. s.found.cost ≡ solution.found.cost) }
{
    let found = plan_for_task(alloc, task, reduction, solution.found)?;
    let certificate = certificate_of(alloc, task, reduction, solution.certificate)?;
    Ok(Solution { found, certificate })
}

/// Returns the result so far for a task, from that for its reduced task.
fn so_far_for_task(
    alloc: Global,
    task: &FdrTask,
    reduction: &Reduction,
    known: SoFar<FoundPlan>,
) -> Result<SoFar<FoundPlan>, AllocError>
    requires reduction { IsReductionOf task.now reduction.now }
    requires known { (wanted : Option KindOf) × ((most : Distance) × IsSoFar reduction.now.task (option_map plain wanted) most known) }
    ensures known { (wanted : Option KindOf) (most : Distance) → IsSoFar reduction.now.task (option_map plain wanted) most known →
        IfOk result (IsSoFar task.now (wants (stated_classes reduction.now.classes) (option_map kind_of wanted)) most) }
    ensures bound { IfOk result (λ s. s.bound ≡ known.bound) }
{
    let best = best_for_task(alloc, task, reduction, known.best)?;
    let certificate = certificate_of(alloc, task, reduction, known.certificate)?;
    Ok(SoFar {
        bound: known.bound,
        best,
        certificate,
    })
}

/// Returns the finding for a task, from that for its reduced task: the same plan and bound, and certificates for the
/// task.
fn found_for_task(
    alloc: Global,
    task: &FdrTask,
    reduction: &Reduction,
    found: Found,
) -> Result<Found, AllocError>
    requires reduction { IsReductionOf task.now reduction.now }
    requires found { (wanted : Option KindOf) × ((es : EndsOf spread.Zobrist) ×
        IsFoundFor reduction.now.task zobrist_owner es (option_map plain wanted) found) }
    ensures { (wanted : Option KindOf) (es : EndsOf spread.Zobrist) → IsFoundFor reduction.now.task zobrist_owner es (option_map plain wanted) found →
        IfOk result (IsFoundFor task.now zobrist_owner es (wants (stated_classes reduction.now.classes) (option_map kind_of wanted))) }
{
    match found {
        Answer::Solved(solution) => {
            let solution = solution_for_task(alloc, task, reduction, solution)?;
            Ok(Answer::Solved(solution))
        }
        Answer::Unsolvable(certificate) => {
            let certificate = certificate_of(alloc, task, reduction, certificate)?;
            Ok(Answer::Unsolvable(certificate))
        }
        Answer::Limit(known) => {
            let known = so_far_for_task(alloc, task, reduction, known)?;
            Ok(Answer::Limit(known))
        }
    }
}

/// Notifies the gate of what a reduction leaves out.
fn announce<G: Gate>(gate: &G, task: &FdrTask, reduction: &Reduction) {
    let variables = task.variable_count();
    let operators = task.operator_count();
    gate.task_reduced(
        variables.saturating_sub(reduction.task.variable_count()),
        operators.saturating_sub(reduction.task.operator_count()),
    );
}

/// Returns the finding for the task, from searches of what its reduction leaves, as `found_by_threads` does.
fn found_with_reduction<R: Threads + Wait + Clock + Sync, G: EndingGate + Sync>(
    rt: &R,
    alloc: Global,
    task: &FdrTask,
    options: &Options,
    wanted: &Option<CertificateKind>,
    gate: &G,
) -> Result<Found, SearchFault>
    requires { options.now.reduction ≡ true }
    ensures found { IfOk result (IsFinding task.now (option_map kind_of wanted.now) (EndsByThreads options.now (G.may_stop gate.now) task.now)) }
    ensures refused { IfErr result (IsRefusedByThreads options.now (G.may_stop gate.now) task.now) }
{
    let reduction = reduce(alloc, task)?;
    announce(gate, task, &reduction);
    let found = found_without_reduction(rt, alloc, &reduction.task, options, wanted, gate)?;
    Ok(found_for_task(alloc, task, &reduction, found)?)
}

/// Returns the finding for the task by the chosen number of workers, each in a thread of its own: a cheapest plan, or
/// that there is none; if one of the owners reached its limit, or the gate ended the search, before they were settled,
/// a lower bound on the cost of every plan, and possibly a plan. `wanted` is the kind of the certificate to make,
/// `None` if none is made. If the options request a reduction, what no goal needs is left out of the task that is
/// searched; the finding is for the whole task. If they request stages, up to four searches follow one another: see
/// `Tables`. The gate is asked before the turns of each of them; if it ends a stage (`Stop::Stage`), the next one
/// begins, and in a search without an end that has no effect.
///
/// Fails with `TotalTooLarge` if a path would have a cost or a number of operators above 2^62, or if allocation fails.
/// Termination is not guaranteed: an unfair scheduler may keep every worker from making progress. The contract states
/// of some end of such a search why it was stopped or fails with `TotalTooLarge`, and does not state when a stage ends.
pub fn found_by_threads<R: Threads + Wait + Clock + Sync, G: EndingGate + Sync>(
    rt: &R,
    alloc: Global,
    task: &FdrTask,
    options: &Options,
    wanted: Option<CertificateKind>,
    gate: &G,
) -> Result<Found, SearchFault>
    ensures found { IfOk result (IsFinding task.now (option_map kind_of wanted) (EndsByThreads options.now (G.may_stop gate.now) task.now)) }
    ensures refused { IfErr result (IsRefusedByThreads options.now (G.may_stop gate.now) task.now) }
{
    if options.reduction() {
        found_with_reduction(rt, alloc, task, options, &wanted, gate)
    } else {
        found_without_reduction(rt, alloc, task, options, &wanted, gate)
    }
}
