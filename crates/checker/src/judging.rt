//! The verdict on a certificate for a planning task in memory.

ghost use Rattle.std.specs.Prelude.{◌≡◌, ◌≤◌, ◌<◌, length, map, IsTrue, IfOk, IfErr, string_bytes};
ghost use Rattle.cost.specs.Distances.{Distance};
ghost use Rattle.fdr.specs.Tasks.{EveryPlanCostsAtLeast};
ghost use Rattle.pddl_task.specs.Planning.{IsPlanningTask, IsActionOf, has_small_costs, Action};
ghost use Rattle.translate_theory.specs.Bounds.{ValidPlansCostAtLeast};
ghost use Rattle.translate_vars.specs.Faults.{IsFirstFault};
ghost use Rattle.cert_value.specs.Views.{atom_of, variable_of};
ghost use Rattle.cert_value.specs.Lawful.{ArePlanningParts};
ghost use Rattle.checker.specs.declared.verdict.PlanningVerdict.TheVariants.{Accepted};
ghost use Rattle.checker.specs.Judgements.{IsPlanningVerdict, IsFiniteDomainVerdict, IsPlaceOf, IsListedText, judged_of, atoms_of, placed_of};
ghost use Rattle.checker.specs.Answers.{IsUnjudged};
ghost use Rattle.pddl_task.specs.Limits.{max_cost};

use crate::fault::PlanningCheckFault;
use crate::naming::{atom_text, listed_variables, named_atoms, words_text};
use crate::verdict::{PlanningVerdict, PlanningViolation};
use cert_value::{AtomParts, Certificate};
use checker_fdr::{Verdict, check_fdr};
use fdr::FdrTask;
use pddl_task::{GroundAtom, Task};
use std::alloc::{AllocError, Global};
use std::thread::Threads;
use translate::{ListedVariable, TranslateFault, with_variables};

/// Returns the text of the listed atom at this index.
fn listed_text(
    alloc: Global,
    task: &Task,
    parts: &AtomParts,
    place: usize,
) -> Result<String, AllocError>
    requires { place < length parts.now.atoms.items }
    ensures { IfOk result (λ text. IsListedText (judged_of task.now parts.now) place (string_bytes text)) }
{
    let _ = task;
    words_text(alloc, &parts.atoms[place])
}

/// Returns the violation that the first fault of the listed atoms and variables denotes. Fails if the fault is an
/// exceeded limit, or if allocation fails.
fn place_of(
    alloc: Global,
    task: &Task,
    parts: &AtomParts,
    fault: &TranslateFault,
) -> Result<PlanningViolation, PlanningCheckFault>
    requires { IsFirstFault task.now (atoms_of (judged_of task.now parts.now)) (placed_of (judged_of task.now parts.now)) fault.now }
    ensures place { IfOk result (IsPlaceOf (judged_of task.now parts.now) fault.now) }
    ensures unjudged { IfErr result (IsUnjudged (judged_of task.now parts.now)) }
{
    match fault {
        TranslateFault::OutOfMemory => Err(PlanningCheckFault::OutOfMemory),
        TranslateFault::GroundLimit => Err(PlanningCheckFault::GroundLimit),
        TranslateFault::Limit(limit) => Err(PlanningCheckFault::Limit(*limit)),
        TranslateFault::BadAtom(place) => {
            let text = listed_text(alloc, task, parts, *place)?;
            Ok(PlanningViolation::Atom(text))
        }
        TranslateFault::Missing(atom) | TranslateFault::NotClosed(atom) => {
            let text = atom_text(alloc, &task.vocabulary, atom)?;
            Ok(PlanningViolation::Atom(text))
        }
        TranslateFault::Uncovered(place) => {
            let text = listed_text(alloc, task, parts, *place)?;
            Ok(PlanningViolation::Uncovered(text))
        }
        TranslateFault::NotGroup(variable)
        | TranslateFault::NotFull(variable)
        | TranslateFault::Misplaced(variable) => Ok(PlanningViolation::Variable(*variable)),
    }
}

/// Returns the verdict on the certificate for a finite-domain task.
fn verdict_over<R: AllocGlobal + Threads + Sync>(
    rt: &R,
    task: &FdrTask,
    certificate: &Certificate,
) -> Result<PlanningVerdict, AllocError>
    ensures verdict { IfOk result (IsFiniteDomainVerdict task.now certificate.now) }
    ensures bound { (bound : Distance) → IfOk result (λ verdict. verdict ≡ Accepted bound → EveryPlanCostsAtLeast task.now bound) }
{
    match check_fdr(rt, task, certificate)? {
        Verdict::Accepted(bound) => Ok(PlanningVerdict::Accepted(bound)),
        Verdict::Rejected(violation) => {
            Ok(PlanningVerdict::Rejected(PlanningViolation::Task(violation)))
        }
    }
}

/// The atoms and the variables that a certificate lists.
#[derive(Drop)]
struct Listed {
    atoms: Vec<GroundAtom>,
    variables: Vec<ListedVariable>,
}

#[tactic(auto, using(crate::proofs::Lists::map_map))]
fn listed_parts(alloc: Global, task: &Task, parts: &AtomParts) -> Result<Listed, AllocError>
    ensures atoms { IfOk result (λ l. l.atoms.items ≡ atoms_of (judged_of task.now parts.now)) }
    ensures variables { IfOk result (λ l. l.variables.items ≡ placed_of (judged_of task.now parts.now)) }
{
    let atoms = named_atoms(alloc, &task.vocabulary, &parts.atoms)?;
    let variables = listed_variables(alloc, &parts.variables)?;
    Ok(Listed { atoms, variables })
}

/// Returns the verdict on a certificate with these parts for a planning task: `Accepted` with its bound if the atoms
/// and variables satisfy C1 and C2 for the task, and the certificate satisfies the clauses C0 and C3 to C8 for the
/// finite-domain task over them, and otherwise `Rejected` with the first violation. After `Accepted` every valid plan
/// costs at least the bound, whoever wrote the certificate, and there is no valid plan if the bound is infinite.
///
/// Fails if a limit on atoms, actions, variables or values is exceeded, or if allocation fails.
pub fn judge<R: AllocGlobal + Threads + Sync>(
    rt: &R,
    task: &Task,
    parts: &AtomParts,
    certificate: &Certificate,
) -> Result<PlanningVerdict, PlanningCheckFault>
    requires small { IsTrue (has_small_costs task.now) }
    requires costs { (a : Action) → IsActionOf task.now a → a.cost ≤ max_cost }
    requires lawful { ArePlanningParts (map atom_of parts.now.atoms.items) (map variable_of parts.now.variables.items) }
    ensures verdict { IfOk result (IsPlanningVerdict (judged_of task.now parts.now) certificate.now) }
    ensures bound { (bound : Distance) → IsPlanningTask task.now →
        IfOk result (λ verdict. verdict ≡ Accepted bound → ValidPlansCostAtLeast task.now bound) }
    ensures unjudged { IfErr result (IsUnjudged (judged_of task.now parts.now)) }
{
    let alloc = rt.alloc();
    let listed = listed_parts(alloc, task, parts)?;
    let variables = listed.variables;
    match with_variables(alloc, task, &listed.atoms, variables) {
        Ok(translated) => {
            let verdict = verdict_over(rt, translated.task(), certificate)?;
            Ok(verdict)
        }
        Err(fault) => {
            let place = place_of(alloc, task, parts, &fault)?;
            Ok(PlanningVerdict::Rejected(place))
        }
    }
}
