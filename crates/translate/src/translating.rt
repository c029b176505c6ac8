//! Translating planning tasks.

ghost use Rattle.std.specs.Prelude.{◌≡◌, ◌≤◌, All, IsTrue, IfOk, IfErr, length};
ghost use Rattle.pddl_task.specs.Atoms.{contains};
ghost use Rattle.pddl_task.specs.Planning.{IsPlanningTask, IsActionOf, has_small_costs, Action};
ghost use Rattle.ground_theory.specs.Grounding.{actions_over, AreListedAtoms, AreListedActions, IsLeastClosedSet};
ghost use Rattle.ground_atoms.specs.Order.{AreDistinct, IsAscending};
ghost use Rattle.ground.specs.Search.{max_actions};
ghost use Rattle.ground.specs.Rounds.{max_atoms};
ghost use Rattle.translate_theory.specs.Translations.{AreVariables};
ghost use Rattle.translate_theory.specs.Variables.{IsPlaced, variables_at};
ghost use Rattle.translate_vars.specs.Faults.{IsFirstFault};
ghost use Rattle.translate.specs.Translated.{IsReadTask, IsTranslation, HasSamePlans, AreChosenParts, IsTooLarge, IsUntranslated, parts_fault_of};
ghost use Rattle.pddl_task.specs.Limits.{max_cost};

use crate::fault::SizeFault;
use crate::translated::Translated;
use ground::{Grounded, ground};
use ground_atoms::Atoms;
use mutex::{ActionIndex, groups};
use pddl_task::{GroundAction, GroundAtom, Task};
use std::alloc::{AllocError, Global};
use translate_assembly::{AssemblyFault, assemble};
use translate_choice::choose_variables;
use translate_theory::ListedVariable;
use translate_vars::{TranslateFault, check_parts};

/// Returns the translation over atoms and variables that are fit. Fails with the first limit that its task would
/// exceed, or if allocation fails.
fn translated(
    alloc: Global,
    task: &Task,
    parts: Grounded,
    variables: Vec<ListedVariable>,
) -> Result<Translated, AssemblyFault>
    requires costs { (a : Action) → IsActionOf task.now a → a.cost ≤ max_cost }
    requires placed { All (IsPlaced (length parts.atoms)) variables.items }
    requires listed { AreListedAtoms task.now parts.atoms }
    requires few_atoms { length parts.atoms ≤ max_atoms }
    requires over { parts.actions.items ≡ actions_over task.now (contains parts.atoms) }
    requires few_actions { length parts.actions.items ≤ max_actions }
    requires fit { AreVariables task.now parts.atoms parts.actions.items (variables_at parts.atoms variables.items) }
    ensures atoms { IfOk result (λ t. t.atoms ≡ parts.atoms) }
    ensures variables { IfOk result (λ t. t.variables ≡ variables.items) }
    ensures translation { IfOk result (IsTranslation task.now) }
    ensures large { IfErr result (IsTooLarge task.now parts.atoms variables.items) }
{
    let made = assemble(alloc, task, &parts.atoms, &parts.actions, &variables)?;
    made.task.recall();
    Ok(Translated {
        atoms: parts.atoms,
        variables,
        task: made.task,
        places: made.places,
    })
}

/// Converts a fault of assembling listed parts into their fault.
fn parts_fault(fault: AssemblyFault) -> TranslateFault
    ensures { result ≡ parts_fault_of fault }
{
    match fault {
        AssemblyFault::OutOfMemory => TranslateFault::OutOfMemory,
        AssemblyFault::Limit(limit) => TranslateFault::Limit(limit),
    }
}

/// Translates the task over these atoms, with these variables over them. A task that is returned has the same plans
/// with the same costs as the planning task (Helmert 2009).
///
/// Fails with the first fault of the atoms and the variables, or if allocation fails. The order is: the numbers of
/// atoms, variables and values; the atoms, in their order; the number of actions; the missing atoms; the variables, in
/// their order; and the atoms in no variable.
pub fn with_variables(
    alloc: Global,
    task: &Task,
    atoms: &[GroundAtom],
    variables: Vec<ListedVariable>,
) -> Result<Translated, TranslateFault>
    requires small { IsTrue (has_small_costs task.now) }
    requires costs { (a : Action) → IsActionOf task.now a → a.cost ≤ max_cost }
    requires placed { All (IsPlaced (length atoms.now)) variables.items }
    ensures atoms { IfOk result (λ t. t.atoms ≡ atoms.now) }
    ensures variables { IfOk result (λ t. t.variables ≡ variables.items) }
    ensures translation { IfOk result (IsTranslation task.now) }
    ensures plans { IsPlanningTask task.now → IfOk result (HasSamePlans task.now) }
    ensures fault { IfErr result (IsFirstFault task.now atoms.now variables.items) }
{
    let parts = check_parts(alloc, task, atoms, &variables)?;
    match translated(alloc, task, parts, variables) {
        Ok(translated) => Ok(translated),
        Err(fault) => Err(parts_fault(fault)),
    }
}

/// Returns the least closed set of atoms, with the actions over it. Fails if a limit on atoms or actions is exceeded,
/// or if allocation fails.
fn grounded(alloc: Global, task: &Task) -> Result<Grounded, SizeFault>
    requires small { IsTrue (has_small_costs task.now) }
    ensures least { IfOk result (λ g. IsLeastClosedSet task.now (contains g.atoms)) }
    ensures few_atoms { IfOk result (λ g. length g.atoms ≤ max_atoms) }
    ensures actions { IfOk result (λ g. g.actions.items ≡ actions_over task.now (contains g.atoms)) }
    ensures few_actions { IfOk result (λ g. length g.actions.items ≤ max_actions) }
    ensures distinct { IfOk result (λ g. AreDistinct g.atoms) }
    ensures ascending { IfOk result (λ g. IsAscending g.atoms) }
    ensures fault { IfErr result (IsUntranslated task.now) }
{
    let grounded = ground(alloc, task)?;
    // only for the proof: reading the list of atoms makes its invariant available, that they are distinct
    let _ = grounded.atoms.as_slice().len();
    Ok(grounded)
}

/// Chooses variables over the least closed set, by the proposed mutex groups.
fn chosen(
    alloc: Global,
    task: &Task,
    grounded: &Grounded,
) -> Result<Vec<ListedVariable>, AllocError>
    requires least { IsLeastClosedSet task.now (contains grounded.now.atoms) }
    requires ascending { IsAscending grounded.now.atoms }
    requires actions { grounded.now.actions.items ≡ actions_over task.now (contains grounded.now.atoms) }
    ensures placed { IfOk result (λ vs. All (IsPlaced (length grounded.now.atoms)) vs.items) }
    ensures fit { IfOk result (λ vs.
        AreVariables task.now grounded.now.atoms grounded.now.actions.items (variables_at grounded.now.atoms vs.items)) }
    ensures chosen { IfOk result (λ vs. AreChosenParts task.now grounded.now.atoms vs.items) }
{
    let index = ActionIndex::new(alloc, task, &grounded.atoms, &grounded.actions)?;
    let groups = groups(alloc, &index)?;
    choose_variables(alloc, &index, &groups)
}

/// Translates the task over the atoms of its relaxed reachability, the least closed set, with variables that are chosen
/// by mutex groups. A task that is returned has the same plans with the same costs as the planning task (Helmert 2009).
///
/// Fails with `GroundLimit` if there are too many atoms or actions, with `Limit` if the finite-domain task over the
/// variables that are chosen would have too many variables, values of a variable or operators, or if allocation fails.
pub fn translate(alloc: Global, task: &Task) -> Result<Translated, SizeFault>
    requires { IsReadTask task.now }
    ensures translation { IfOk result (IsTranslation task.now) }
    ensures least { IfOk result (λ t. IsLeastClosedSet task.now (contains t.atoms)) }
    ensures chosen { IfOk result (λ t. AreChosenParts task.now t.atoms t.variables) }
    ensures plans { IsPlanningTask task.now → IfOk result (HasSamePlans task.now) }
    ensures fault { IfErr result (IsUntranslated task.now) }
{
    let grounded = grounded(alloc, task)?;
    let variables = chosen(alloc, task, &grounded)?;
    Ok(translated(alloc, task, grounded, variables)?)
}
