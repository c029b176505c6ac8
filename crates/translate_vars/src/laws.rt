//! Laws of the first fault.

ghost use Rattle.std.specs.Prelude.{◌≡◌, ◌≢◌, List};
ghost use Rattle.pddl_task.specs.Atoms.{Atom};
ghost use Rattle.pddl_task.specs.Planning.{PlanningTask};
ghost use Rattle.translate_theory.specs.Variables.{PlacedVariable};
ghost use Rattle.translate_vars.specs.Parts.{AreFit};
ghost use Rattle.translate_vars.specs.Faults.{IsFirstFault};
ghost use Rattle.translate_vars.specs.declared.fault.TranslateFault.{TranslateFault};
ghost use Rattle.translate_vars.specs.declared.fault.TranslateFault.TheVariants.{OutOfMemory};

/// Proves that atoms and variables that are fit have no fault.
pub fn fit_has_no_fault()
    ensures { (task : PlanningTask) (atoms : List Atom) (variables : List PlacedVariable) (e : TranslateFault) →
        e ≢ OutOfMemory → IsFirstFault task atoms variables e → AreFit task atoms variables → ⊥ }
{}

/// Proves that atoms and variables have at most one first fault.
pub fn one_fault()
    ensures { (task : PlanningTask) (atoms : List Atom) (variables : List PlacedVariable) (e f : TranslateFault) →
        e ≢ OutOfMemory → f ≢ OutOfMemory → IsFirstFault task atoms variables e → IsFirstFault task atoms variables f → e ≡ f }
{}
