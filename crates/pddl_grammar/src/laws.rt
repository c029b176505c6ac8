//! Laws of the parts of PDDL texts.

ghost use Rattle.std.specs.Prelude.{◌≡◌, ℕ, Bool, true, false, List, [], Some, slice_get};
ghost use Rattle.sexp.specs.Forms.{Forms};
ghost use Rattle.pddl_syntax.specs.Typed.{declared, typed_faults};
ghost use Rattle.pddl_names.specs.Names.{number_of, is_there};
ghost use Rattle.pddl_task.specs.Planning.{PlanningTask, is_of_type};
ghost use Rattle.pddl_domain.specs.Types.{type_names, supertypes, types_faults};
ghost use Rattle.pddl_syntax.specs.declared.number.Number.TheVariants.{Whole};
ghost use Rattle.pddl_syntax.specs.Numbers.{number_of as number_in};
ghost use Rattle.pddl_grammar.specs.WholeNumbers.{SpellsNumber};
ghost use Rattle.pddl_syntax.specs.Heads.{Heads};
ghost use Rattle.pddl_task.specs.Lifted.{Lifted};
ghost use Rattle.pddl_terms.specs.Terms.{Scope, lifted, lifted_faults};
ghost use Rattle.pddl_effect.specs.Conditions.{conditions, conditions_faults};
ghost use Rattle.pddl_grammar.specs.Atoms.{SpellsAtom};
ghost use Rattle.pddl_grammar.specs.ConditionTrees.{Trees, SpellTrees, in_order};
ghost use Rattle.pddl_grammar.specs.Chains.{IsBelow};
ghost use Rattle.pddl_grammar.specs.Runs.{TypedList, IsTypedList, forms_of, declarations};

/// Proves that a typed list of runs whose types are known has no fault, and declares the names in order, each with its
/// run's type, or with `object` if the run has no type.
pub fn runs_are_read()
    ensures faultless { (variables : Bool) (known : List ℕ → Bool) (home : ℕ) (l : TypedList) → IsTypedList variables known l →
        typed_faults variables known home true (forms_of l) ≡ [] }
    ensures meaning { (variables : Bool) (known : List ℕ → Bool) (l : TypedList) → IsTypedList variables known l →
        declared variables (forms_of l) ≡ declarations l }
{}

/// Proves that a typed list without a fault consists of runs whose types are known.
pub fn lists_without_fault_are_runs()
    ensures { (variables : Bool) (known : List ℕ → Bool) (home : ℕ) (f : Forms) → typed_faults variables known home true f ≡ [] →
        (l : TypedList) × IsTypedList variables known l × (f ≡ forms_of l) }
{}

/// Proves that an object of a task belongs to a type exactly if a chain of declared supertypes goes from the object's
/// own type to it, or the type is `object`. The task has the supertypes that a section of types without a fault
/// declares, and its types are numbered by the names declared there.
pub fn types_are_above_by_chains()
    ensures fits { (home : ℕ) (f : Forms) → types_faults home f ≡ [] → (task : PlanningTask) (object : ℕ) (own type : List ℕ) →
        task.supertypes ≡ supertypes (declared false f) → slice_get task.object_types object ≡ Some (number_of (type_names (declared false f)) own) →
        is_there (type_names (declared false f)) own ≡ true → IsBelow (declared false f) own type →
        is_of_type task (number_of (type_names (declared false f)) type) object ≡ true }
    ensures chain { (home : ℕ) (f : Forms) → types_faults home f ≡ [] → (task : PlanningTask) (object : ℕ) (own type : List ℕ) →
        task.supertypes ≡ supertypes (declared false f) → slice_get task.object_types object ≡ Some (number_of (type_names (declared false f)) own) →
        is_there (type_names (declared false f)) own ≡ true → is_there (type_names (declared false f)) type ≡ true →
        is_of_type task (number_of (type_names (declared false f)) type) object ≡ true → IsBelow (declared false f) own type }
{}

/// Proves that a text is read as a whole number exactly if it is one or more digits, followed by nothing, or by a point
/// and zeros. The number is the value of the digits in base ten.
pub fn digits_are_read()
    ensures read { (text : List ℕ) (n : ℕ) → SpellsNumber text n → number_in text ≡ Whole n }
    ensures spelled { (text : List ℕ) (n : ℕ) → number_in text ≡ Whole n → SpellsNumber text n }
{}

/// Proves that a head and the expressions after it are read as an atom exactly if the head is declared, and the
/// expressions are variables and objects in scope, as many as the head has parameters. The atom has the head's number
/// and these terms.
pub fn atoms_are_read()
    ensures read { (heads : Heads) (scope : Scope) (t : List ℕ) (f : Forms) (a : Lifted) → SpellsAtom heads scope t f a →
        lifted heads scope t f ≡ Some a }
    ensures spelled { (heads : Heads) (scope : Scope) (t : List ℕ) (f : Forms) (a : Lifted) → lifted heads scope t f ≡ Some a →
        SpellsAtom heads scope t f a }
{}

/// Proves that a head and the expressions after it have no fault exactly if they are an atom of the declared heads.
pub fn atoms_without_fault()
    ensures faultless { (heads : Heads) (scope : Scope) (home hs : ℕ) (t : List ℕ) (f : Forms) (a : Lifted) → SpellsAtom heads scope t f a →
        lifted_faults heads scope home hs t f ≡ [] }
    ensures spelled { (heads : Heads) (scope : Scope) (home hs : ℕ) (t : List ℕ) (f : Forms) → lifted_faults heads scope home hs t f ≡ [] →
        (a : Lifted) × SpellsAtom heads scope t f a }
{}

/// Proves that expressions that are trees of `and` over literals have no fault, and their conditions are the literals
/// of these trees from left to right, however the trees are nested.
pub fn trees_are_read_in_order()
    ensures faultless { (scope : Scope) (f : Forms) (trees : Trees) → SpellTrees scope f trees → conditions_faults scope f ≡ [] }
    ensures meaning { (scope : Scope) (f : Forms) (trees : Trees) → SpellTrees scope f trees → conditions scope f ≡ in_order trees }
{}

/// Proves that expressions in the position of conditions that have no fault are trees of `and` over literals.
pub fn conditions_without_fault_are_trees()
    ensures { (scope : Scope) (f : Forms) → conditions_faults scope f ≡ [] → (trees : Trees) × SpellTrees scope f trees }
{}
