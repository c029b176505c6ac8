//! Laws of translations, for every planning task.

ghost use Rattle.std.specs.Prelude.{◌≡◌, ℕ, ◌↔◌, true, false, List, [], ◌∷◌, length, slice_get, Some, All, Contains, codes, map, option_map};
ghost use Rattle.cost.specs.Distances.{Distance};
ghost use Rattle.fdr.specs.Tasks.{IsTask, IsPlan, plan_cost, EveryPlanCostsAtLeast, HasNoPlan};
ghost use Rattle.pddl_task.specs.Atoms.{Atom, State};
ghost use Rattle.pddl_task.specs.Planning.{PlanningTask, IsPlanningTask, Action};
ghost use Rattle.pddl_task.specs.Plans.{IsValidPlan, IsReachedBy, total_cost, HasNoValidPlan};
ghost use Rattle.ground_theory.specs.Grounding.{AreListedAtoms, AreListedActions};
ghost use Rattle.translate_theory.specs.Bounds.{ValidPlansCostAtLeast};
ghost use Rattle.translate_theory.specs.Translations.{Variable, AreVariables, value_in, translation, AreOperatorsOf};
ghost use Rattle.translate_theory.specs.Worked.{variable, fact, operator, named_road, at_a, at_b, at_c, go_b_go_c, grip, grip_actions, grip_variables};

/// Proves that a planning task and its translation have the same plans: a list of actions is a valid plan of some cost
/// exactly if each action has an operator and the list of these operators is a plan of that cost. Each action of a
/// valid plan is listed.
pub fn translation_has_same_plans()
    ensures plans { (task : PlanningTask) (atoms : List Atom) (actions : List Action) (variables : List Variable) →
        IsPlanningTask task → AreListedAtoms task atoms → AreListedActions task atoms actions →
        AreVariables task atoms actions variables → (plan : List Action) (cost : ℕ) →
        (IsValidPlan task plan × (total_cost plan ≡ cost)) ↔
        ((os : List ℕ) × AreOperatorsOf variables actions plan os ×
        IsPlan (translation task variables actions) os × (plan_cost (translation task variables actions) os ≡ cost)) }
    ensures listed { (task : PlanningTask) (atoms : List Atom) (actions : List Action) (variables : List Variable) →
        IsPlanningTask task → AreListedAtoms task atoms → AreListedActions task atoms actions →
        AreVariables task atoms actions variables → (plan : List Action) → IsValidPlan task plan →
        All (Contains actions) plan }
{}

/// Proves that a planning task and its translation have the same lower bounds on the costs of their plans, and that one
/// has no plan exactly if the other has none.
pub fn translation_has_same_bounds()
    ensures bound { (task : PlanningTask) (atoms : List Atom) (actions : List Action) (variables : List Variable) →
        IsPlanningTask task → AreListedAtoms task atoms → AreListedActions task atoms actions →
        AreVariables task atoms actions variables → (bound : Distance) →
        EveryPlanCostsAtLeast (translation task variables actions) bound ↔ ValidPlansCostAtLeast task bound }
    ensures none { (task : PlanningTask) (atoms : List Atom) (actions : List Action) (variables : List Variable) →
        IsPlanningTask task → AreListedAtoms task atoms → AreListedActions task atoms actions →
        AreVariables task atoms actions variables →
        HasNoPlan (translation task variables actions) ↔ HasNoValidPlan task }
{}

/// Proves that the translation is a finite-domain task: its initial state, goal, preconditions and effects are within
/// the ranges.
pub fn translation_is_task()
    ensures { (task : PlanningTask) (atoms : List Atom) (actions : List Action) (variables : List Variable) →
        AreListedAtoms task atoms → AreListedActions task atoms actions → AreVariables task atoms actions variables →
        IsTask (translation task variables actions) }
{}

/// Proves that in every reachable state an atom of a variable is true exactly if the variable has the value of that
/// atom.
pub fn values_tell_atoms()
    ensures { (task : PlanningTask) (atoms : List Atom) (actions : List Action) (variables : List Variable) →
        IsPlanningTask task → AreListedAtoms task atoms → AreListedActions task atoms actions →
        AreVariables task atoms actions variables → (plan : List Action) (state : State) → IsReachedBy task plan state →
        (v : Variable) → Contains variables v → (k : ℕ) (p : Atom) → slice_get v.atoms k ≡ Some p →
        (state p ≡ true) ↔ (value_in state v ≡ k) }
{}

/// Proves worked examples: a road as one variable, in the form that Fast Downward would write; the road with two
/// variables; and a gripper, in which operator 2 picks up a ball and operator 7 drops one.
pub fn worked_tasks_translate()
    ensures one_variable { translation named_road (variable (at_a ∷ at_b ∷ at_c ∷ []) false ∷ []) go_b_go_c ≡ record {
      metric = false;
      value_names = (codes "Atom at(a)" ∷ codes "Atom at(b)" ∷ codes "Atom at(c)" ∷ []) ∷ [];
      initial = 0 ∷ [];
      goal = fact 0 2 ∷ [];
      operators = operator (codes "go a b") (fact 0 0 ∷ []) (fact 0 1 ∷ []) ∷ operator (codes "go b c") (fact 0 1 ∷ []) (fact 0 2 ∷ []) ∷ [];
    } }
    ensures variable_each { translation named_road (variable (at_a ∷ []) true ∷ variable (at_b ∷ at_c ∷ []) true ∷ []) go_b_go_c ≡ record {
      metric = false;
      value_names = (codes "Atom at(a)" ∷ codes "NegatedAtom at(a)" ∷ [])
          ∷ (codes "Atom at(b)" ∷ codes "Atom at(c)" ∷ codes "<none of those>" ∷ []) ∷ [];
      initial = 0 ∷ 2 ∷ [];
      goal = fact 1 1 ∷ [];
      operators = operator (codes "go a b") (fact 0 0 ∷ []) (fact 0 1 ∷ fact 1 0 ∷ []) ∷ operator (codes "go b c") (fact 1 0 ∷ []) (fact 1 1 ∷ []) ∷ [];
    } }
    ensures gripper { let task = translation grip grip_variables grip_actions in
        (map length task.value_names ≡ 2 ∷ 3 ∷ 3 ∷ 2 ∷ []) × (length task.operators ≡ 10) ×
        (option_map (λ o. o.precondition) (slice_get task.operators 2) ≡ Some (fact 0 0 ∷ fact 1 0 ∷ fact 3 0 ∷ [])) ×
        (option_map (λ o. o.effect) (slice_get task.operators 2) ≡ Some (fact 1 2 ∷ fact 3 1 ∷ [])) ×
        (option_map (λ o. o.effect) (slice_get task.operators 7) ≡ Some (fact 1 1 ∷ fact 3 0 ∷ [])) }
{}
