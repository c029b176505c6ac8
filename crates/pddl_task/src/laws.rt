//! Laws of the definitions of planning, for every task.
ghost use Rattle.std.specs.Prelude.{◌≡◌, ℕ, ◌↔◌, true, false, [], ◌∷◌, length, List, None, Contains};
ghost use Rattle.pddl_task.specs.Atoms.{Atom, State, same_atom, contains};
ghost use Rattle.pddl_task.specs.Examples.{atom, actions_for, road_to_c, road_to_a, length_of, long_road, door};
ghost use Rattle.pddl_task.specs.Planning.{PlanningTask, Action, IsActionOf, action_of};
ghost use Rattle.pddl_task.specs.Plans.{next_state, IsValidPlan, total_cost, HasNoValidPlan, EveryValidPlanCostsAtLeast};

/// Proves that the test `same_atom` is true exactly for equal atoms, and the test `contains` exactly for the members of
/// a list.
pub fn tests_tell_atoms()
    ensures same { (p q : Atom) → (same_atom p q ≡ true) ↔ (p ≡ q) }
    ensures members { (atoms : List Atom) (p : Atom) → (contains atoms p ≡ true) ↔ Contains atoms p }
{}

/// Proves the state after an action: an atom that the action adds is true, even if the action deletes it too; an atom
/// that it only deletes is false; every other atom keeps its value.
pub fn add_wins()
    ensures added { (state : State) (a : Action) (p : Atom) → contains a.adds p ≡ true → next_state state a p ≡ true }
    ensures deleted { (state : State) (a : Action) (p : Atom) →
        contains a.adds p ≡ false → contains a.deletes p ≡ true → next_state state a p ≡ false }
    ensures kept { (state : State) (a : Action) (p : Atom) →
        contains a.adds p ≡ false → contains a.deletes p ≡ false → next_state state a p ≡ state p }
{}

/// Proves that a schema has at most one ground action for the same objects.
pub fn names_tell_actions()
    ensures { (task : PlanningTask) (a b : Action) → IsActionOf task a → IsActionOf task b →
        a.schema ≡ b.schema → a.objects ≡ b.objects → a ≡ b }
{}

/// Proves that a task has no valid plan if and only if every number is a lower bound on the costs of its valid plans.
pub fn no_plan_is_every_bound()
    ensures { (task : PlanningTask) → HasNoValidPlan task ↔ ((n : ℕ) → EveryValidPlanCostsAtLeast task n) }
{}

/// Proves worked examples: two consecutive roads connect a with c by way of b, and the same two actions in the opposite
/// order are no plan. On a road from a back to a, the action both deletes and adds that the traveller is at a.
pub fn worked_roads()
    ensures two { let plan = actions_for road_to_c ((0 ∷ 1 ∷ []) ∷ (1 ∷ 2 ∷ []) ∷ []) in
        IsValidPlan road_to_c plan × (length plan ≡ 2) × (total_cost plan ≡ 2) }
    ensures back { let plan = actions_for road_to_a ((0 ∷ 0 ∷ []) ∷ []) in
        IsValidPlan road_to_a plan × (length plan ≡ 1) × (total_cost plan ≡ 1) }
    ensures wrong_way { IsValidPlan road_to_c (actions_for road_to_c ((1 ∷ 2 ∷ []) ∷ (0 ∷ 1 ∷ []) ∷ [])) → ⊥ }
{}

/// Proves worked examples: with roads of lengths 3 and 4 the same plan costs 7. A road without a given length has no
/// action.
pub fn worked_lengths()
    ensures seven { let task = long_road (length_of 0 1 3 ∷ length_of 1 2 4 ∷ []) in
        let plan = actions_for task ((0 ∷ 1 ∷ []) ∷ (1 ∷ 2 ∷ []) ∷ []) in
        IsValidPlan task plan × (length plan ≡ 2) × (total_cost plan ≡ 7) }
    ensures none { action_of (long_road (length_of 0 1 3 ∷ [])) 0 (1 ∷ 2 ∷ []) ≡ None }
{}

/// Proves worked examples: a door that is not locked can be entered. The action for a locked door is not applicable.
pub fn worked_doors()
    ensures open_door { let plan = actions_for (door []) ((0 ∷ []) ∷ []) in
        IsValidPlan (door []) plan × (length plan ≡ 1) × (total_cost plan ≡ 1) }
    ensures locked { let task = door (atom 1 (0 ∷ []) ∷ []) in IsValidPlan task (actions_for task ((0 ∷ []) ∷ [])) → ⊥ }
{}
