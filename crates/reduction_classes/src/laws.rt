//! Laws of reduced tasks, for every task and all classes.

ghost use Rattle.std.specs.Prelude.{◌≡◌, ℕ, true, List, [], ◌∷◌, Some};
ghost use Rattle.cost.specs.Distances.{Distance};
ghost use Rattle.fdr.specs.Tasks.{FiniteDomainTask, ranges, IsTask, IsState, IsPlan, step, is_goal_state, plan_cost, EveryPlanCostsAtLeast, HasNoPlan};
ghost use Rattle.reduction_classes.specs.Classes.{AreClassesFor, staying};
ghost use Rattle.reduction_classes.specs.Reduced.{reduced_task, reduced_state};
ghost use Rattle.reduction_classes.specs.Lamp.{fact, operator, road_with_lamp, with_one_variable};

/// Proves that the image of a plan is a plan of the reduced task at the same cost, whatever the classes are, and hence
/// that lower bounds for the reduced task are lower bounds for the task.
pub fn reduced_task_has_bounds_of_task()
    ensures plans { (task : FiniteDomainTask) (classes : List (List ℕ)) → IsTask task → AreClassesFor (ranges task) classes →
        (plan : List ℕ) → IsPlan task plan →
        IsPlan (reduced_task classes task) plan × (plan_cost (reduced_task classes task) plan ≡ plan_cost task plan) }
    ensures bound { (task : FiniteDomainTask) (classes : List (List ℕ)) → IsTask task → AreClassesFor (ranges task) classes →
        (bound : Distance) → EveryPlanCostsAtLeast (reduced_task classes task) bound → EveryPlanCostsAtLeast task bound }
    ensures none { (task : FiniteDomainTask) (classes : List (List ℕ)) → IsTask task → AreClassesFor (ranges task) classes →
        HasNoPlan (reduced_task classes task) → HasNoPlan task }
{}

/// Proves that the reduced task is a task: its initial state, goal, preconditions and effects are within its ranges.
pub fn reduced_task_is_task()
    ensures { (task : FiniteDomainTask) (classes : List (List ℕ)) → IsTask task → AreClassesFor (ranges task) classes →
        IsTask (reduced_task classes task) }
{}

/// Proves that an operator that applies in a state applies in its image and results in the image of the successor, and
/// that images of goal states are goal states.
pub fn images_follow_steps()
    ensures steps { (task : FiniteDomainTask) (classes : List (List ℕ)) → IsTask task → AreClassesFor (ranges task) classes →
        (state next : List ℕ) (o : ℕ) → IsState (ranges task) state → step task state o ≡ Some next →
        step (reduced_task classes task) (reduced_state classes state) o ≡ Some (reduced_state classes next) }
    ensures goals { (task : FiniteDomainTask) (classes : List (List ℕ)) → IsTask task → AreClassesFor (ranges task) classes →
        (state : List ℕ) → is_goal_state task state ≡ true →
        is_goal_state (reduced_task classes task) (reduced_state classes state) ≡ true }
{}

/// Proves worked examples, on a road with a lamp that no goal needs: with the lamp's values in one class it is left
/// out; if also the first two locations are one class, the first operator changes nothing; with all values apart both
/// variables stay, and so does one with a single value.
pub fn worked_road_with_lamp()
    ensures lamp_left_out { reduced_task ((0 ∷ 1 ∷ 2 ∷ []) ∷ (0 ∷ 0 ∷ []) ∷ []) road_with_lamp ≡
        with_one_variable ([] ∷ [] ∷ [] ∷ []) 0 2 (operator [] (fact 0 0 ∷ []) (fact 0 1 ∷ []) ∷
        operator [] (fact 0 1 ∷ []) (fact 0 2 ∷ []) ∷ operator [] [] [] ∷ operator [] [] [] ∷ []) }
    ensures locations_merged { reduced_task ((0 ∷ 0 ∷ 1 ∷ []) ∷ (0 ∷ 0 ∷ []) ∷ []) road_with_lamp ≡
        with_one_variable ([] ∷ [] ∷ []) 0 1 (operator [] (fact 0 0 ∷ []) (fact 0 0 ∷ []) ∷
        operator [] (fact 0 0 ∷ []) (fact 0 1 ∷ []) ∷ operator [] [] [] ∷ operator [] [] [] ∷ []) }
    ensures all_apart { staying ((0 ∷ 1 ∷ 2 ∷ []) ∷ (0 ∷ 1 ∷ []) ∷ []) ≡ 0 ∷ 1 ∷ [] }
    ensures single_value_stays { staying ((0 ∷ 1 ∷ []) ∷ (0 ∷ []) ∷ []) ≡ 0 ∷ 1 ∷ [] }
    ensures single_value_left_out { staying ((0 ∷ 1 ∷ 1 ∷ []) ∷ (0 ∷ []) ∷ []) ≡ 0 ∷ [] }
{}
