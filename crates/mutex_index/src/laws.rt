//! Laws of mutex groups, for every task.

ghost use Rattle.std.specs.Prelude.{◌≡◌, true, List, Some, All, Contains};
ghost use Rattle.std.specs.List.{list_any};
ghost use Rattle.pddl_task.specs.Atoms.{Atom, State, contains, at_most_one};
ghost use Rattle.pddl_task.specs.Planning.{PlanningTask, Action};
ghost use Rattle.pddl_task.specs.Plans.{state_after};
ghost use Rattle.mutex_index.specs.Groups.{is_usable, is_full, is_constant};

/// Proves that, in every state that a sequence of the actions reaches from the initial state, at most one atom of a
/// usable group is true, and at least one atom of a full group.
pub fn groups_are_exclusive()
    ensures one { (task : PlanningTask) (actions : List Action) (group : List Atom) → is_usable task actions group ≡ true →
        (plan : List Action) (state : State) → All (Contains actions) plan →
        state_after (contains task.initial) plan ≡ Some state → at_most_one state group ≡ true }
    ensures some { (task : PlanningTask) (actions : List Action) (group : List Atom) → is_full task actions group ≡ true →
        (plan : List Action) (state : State) → All (Contains actions) plan →
        state_after (contains task.initial) plan ≡ Some state → list_any state group ≡ true }
{}

/// Proves that, in every state that a sequence of the actions reaches from the initial state, each constant atom is
/// true.
pub fn constants_stay_true()
    ensures { (task : PlanningTask) (actions : List Action) (p : Atom) → is_constant task actions p ≡ true →
        (plan : List Action) (state : State) → All (Contains actions) plan →
        state_after (contains task.initial) plan ≡ Some state → state p ≡ true }
{}
