//! Worked examples of groups.

ghost use Rattle.std.specs.Prelude.{◌≡◌, [], ◌∷◌};
ghost use Rattle.mutex.specs.Candidates.{bound_at, free_part, candidates, proposed_groups};
ghost use Rattle.mutex.specs.Examples.{two_balls, with_two_balls};

/// Proves a worked example: with two balls, two rooms and a gripper the candidates with a parameter are, by predicate:
/// in with the ball bound, in with the room bound, held; then in and held in both ways. The candidates without one are
/// held, free, and both. Three groups are proposed: for each ball that it is in a room or held, and that one ball is
/// held or the gripper is free.
pub fn worked_balls()
    ensures candidates { candidates two_balls ≡ (bound_at 0 0 ∷ []) ∷ (bound_at 0 1 ∷ []) ∷ (bound_at 1 0 ∷ [])
        ∷ (bound_at 0 0 ∷ bound_at 1 0 ∷ []) ∷ (bound_at 0 1 ∷ bound_at 1 0 ∷ [])
        ∷ (free_part 1 ∷ []) ∷ (free_part 2 ∷ []) ∷ (free_part 1 ∷ free_part 2 ∷ []) ∷ [] }
    ensures groups { proposed_groups with_two_balls ≡ (0 ∷ 1 ∷ 4 ∷ []) ∷ (2 ∷ 3 ∷ 5 ∷ []) ∷ (4 ∷ 5 ∷ 6 ∷ []) ∷ [] }
{}
