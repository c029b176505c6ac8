//! Laws of the ends of searches.

ghost use Rattle.std.specs.Prelude.{◌≡◌, ◌↔◌, ℕ, Some};
ghost use Rattle.cost.specs.Distances.{Distance, Finite};
ghost use Rattle.owner_theory.specs.Owners.{Node};
ghost use Rattle.owner_theory.specs.Families.{Family, IsSearchSpace, IsSettled};
ghost use Rattle.extract.specs.Ends.{EndOf, IsForm, IsEndOf, IsSettledAt, IsBestGoal, IsGoalNodeAt, space_at};

use packed_spread::Spread;

/// Proves that an end is settled at a bound exactly if each lawful family with this end is.
pub fn settled_as_family<S: Spread + Drop>()
    ensures { (e : EndOf S) (family : Family) (bound : Distance) → IsForm e → IsEndOf S.owner e family →
        (IsSettledAt (space_at S.owner e) e.owners e.left bound ↔ IsSettled (space_at S.owner e) family bound) }
{}

/// Proves that if the end of a lawful family is settled at a finite cost, its best goal node has that cost.
pub fn best_goal_costs_bound<S: Spread + Drop>()
    ensures { (e : EndOf S) (family : Family) (v i cost : ℕ) → IsSearchSpace (space_at S.owner e) → IsForm e →
        IsEndOf S.owner e family → IsBestGoal e (Some (v, i)) →
        IsSettledAt (space_at S.owner e) e.owners e.left (Finite cost) →
        (n : Node) × IsGoalNodeAt e v i n × (n.cost ≡ cost) }
{}
