//! Comparisons of costs with bounds.

ghost use Rattle.std.specs.Prelude.{◌≡◌, ◌≤◌, ◌^◌, if◌then◌else◌};
ghost use Rattle.cost.specs.Distances.{Finite, is_at_most, lesser};

use cost::Dist;

/// Returns whether the first distance is at most the second.
pub fn is_within(distance: Dist, other: Dist) -> bool
    ensures { result ≡ is_at_most distance other }
{
    distance <= other
}

/// Returns the distance of a number that is at most 2^63.
pub fn finite(value: u64) -> Dist
    requires { value ≤ 2 ^ 63 }
    ensures { result ≡ Finite value }
{
    Dist::fin(value).unwrap()
}

/// Returns the least cost at which a goal state was taken, including a state taken at `cost` if that is a goal state;
/// `best` is the least cost before.
pub fn best_with(best: Dist, is_goal: bool, cost: u64) -> Dist
    requires { cost ≤ 2 ^ 63 }
    ensures { result ≡ (if is_goal then lesser best (Finite cost) else best) }
{
    if is_goal {
        best.min(finite(cost))
    } else {
        best
    }
}
