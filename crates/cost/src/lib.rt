//! Action costs, and distances that are numbers or infinite, with sums that are exact or refused.
//! A plan's cost is the sum of its actions' costs (Fox and Long 2003, plan metrics).
#![tactic(auto)]

ghost use Rattle.std.specs.Prelude.{◌≡◌, ◌≤◌, ◌↔◌, IsTrue, IfSome, IfNone};
ghost use Rattle.std.specs.Option.{SomeIff};
ghost use Rattle.cost.specs.Distances.{Finite, Infinite, ◌+ᵈ◌, IsPast, IsWithin, distance_of};

use std::cmp::Ordering;
use std::fmt;
use std::marker::Model;

/// The greatest cost of an operator, 2^31 - 1.
pub const MAX_COST: u64 = 2_147_483_647;

/// The greatest finite distance, 2^63.
pub const MAX_DISTANCE: u64 = 9_223_372_036_854_775_808;

/// The cost of an operator: a whole number from 0 to 2147483647. In contracts its value is that number.
#[derive(Clone, Copy, Debug, PartialEq, Eq, PartialOrd, Ord, Hash)]
pub struct Cost {
    value: u32,
}

impl Model for Cost {
    ghost use Rattle.std.specs.Prelude.{ℕ, ◌≤◌};
    ghost use Rattle.cost.specs.declared.TheConstants.{MAX_COST};

    ghost Value = { ℕ };

    ghost view = { λ c. c.value };

    ghost invariant = { λ c. c.value ≤ MAX_COST };

    ghost inverse = { λ n. record { value = n } };
}

impl Cost {
    /// The cost 0.
    pub const ZERO: Cost = Cost { value: 0 };

    /// The cost 1, which every operator has if the task states no costs.
    pub const ONE: Cost = Cost { value: 1 };

    /// Returns the cost `value`, or `None` if it is greater than `MAX_COST`.
    pub fn new(value: u64) -> Option<Cost>
        ensures { SomeIff result (value ≤ MAX_COST) value }
    {
        if value <= MAX_COST {
            Some(Cost {
                value: value as u32,
            })
        } else {
            None
        }
    }

    /// Returns the cost as a number.
    pub fn get(self) -> u64
        ensures value { result ≡ self }
        ensures bound { result ≤ MAX_COST }
    {
        u64::from(self.value)
    }
}

impl fmt::Display for Cost {
    ghost use Rattle.std.specs.Prelude.{Some, decimal};

    ghost output = { λ cost. Some (decimal cost) };

    fn fmt<W: fmt::Write>(&self, f: &mut fmt::Formatter<W>) -> fmt::Result {
        write!(f, "{}", self.value)
    }
}

/// A finite distance, or infinity.
#[derive(Clone, Copy, Debug, PartialEq, Eq, PartialOrd, Ord, Hash)]
enum Value {
    Finite(u64),
    Infinite,
}

/// The distance of a state to a goal, or a bound on it: a whole number from 0 to 2^63, or infinite if no goal can be
/// reached. In contracts its value is a `Distance`.
#[derive(Clone, Copy, Debug, PartialEq, Eq, Hash)]
pub struct Dist {
    value: Value,
}

impl Model for Dist {
    ghost use Rattle.cost.specs.Distances.{Distance, IsWithin, distance_in, kept, kept-distance_in};
    ghost use Rattle.cost.specs.declared.TheConstants.{MAX_DISTANCE};

    ghost Value = { Distance };

    ghost view = { λ d. distance_in d.value };

    ghost invariant = { λ d. IsWithin MAX_DISTANCE (distance_in d.value) };

    ghost inverse = { λ d. record { value = kept d } };

    ghost inverse_ok = { λ a h i. record { value = kept-distance_in a.value i } };
}

impl Dist {
    /// The distance 0, that of a goal to itself.
    pub const ZERO: Dist = Dist {
        value: Value::Finite(0),
    };

    /// Returns the finite distance `value`, or `None` if it is greater than `MAX_DISTANCE`.
    pub fn fin(value: u64) -> Option<Dist>
        ensures { SomeIff result (value ≤ MAX_DISTANCE) (Finite value) }
    {
        if value <= MAX_DISTANCE {
            Some(Dist {
                value: Value::Finite(value),
            })
        } else {
            None
        }
    }

    /// Returns the infinite distance.
    pub fn inf() -> Dist
        ensures { result ≡ Infinite }
    {
        Dist {
            value: Value::Infinite,
        }
    }

    /// Returns the number, or `None` if the distance is infinite.
    pub fn get(self) -> Option<u64>
        ensures value { self ≡ distance_of result }
        ensures bound { IfSome result (λ value. value ≤ MAX_DISTANCE) }
    {
        match self.value {
            Value::Finite(value) => Some(value),
            Value::Infinite => None,
        }
    }

    /// Returns the sum of the distance and the cost of one more action, or `None` if the sum is a number greater than
    /// `MAX_DISTANCE`.
    pub fn plus(self, cost: Cost) -> Option<Dist>
        ensures sum { SomeIff result (IsWithin MAX_DISTANCE (self +ᵈ Finite cost)) (self +ᵈ Finite cost) }
        ensures past { IfNone result (IsPast MAX_DISTANCE (self +ᵈ Finite cost)) }
    {
        self.sum(Dist::from(cost))
    }

    /// Returns the sum of two distances, or `None` if it is a number greater than `MAX_DISTANCE`.
    pub fn sum(self, other: Dist) -> Option<Dist>
        ensures sum { SomeIff result (IsWithin MAX_DISTANCE (self +ᵈ other)) (self +ᵈ other) }
        ensures past { IfNone result (IsPast MAX_DISTANCE (self +ᵈ other)) }
    {
        match (self.value, other.value) {
            (Value::Finite(a), Value::Finite(b)) => Dist::fin(a.checked_add(b)?),
            _ => Some(Dist::inf()),
        }
    }

    /// Returns whether the distance is infinite, that is, no goal can be reached.
    pub fn is_infinite(self) -> bool
        ensures { IsTrue result ↔ (self ≡ Infinite) }
    {
        matches!(self.value, Value::Infinite)
    }
}

impl From<Cost> for Dist {
    ghost use Rattle.std.specs.Prelude.{◌≡◌};
    ghost use Rattle.cost.specs.Distances.{Finite};

    ghost from_gives = { λ cost d. d ≡ Finite cost };

    fn from(cost: Cost) -> Dist {
        Dist {
            value: Value::Finite(cost.get()),
        }
    }
}

/// Finite distances are ordered as numbers, and the infinite distance is greater than all of them.
impl Ord for Dist {
    ghost use Rattle.std.specs.Prelude.{refl};
    ghost use Rattle.std.specs.Cmp.{unsigned_ties};
    ghost use Rattle.cost.specs.Distances.{Finite, Infinite, distance_cmp};
    ghost use Rattle.cost.specs.DistanceOrder.{distance_cmp_total};

    ghost cmp = { distance_cmp };

    ghost total = { distance_cmp_total };

    ghost matches_partial_cmp = { λ x y. refl };

    ghost matches_eq = { elim [
      | Finite m ↦ elim [ Finite n ↦ unsigned_ties m n | Infinite ↦ refl ]
      | Infinite ↦ elim [ Finite n ↦ refl | Infinite ↦ refl ]
    ] };

    fn cmp(&self, other: &Dist) -> Ordering {
        self.value.cmp(&other.value)
    }
}

impl PartialOrd for Dist {
    ghost use Rattle.std.specs.Prelude.{refl};
    ghost use Rattle.std.specs.Ordering.{as_partial_cmp};
    ghost use Rattle.std.specs.Cmp.{po, unsigned_ties};
    ghost use Rattle.cost.specs.Distances.{Finite, Infinite, distance_cmp};
    ghost use Rattle.cost.specs.DistanceOrder.{distance_cmp_total};

    ghost partial_cmp = { as_partial_cmp distance_cmp };

    ghost laws = { po distance_cmp_total (elim [
      | Finite m ↦ elim [ Finite n ↦ unsigned_ties m n | Infinite ↦ refl ]
      | Infinite ↦ elim [ Finite n ↦ refl | Infinite ↦ refl ]
    ]) };

    fn partial_cmp(&self, other: &Dist) -> Option<Ordering> {
        Some(self.cmp(other))
    }
}

impl fmt::Display for Dist {
    ghost use Rattle.std.specs.Prelude.{Some};
    ghost use Rattle.cost.specs.Distances.{distance_text};

    ghost output = { λ d. Some (distance_text d) };

    fn fmt<W: fmt::Write>(&self, f: &mut fmt::Formatter<W>) -> fmt::Result {
        match self.value {
            Value::Finite(value) => write!(f, "{value}"),
            Value::Infinite => write!(f, "inf"),
        }
    }
}
