//! Operators of finite-domain tasks.

ghost use Rattle.std.specs.Prelude.{◌≡◌};

use crate::fact::Fact;
use cost::Cost;
use std::marker::Model;

/// An operator. It applies in the states in which each fact of its precondition holds. In the successor the variables
/// of its effect have the effect's values, and all others keep theirs. The prevail conditions are the facts of the
/// precondition on variables that the effect does not name.
#[derive(Debug, Drop)]
pub struct Operator {
    pub name: String,
    /// The facts that must hold. In a task at most one for each variable.
    pub precondition: Vec<Fact>,
    /// The facts that hold afterwards. In a task at most one for each variable.
    pub effect: Vec<Fact>,
    /// The cost under the metric. Without the metric each operator costs 1.
    pub cost: Cost,
}

impl Model for Operator {
    ghost use Rattle.std.specs.Prelude.{string_bytes};
    ghost use Rattle.fdr.specs.Tasks as spec;

    ghost Value = { spec.Operator };

    ghost view = { λ o. record { name = string_bytes o.name; precondition = o.precondition.items; effect = o.effect.items; cost = o.cost } };
}
