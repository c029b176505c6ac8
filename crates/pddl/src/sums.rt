//! Upper bounds on the costs of actions.

ghost use Rattle.std.specs.Prelude.{◌≡◌, ◌==◌, ◌&&◌, if◌then◌else◌, ℕ, length, nat_lt, sum_by, IfOk, OnOk};
ghost use Rattle.pddl_syntax.specs.Faults.{first_of};
ghost use Rattle.pddl_problem.specs.Initial.{values_of};
ghost use Rattle.pddl.specs.Sums as spec;
ghost use Rattle.pddl_task.specs.Limits.{max_cost};

use indexmap::IndexMap;
use pddl_syntax::{Fault, FaultKind, blame_if};
use pddl_task::{ActionSchema, GroundAtom, Increase};
use std::alloc::{AllocError, Global};

/// The greatest cost that an action may have.
const MAX_COST: u64 = 2_147_483_647;

/// The greatest value found so far of each function that has a value.
type GreatestValues = IndexMap<usize, u64>;

/// Returns the greatest value of a function, or 0 if it has none.
fn value_of(greatest: &GreatestValues, function: usize) -> u64
    ensures { result ≡ spec.known_value greatest.now.entries function }
{
    greatest.get(&function).copied().unwrap_or(0)
}

/// Stores a value of a function if it is the greatest so far.
fn keep_value(greatest: &mut GreatestValues, function: usize, value: u64) -> Result<(), AllocError>
    ensures { (other : ℕ) → OnOk result (spec.known_value greatest.new.entries other
        ≡ (if function == other && nat_lt (spec.known_value greatest.old.entries other) value then value else spec.known_value greatest.old.entries other)) }
{
    if value_of(greatest, function) < value {
        greatest.insert(function, value)?;
    }
    Ok(())
}

/// Returns the greatest of each function's initial values. Takes one pass over the values, whatever the number of
/// schemas.
fn greatest_values(
    alloc: Global,
    values: &IndexMap<GroundAtom, u64>,
) -> Result<GreatestValues, AllocError>
    ensures { IfOk result (λ g. spec.AreGreatest g.entries (values_of values.now.entries)) }
{
    let mut greatest = IndexMap::new(alloc);
    for (function, value) in values {
        keep_value(&mut greatest, function.predicate, *value)?;
    }
    Ok(greatest)
}

fn most_of(greatest: &GreatestValues, increase: &Increase) -> u64
    ensures { result ≡ spec.most_known greatest.now.entries increase.now }
{
    match increase {
        Increase::Amount(amount) => *amount,
        Increase::Value(function) => value_of(greatest, function.predicate),
    }
}

/// Returns whether the increases may sum to more than an action may cost. Computes no sum above that bound.
fn cost_too_much(greatest: &GreatestValues, increases: &[Increase]) -> bool
    ensures { result ≡ nat_lt max_cost (sum_by (spec.most_known greatest.now.entries) increases.now) }
{
    let mut left = MAX_COST;
    for increase in increases {
        let most = most_of(greatest, increase);
        if left < most {
            return true;
        }
        left -= most;
    }
    false
}

/// Records F17 for each schema whose actions may cost too much, at its byte offset in `places`.
#[tactic(auto, unfolding(pddl_syntax::specs::Faults::first_of))]
fn blame_schemas(
    greatest: &GreatestValues,
    schemas: &[ActionSchema],
    places: &[usize],
    first: &mut Option<Fault>,
)
    requires { length schemas.now ≡ length places.now }
    ensures { first.new ≡ first_of first.old (spec.sum_faults (spec.most_known greatest.now.entries) schemas.now places.now) }
{
    for (schema, place) in schemas.iter().zip(places) {
        blame_if(
            cost_too_much(greatest, &schema.increases),
            first,
            *place,
            FaultKind::CostRange,
        );
    }
}

/// Records F17 in `first` for each schema whose actions may cost too much, at its byte offset in `places`. Takes time
/// linear in the number of values, schemas and increases.
pub fn blame_sums(
    alloc: Global,
    values: &IndexMap<GroundAtom, u64>,
    schemas: &[ActionSchema],
    places: &[usize],
    first: &mut Option<Fault>,
) -> Result<(), AllocError>
    requires { length schemas.now ≡ length places.now }
    ensures { OnOk result (first.new ≡ first_of first.old (spec.stated_sum_faults (values_of values.now.entries) schemas.now places.now)) }
{
    let greatest = greatest_values(alloc, values)?;
    blame_schemas(&greatest, schemas, places, first);
    Ok(())
}
