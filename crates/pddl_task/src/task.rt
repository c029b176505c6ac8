//! Planning tasks and their ground actions.
ghost use Rattle.std.specs.Prelude.{◌≡◌, ◌<◌, ◌^◌, IfOk, IsTrue, length, nat_lt, slice_get, slice_index};
ghost use Rattle.std.specs.List.{list_all};
ghost use Rattle.std.specs.Option.{SomeIff, option_copied};
ghost use Rattle.indexmap.specs.IndexMap.{values};
ghost use Rattle.pddl_task.specs.Planning.{is_below, is_of_type, fits, value_of, has_values, has_instance, sum_of_increases, cost_of_schema, action_of, has_small_costs, has_small_values};

use crate::action::GroundAction;
use crate::atom::{GroundAtom, GroundLiteral};
use crate::schema::{ActionSchema, Increase, SMALL, atoms_of, have_small_increases, literals_of};
use crate::vocabulary::Vocabulary;
use indexmap::IndexMap;
use smallvec::SmallVec;
use std::alloc::{AllocError, Global};
use std::marker::Model;

/// A planning task. The numbers of types, objects, predicates and schemas are their indices in the lists below, and
/// those of functions their indices in the vocabulary.
#[derive(Debug, Drop)]
pub struct Task {
    /// The supertype of each type. Type 0 is `object`, its own supertype.
    pub supertypes: Vec<usize>,
    /// The type of each object.
    pub object_types: Vec<usize>,
    /// The number of objects that each predicate takes.
    pub arities: Vec<usize>,
    /// The action schemas.
    pub schemas: Vec<ActionSchema>,
    /// The atoms that are true initially.
    pub initial: Vec<GroundAtom>,
    /// The literals that must hold at the end of a plan.
    pub goal: Vec<GroundLiteral>,
    /// The initial values of the functions.
    pub values: IndexMap<GroundAtom, u64>,
    /// Whether the metric is the total cost. Then an action costs the sum of its increases; otherwise each action costs
    /// 1.
    pub metric: bool,
    /// The names of the objects, predicates, functions and schemas.
    pub vocabulary: Vocabulary,
}

impl Model for Task {
    ghost use Rattle.std.specs.Prelude.{map};
    ghost use Rattle.pddl_task.specs.Planning.{PlanningTask};

    ghost Value = { PlanningTask };

    ghost view = { λ t. record {
      supertypes = t.supertypes.items;
      object_types = t.object_types.items;
      arities = t.arities.items;
      schemas = t.schemas.items;
      initial = t.initial.items;
      goal = t.goal.items;
      values = map (λ e. record { function = e.0; value = e.1 }) t.values.entries;
      metric = t.metric;
      vocabulary = t.vocabulary;
    } };
}

impl Task {
    /// Returns the schema with this number, or `None` if there is none.
    pub fn schema(&self, number: usize) -> Option<&ActionSchema>
        ensures { option_copied result ≡ slice_get self.now.schemas number }
    {
        self.schemas.get(number)
    }

    /// Returns whether the object exists and belongs to the type. Takes time linear in the depth of the object's type
    /// below `object`.
    pub fn is_of_type(&self, type_number: usize, object: usize) -> bool
        ensures { result ≡ is_of_type self.now type_number object }
    {
        match self.object_types.get(object) {
            Some(own) => is_below(&self.supertypes, *own, type_number),
            None => false,
        }
    }

    /// Returns whether there are as many objects as types, and each object belongs to the type at its index.
    pub fn fits(&self, types: &[usize], objects: &[usize]) -> bool
        ensures { result ≡ fits self.now types.now objects.now }
    {
        if types.len() != objects.len() {
            return false;
        }
        for (type_number, object) in types.iter().zip(objects) {
            if !self.is_of_type(*type_number, *object) {
                return false;
            }
        }
        true
    }

    /// Returns the amount of an increase: its number, or the initial value of its function with `objects` for the
    /// parameters, which is `None` if the function has no value there.
    pub fn value_of(
        &self,
        alloc: Global,
        objects: &[usize],
        increase: &Increase,
    ) -> Result<Option<u64>, AllocError>
        ensures { IfOk result (λ v. v ≡ value_of self.now objects.now increase.now) }
    {
        match increase {
            Increase::Amount(amount) => Ok(Some(*amount)),
            Increase::Value(atom) => {
                let atom = atom.instance(alloc, objects)?;
                Ok(self.values.get(&atom).copied())
            }
        }
    }

    /// Returns whether each increase has an amount with `objects` for the parameters.
    fn has_values(
        &self,
        alloc: Global,
        objects: &[usize],
        increases: &[Increase],
    ) -> Result<bool, AllocError>
        ensures { IfOk result (λ b. b ≡ has_values self.now objects.now increases.now) }
    {
        for increase in increases {
            if self.value_of(alloc, objects, increase)?.is_none() {
                return Ok(false);
            }
        }
        Ok(true)
    }

    /// Returns whether the schema has a ground action for `objects`: they fit its parameters, its equality conditions
    /// hold and, under the metric, each of its increases has an amount.
    pub fn has_instance(
        &self,
        alloc: Global,
        schema: &ActionSchema,
        objects: &[usize],
    ) -> Result<bool, AllocError>
        ensures { IfOk result (λ b. b ≡ has_instance self.now schema.now objects.now) }
    {
        if !self.fits(&schema.parameters, objects) {
            return Ok(false);
        }
        if !schema.equalities_hold(objects) {
            return Ok(false);
        }
        if !self.metric {
            return Ok(true);
        }
        self.has_values(alloc, objects, &schema.increases)
    }

    /// Returns the cost of the schema's ground action for `objects`: under the metric the sum of the increases,
    /// counting one without an amount as 0, and 1 otherwise. Returns `None` exactly if the cost is 2^64 or more.
    pub fn cost_of(
        &self,
        alloc: Global,
        schema: &ActionSchema,
        objects: &[usize],
    ) -> Result<Option<u64>, AllocError>
        ensures { IfOk result (λ c. let cost = cost_of_schema self.now objects.now schema.now.increases in
            SomeIff c (cost < 2 ^ 64) cost) }
    {
        if !self.metric {
            return Ok(Some(1));
        }
        self.sum_of(alloc, objects, &schema.increases)
    }

    /// Returns the sum of the increases, counting one without an amount as 0, or `None` exactly if it is 2^64 or more.
    fn sum_of(
        &self,
        alloc: Global,
        objects: &[usize],
        increases: &[Increase],
    ) -> Result<Option<u64>, AllocError>
        ensures { IfOk result (λ c. let cost = sum_of_increases self.now objects.now increases.now in
            SomeIff c (cost < 2 ^ 64) cost) }
    {
        let mut sum: u64 = 0;
        for increase in increases {
            let amount = self.value_of(alloc, objects, increase)?.unwrap_or(0);
            match sum.checked_add(amount) {
                Some(more) => sum = more,
                None => return Ok(None),
            }
        }
        Ok(Some(sum))
    }

    /// Returns whether each initial value and each amount is below 2^32, and each schema has fewer than 2^31 increases.
    /// Then each action costs less than 2^63.
    pub fn has_small_costs(&self) -> bool
        ensures { result ≡ has_small_costs self.now }
    {
        self.has_small_values() && have_small_increases(&self.schemas)
    }

    /// Returns whether each initial value is below 2^32.
    fn has_small_values(&self) -> bool
        ensures { result ≡ has_small_values self.now }
    {
        are_small(&self.values)
    }

    /// Returns the cost of the schema's ground action for `objects`, which must be below 2^64.
    fn exact_cost_of(
        &self,
        alloc: Global,
        schema: &ActionSchema,
        objects: &[usize],
    ) -> Result<u64, AllocError>
        requires { cost_of_schema self.now objects.now schema.now.increases < 2 ^ 64 }
        ensures { IfOk result (λ c. c ≡ cost_of_schema self.now objects.now schema.now.increases) }
    {
        Ok(self.cost_of(alloc, schema, objects)?.unwrap())
    }

    /// Returns the ground action of the schema with this number for `objects`, or `None` if there is no such schema or
    /// action.
    pub fn action_of(
        &self,
        alloc: Global,
        number: usize,
        objects: &[usize],
    ) -> Result<Option<GroundAction>, AllocError>
        requires { IsTrue (has_small_costs self.now) }
        ensures { IfOk result (λ a. a ≡ action_of self.now number objects.now) }
    {
        let Some(schema) = self.schema(number) else {
            return Ok(None);
        };
        if !self.has_instance(alloc, schema, objects)? {
            return Ok(None);
        }
        Ok(Some(GroundAction {
            schema: number,
            objects: SmallVec::from_slice(alloc, objects)?,
            precondition: literals_of(alloc, objects, &schema.precondition)?,
            adds: atoms_of(alloc, objects, true, &schema.effect)?,
            deletes: atoms_of(alloc, objects, false, &schema.effect)?,
            cost: self.exact_cost_of(alloc, schema, objects)?,
        }))
    }
}

/// Returns whether a type is `other` or has it among its ancestors. The walk from supertype to supertype ends at a type
/// that is its own supertype.
fn is_below(supertypes: &[usize], type_number: usize, other: usize) -> bool
    ensures { result ≡ is_below supertypes.now type_number other (length supertypes.now) }
{
    let mut current = type_number;
    for step in 0..supertypes.len() {
        if current == other {
            return true;
        }
        let next = supertype_of(supertypes, current);
        if next == current {
            return false;
        }
        current = next;
    }
    current == other
}

/// Returns the supertype of a type, or 0 for a number past the end of the list.
fn supertype_of(supertypes: &[usize], type_number: usize) -> usize
    ensures { result ≡ slice_index supertypes.now type_number }
{
    supertypes.get(type_number).copied().unwrap_or(0)
}

/// Returns whether each value of the map is below 2^32.
fn are_small(stated: &IndexMap<GroundAtom, u64>) -> bool
    ensures { result ≡ list_all (λ v. nat_lt v (2 ^ 32)) (values stated.now) }
{
    stated.values().all(|value| *value < SMALL)
}
