//! Ground actions.
use crate::atom::{GroundAtom, GroundLiteral};
use smallvec::SmallVec;
use std::marker::Model;

/// A ground action: the number of its schema, one object for each parameter, and the precondition, the effects and the
/// cost that they determine in a task.
#[derive(Debug, Drop)]
pub struct GroundAction {
    /// The number of the schema.
    pub schema: usize,
    /// The number of the object for each parameter, in the order of the parameters.
    pub objects: SmallVec<usize, 4>,
    /// The literals that must hold before the action.
    pub precondition: Vec<GroundLiteral>,
    /// The add effects: the atoms that are true after the action.
    pub adds: Vec<GroundAtom>,
    /// The delete effects: the atoms that are false after the action, unless it also adds them.
    pub deletes: Vec<GroundAtom>,
    pub cost: u64,
}

impl Model for GroundAction {
    ghost use Rattle.pddl_task.specs.Planning.{Action};

    ghost Value = { Action };

    ghost view = { λ a. record {
      schema = a.schema;
      objects = a.objects.items;
      precondition = a.precondition.items;
      adds = a.adds.items;
      deletes = a.deletes.items;
      cost = a.cost;
    } };
}
