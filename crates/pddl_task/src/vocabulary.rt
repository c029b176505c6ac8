//! The names of a planning task.
use pddl_names::Names;
use std::marker::Model;

/// The names of objects, predicates, functions and schemas, each in the order of their numbers.
#[derive(Debug, Drop)]
pub struct Vocabulary {
    pub objects: Names,
    pub predicates: Names,
    pub functions: Names,
    pub schemas: Names,
}

impl Model for Vocabulary {
    ghost use Rattle.pddl_task.specs.Planning.{Vocabulary as NameLists};

    ghost Value = { NameLists };

    ghost view = { λ v. record {
      objects = v.objects;
      predicates = v.predicates;
      functions = v.functions;
      schemas = v.schemas;
    } };
}
