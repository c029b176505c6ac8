//! The declarations of a domain that its actions use.

ghost use Rattle.std.specs.Prelude.{◌≡◌};

use pddl_names::Names;
use pddl_syntax::{Heads, Types};
use pddl_terms::Scope;
use std::marker::Model;

/// The declarations of a domain that its actions use. Of the objects, only the constants are visible in actions.
#[derive(Drop)]
pub struct Declarations {
    pub types: Types,
    pub predicates: Heads,
    pub functions: Heads,
    pub objects: Names,
}

impl Model for Declarations {
    ghost use Rattle.pddl_action.specs.Domains as spec;

    ghost Value = { spec.Declarations };

    ghost view = { λ d. record
        { types = d.types.names; supertypes = d.types.supertypes.items; predicates = d.predicates; functions = d.functions; objects = d.objects } };
}

impl Declarations {
    ghost use Rattle.pddl_action.specs.Actions.{scope_of};

    /// Returns the declarations that are visible in an action with these parameters.
    pub fn scope<'a>(&'a self, variables: &'a Names) -> Scope<'a>
        ensures { result ≡ scope_of self.now variables.now }
    {
        Scope {
            predicates: &self.predicates,
            functions: &self.functions,
            variables,
            objects: &self.objects,
        }
    }
}
