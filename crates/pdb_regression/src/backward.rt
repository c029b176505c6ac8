//! Projections whose transitions can be followed backwards.

ghost use Rattle.std.specs.Prelude.{◌≡◌, IfOk};

use crate::transitions::ProjectionTransitions;
use abstraction::{Abstraction, Projection};
use abstraction_groups::{BackwardAbstraction, OperatorIndex};
use std::alloc::{AllocError, Global};
use std::marker::Model;

/// A projection whose transitions can be followed backwards (regression). In contracts its value is the projection.
///
/// Operators that make the same changes to the values of the pattern are one class.
#[derive(Drop)]
pub struct BackwardProjection<'a> {
    transitions: ProjectionTransitions<'a>,
}

impl<'a> Model for BackwardProjection<'a> {
    ghost use Rattle.abstraction.specs.Projections.{Projection};

    ghost Value = { Projection };

    ghost view = { λ b. b.transitions };
}

impl<'a> BackwardProjection<'a> {
    /// Prepares a projection of the indexed task for regression. Time and memory are linear in the number of the
    /// pattern's variables for each operator with an effect on the pattern; each value of a variable with 4 values or
    /// more takes a list.
    pub fn new(
        alloc: Global,
        projection: &'a Projection<'a>,
        index: &OperatorIndex<'_>,
    ) -> Result<BackwardProjection<'a>, AllocError>
        requires { index.now ≡ projection.now.task }
        ensures { IfOk result (λ b. b ≡ projection.now) }
    {
        let transitions = ProjectionTransitions::new(alloc, projection, index)?;
        Ok(BackwardProjection { transitions })
    }
}

impl<'a> Abstraction for BackwardProjection<'a> {
    ghost use Rattle.abstraction.specs.Projections as projections;
    ghost use Rattle.abstraction.specs.ProjectionLaws.{projection_abstracts};

    ghost task = { λ b. b.task };

    ghost abstraction = { λ b. projections.projection b.task b.pattern };

    ghost abstracts = { λ b. projection_abstracts b.task b.is_task b.pattern b.exist };

    ghost is_small = { λ b. b.small };

    fn size(&self) -> usize {
        self.transitions.projection().size()
    }

    fn index(&self, state: &[u32]) -> usize {
        self.transitions.projection().index(state)
    }

    fn transition(&self, abstract_state: usize, operator: usize) -> Option<usize> {
        self.transitions
            .projection()
            .transition(abstract_state, operator)
    }

    fn touches(&self, operator: usize) -> bool {
        self.transitions.projection().touches(operator)
    }

    fn is_goal(&self, abstract_state: usize) -> bool {
        self.transitions.projection().is_goal(abstract_state)
    }
}

impl<'a> BackwardAbstraction for BackwardProjection<'a> {
    type Transitions = ProjectionTransitions<'a>;

    fn transitions(&self) -> &ProjectionTransitions<'a> {
        &self.transitions
    }
}
