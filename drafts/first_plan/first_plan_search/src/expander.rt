//! The expansion of states.

ghost use Rattle.std.specs.Prelude.{◌≡◌, ◌<◌, length, IfOk, IfSome};
ghost use Rattle.fdr.specs.Tasks.{ranges};

use crate::known::Known;
use crate::problem::Problem;
use packed::StateForm;
use scp::Places;
use std::alloc::{AllocError, Global};
use std::marker::Model;

/// Finds the operators that apply in a state, and the heuristic values of its successors. The same value is used for
/// one state after the other. In contracts its value is the task.
#[derive(Drop)]
pub struct Expander<'a> {
    problem: &'a Problem<'a>,
    /// The state that was entered last.
    places: Places<'a>,
    /// A buffer for the values of a state.
    state: Vec<u32>,
    /// The operators that apply in the state.
    applicable: Vec<usize>,
}

impl<'a> Model for Expander<'a> {
    ghost use Rattle.fdr.specs.Tasks.{FiniteDomainTask};
    ghost use Rattle.first_plan_search.specs.Expanding.{IsExpanding};

    ghost Value = { FiniteDomainTask };

    ghost view = { λ e. e.problem.now };

    ghost invariant = { λ e. IsExpanding e.problem.now e.places e.state.items e.applicable.items };
}

impl<'a> Expander<'a> {
    /// Returns what expands the problem's states. No operators are found yet.
    pub fn new(alloc: Global, problem: &'a Problem<'a>) -> Result<Expander<'a>, AllocError>
        ensures { IfOk result (λ e. e ≡ problem.now) }
    {
        let places = problem.columns().places(alloc)?;
        let state = Vec::from_slice(alloc, problem.task().initial())?;
        Ok(Expander {
            problem,
            places,
            state,
            applicable: Vec::new(alloc),
        })
    }

    /// Returns the problem.
    pub fn problem(&self) -> &'a Problem<'a>
        ensures { result.now ≡ self.now }
    {
        self.problem
    }

    /// Finds the operators that apply in the state at the index; there are none if there is no such state. After
    /// an error there are none either.
    pub fn enter<F: StateForm + Drop>(
        &mut self,
        known: &Known<'_, F>,
        index: usize,
    ) -> Result<(), AllocError>
        requires { known.now ≡ self.old }
        ensures { self.new ≡ self.old }
    {
        self.applicable.clear();
        if known.unpack(index, &mut self.state) {
            self.places.enter(&self.state);
            let generator = self.problem.generator();
            generator.applicable(&self.state, &mut self.applicable)?;
        }
        Ok(())
    }

    /// Returns the operator at the position among those that apply, or `None` past the last one.
    pub fn operator(&self, position: usize) -> Option<usize>
        ensures { IfSome result (λ o. o < length self.now.operators) }
    {
        self.applicable.get(position).copied()
    }

    /// Returns the number of operators that apply.
    pub fn len(&self) -> usize {
        self.applicable.len()
    }

    /// Returns the heuristic value of the successor by the operator at the position among those that apply, or `None` if
    /// it is infinite or there is no such operator.
    pub fn h(&mut self, position: usize) -> Option<u64>
        ensures { self.new ≡ self.old }
    {
        let operator = self.applicable.get(position).copied()?;
        self.places.h_after(operator).get()
    }
}
