//! The states that a search has reached.

ghost use Rattle.std.specs.Prelude.{◌≡◌, ◌<◌, true, length, IfOk, IfSome, OnOk};
ghost use Rattle.fdr.specs.Tasks.{ranges, IsState};

use crate::node::Node;
use crate::problem::Problem;
use indexmap::IndexSet;
use packed::StateForm;
use std::alloc::{AllocError, Global};
use std::marker::Model;

/// The states that a search has reached, in the order in which they were first reached, each with its node. In
/// contracts its value is the task.
#[derive(Drop)]
pub struct Known<'a, F: StateForm + Drop> {
    problem: &'a Problem<'a>,
    forms: IndexSet<F>,
    nodes: Vec<Node>,
}

impl<'a, F: StateForm + Drop> Model for Known<'a, F> {
    ghost use Rattle.fdr.specs.Tasks.{FiniteDomainTask, ranges};
    ghost use Rattle.first_plan_search.specs.Forms.{AreForms};

    ghost Value = { FiniteDomainTask };

    ghost view = { λ k. k.problem.now };

    ghost invariant = { λ k. AreForms F.Fits F.IsForm (ranges k.problem.now) k.forms.keys };
}

impl<'a, F: StateForm + Drop> Known<'a, F> {
    /// Returns no states.
    pub fn new(alloc: Global, problem: &'a Problem<'a>) -> Known<'a, F>
        requires { F.Fits (ranges problem.now) }
        ensures { result ≡ problem.now }
    {
        Known {
            problem,
            forms: IndexSet::new(alloc),
            nodes: Vec::new(alloc),
        }
    }

    /// Returns the problem.
    pub fn problem(&self) -> &'a Problem<'a>
        ensures { result.now ≡ self.now }
    {
        self.problem
    }

    /// Returns the node of the state at the index, or `None` past the last state.
    pub fn node(&self, index: usize) -> Option<Node> {
        self.nodes.get(index).copied()
    }

    /// Replaces the node of the state at the index, if there is one.
    pub fn set_node(&mut self, index: usize, node: Node)
        ensures { self.new ≡ self.old }
    {
        if index < self.nodes.len() {
            self.nodes[index] = node;
        }
    }

    /// Returns the form of the state at the index, or `None` past the last state.
    pub fn form(&self, index: usize) -> Option<&F>
        ensures { IfSome result (λ f. F.IsForm (ranges self.now) f.now) }
    {
        self.forms.get_index(index)
    }

    /// Returns the index of the state with this form.
    pub fn index_of(&self, form: &F) -> Option<usize> {
        self.forms.get_index_of(form)
    }

    /// Adds the state with this form, which must not be there, and returns its index.
    pub fn add(&mut self, form: F, node: Node) -> Result<usize, AllocError>
        requires { F.IsForm (ranges self.old) form }
        ensures { self.new ≡ self.old }
    {
        self.nodes.push(node)?;
        let (index, _) = self.forms.insert_full(form)?;
        Ok(index)
    }

    /// Writes the values of the state at the index into `state`. Returns whether there is one.
    pub fn unpack(&self, index: usize, state: &mut [u32]) -> bool
        requires { length state.old ≡ length (ranges self.now) }
        ensures state { result ≡ true → IsState (ranges self.now) state.new }
        ensures len { length state.new ≡ length state.old }
    {
        match self.forms.get_index(index) {
            Some(form) => {
                form.unpack(self.problem.layout(), state);
                true
            }
            None => false,
        }
    }

    /// Returns the form of the successor by an operator of the state at the index, or `None` past the last state.
    pub fn after(
        &self,
        alloc: Global,
        index: usize,
        operator: usize,
    ) -> Result<Option<F>, AllocError>
        requires { operator < length self.now.operators }
        ensures { IfOk result (λ r. IfSome r (F.IsForm (ranges self.now))) }
    {
        match self.forms.get_index(index) {
            Some(form) => Ok(Some(form.after(alloc, self.problem.masks(), operator)?)),
            None => Ok(None),
        }
    }

    /// Returns the operators on the path from the first state to the one at the index. If the links of parents do not
    /// end at the first state, the operators are no such path.
    pub fn path(&self, alloc: Global, index: usize) -> Result<Vec<usize>, AllocError> {
        let mut operators = Vec::new(alloc);
        let mut index = index;
        for _ in 0..self.nodes.len() {
            let Some(node) = self.node(index) else {
                break;
            };
            if index == 0 {
                break;
            }
            operators.push(node.operator)?;
            index = node.parent;
        }
        operators.reverse();
        Ok(operators)
    }
}
