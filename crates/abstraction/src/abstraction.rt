//! The interface of abstractions.

/// An abstraction of a finite-domain task: a smaller graph to which the states of the task are mapped, such that each
/// step of the task is a transition of the graph, and goal states are abstract goals (Helmert, Haslum and Hoffmann
/// 2007). The abstract states are the numbers below `size`.
pub trait Abstraction {
    ghost use Rattle.std.specs.Prelude.{◌≡◌, ℕ, ◌<◌, ◌≤◌, ◌^◌, IfSome};
    ghost use Rattle.fdr.specs.Tasks.{FiniteDomainTask, ranges, IsState};
    ghost use Rattle.abstraction.specs.Abstractions as spec;

    /// The task.
    ghost task: { Self → FiniteDomainTask };

    /// Its abstract states, transitions and abstract goals.
    ghost abstraction: { Self → spec.Abstraction };

    /// Returns the number of abstract states, at most 2^24.
    fn size(&self) -> usize
        ensures value { result ≡ (abstraction self.now).size }
        ensures small { result ≤ 2 ^ 24 };

    /// Returns the abstract state of a state of the task.
    fn index(&self, state: &[u32]) -> usize
        requires { IsState (ranges (task self.now)) state.now }
        ensures value { result ≡ (abstraction self.now).index state.now }
        ensures below { result < (abstraction self.now).size };

    /// Returns the abstract state that the operator with this number reaches from an abstract state, or `None` if the
    /// operator does not exist or has no transition there.
    fn transition(&self, abstract_state: usize, operator: usize) -> Option<usize>
        requires { abstract_state < (abstraction self.now).size }
        ensures value { result ≡ (abstraction self.now).transition abstract_state operator }
        ensures below { IfSome result (λ next. next < (abstraction self.now).size) };

    /// Returns whether the operator with this number affects the abstraction: whether it may reach a different abstract
    /// state. If it does not, each of its transitions is from an abstract state to itself.
    fn touches(&self, operator: usize) -> bool
        ensures { result ≡ (abstraction self.now).touches operator };

    /// Returns whether an abstract state is an abstract goal.
    fn is_goal(&self, abstract_state: usize) -> bool
        requires { abstract_state < (abstraction self.now).size }
        ensures { result ≡ (abstraction self.now).is_goal abstract_state };

    /// The abstraction is one of the task.
    ghost abstracts: { (a : Self) → spec.IsAbstractionOf (task a) (abstraction a) };

    /// There are at most 2^24 abstract states.
    ghost is_small: { (a : Self) → (abstraction a).size ≤ 2 ^ 24 };
}
