//! Violations of the clauses.

use std::fmt;

/// A violation of a clause by a certificate for a finite-domain task: the clause, and the place. Its text is
/// `C0 var V`, `C3 column I op O` and so on. In a certificate with classes, states, operators and variables of all
/// clauses but C0 are those of the reduced task.
#[derive(Clone, Copy, Debug, PartialEq, Eq)]
pub enum Violation {
    /// C0: the certificate has classes, and for this variable of the task there is no row of classes, or the row does
    /// not have exactly one class for each of its values; or the task does not have this variable, and there is a row
    /// for it.
    Classes(usize),
    /// C3: in a column the shares of an operator sum to more than its cost, or a table lists an operator that does not
    /// exist. The numbers are those of the column and the operator.
    Shares(usize, usize),
    /// C4: the variables of a table are not strictly increasing, one of them does not exist, a row does not have
    /// exactly one class for each value of its variable, there are too many abstract states, or another number of
    /// values. The numbers are those of the column and of the table in it.
    TableForm(usize, usize),
    /// C4: an abstract goal has a value other than 0. The numbers are those of the column, the table and the abstract
    /// state.
    GoalValue(usize, usize, usize),
    /// C4: the value of an abstract state exceeds that of its successor by more than the operator's share. The numbers
    /// are those of the column, the table, the abstract state and the operator.
    Fall(usize, usize, usize, usize),
    /// C5: an entry of the closed list is not a state of the task, or not lexicographically greater than the one before
    /// it. The number is its index.
    ClosedState(usize),
    /// C6: the initial state is not in the closed list with the cost 0, and its heuristic value is below the bound.
    Start,
    /// C7: a goal state in the closed list costs less than the bound. The number is its index.
    ClosedGoal(usize),
    /// C8: the successor of a closed state is not in the closed list with at most its cost, and that cost and its
    /// heuristic value sum to less than the bound. The numbers are the index of the closed state and the number of the
    /// operator.
    Successor(usize, usize),
}

impl fmt::Display for Violation {
    ghost use Rattle.std.specs.Prelude.{Some};
    ghost use Rattle.checker_clauses.specs.Violations.{violation_text};

    ghost output = { λ v. Some (violation_text v) };

    fn fmt<W: fmt::Write>(&self, f: &mut fmt::Formatter<W>) -> fmt::Result {
        match self {
            Violation::Classes(v) => write!(f, "C0 var {v}"),
            Violation::Shares(i, o) => write!(f, "C3 column {i} op {o}"),
            Violation::TableForm(i, j) => write!(f, "C4 column {i} table {j}"),
            Violation::GoalValue(i, j, a) => write!(f, "C4 column {i} table {j} state {a}"),
            Violation::Fall(i, j, a, o) => write!(f, "C4 column {i} table {j} state {a} op {o}"),
            Violation::ClosedState(i) => write!(f, "C5 state {i}"),
            Violation::Start => write!(f, "C6"),
            Violation::ClosedGoal(i) => write!(f, "C7 state {i}"),
            Violation::Successor(i, o) => write!(f, "C8 state {i} op {o}"),
        }
    }
}
