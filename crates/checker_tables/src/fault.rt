//! Faults of one table.

use checker_clauses::Violation;

/// A fault of one table.
#[derive(Clone, Copy)]
pub(crate) enum TableFault {
    /// The table does not have the required form.
    Form,
    /// An abstract goal has a value other than 0.
    Goal(usize),
    /// The value of an abstract state exceeds that of its successor under an operator by more than the operator's
    /// share.
    Fall(usize, usize),
}

impl TableFault {
    ghost use Rattle.std.specs.Prelude.{◌≡◌};
    ghost use Rattle.checker_tables.specs.TableFaults.{violation_at};

    /// Returns the violation for this fault of table `table` in column `column`.
    pub(crate) fn violation(self, column: usize, table: usize) -> Violation
        ensures { result ≡ violation_at column table self }
    {
        match self {
            TableFault::Form => Violation::TableForm(column, table),
            TableFault::Goal(state) => Violation::GoalValue(column, table, state),
            TableFault::Fall(state, operator) => Violation::Fall(column, table, state, operator),
        }
    }
}
