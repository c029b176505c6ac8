//! The rules of the groups of operators.

ghost use Rattle.std.specs.Prelude.{◌≡◌, length, IfOk};
ghost use Rattle.abstraction_groups.specs.Changes.{at_digits};
ghost use Rattle.pdb_regression.specs.Tables.{rows_of};

use crate::rule::Rule;
use abstraction::{Digit, Projection};
use abstraction_groups::{Change, DigitChange, Groups};
use std::alloc::{AllocError, Global};

/// Returns the changes with the digits at which they are made.
fn row_of(
    alloc: Global,
    digits: &[Digit],
    changes: &[Change],
) -> Result<Vec<DigitChange>, AllocError>
    requires { length changes.now ≡ length digits.now }
    ensures { IfOk result (λ row. row.items ≡ at_digits digits.now changes.now) }
{
    let mut row = Vec::with_capacity(alloc, changes.len())?;
    for place in 0..changes.len() {
        row.push(DigitChange {
            digit: digits[place],
            change: changes[place],
        })?;
    }
    Ok(row)
}

/// Returns the rule of each group.
pub(crate) fn rules_of(
    alloc: Global,
    groups: &Groups<'_, Projection<'_>>,
) -> Result<Vec<Rule>, AllocError>
    ensures { IfOk result (λ rules. rules.items ≡ rows_of groups.now) }
{
    let digits = groups.abstraction().digits();
    let mut rules = Vec::with_capacity(alloc, groups.len())?;
    for group in 0..groups.len() {
        let row = row_of(alloc, digits, groups.changes_of(group))?;
        rules.push(Rule::new(alloc, row)?)?;
    }
    Ok(rules)
}
