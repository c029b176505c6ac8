//! The operators of classes.

ghost use Rattle.std.specs.Prelude.{◌≡◌, ◌<◌, ◌≤◌, ◌^◌, length, IfOk};
ghost use Rattle.test_walks.specs.Graphs.{AreMembers, AreListed};

use std::alloc::{AllocError, Global};
use std::marker::Model;

/// A list of operators.
#[derive(Drop)]
pub(crate) struct Members {
    pub(crate) operators: Vec<u32>,
}

impl Model for Members {
    ghost use Rattle.std.specs.Prelude.{ℕ, List};

    ghost Value = { List ℕ };

    ghost view = { λ m. m.operators.items };
}

/// Returns the operators of a class, by increasing numbers.
fn members_of(
    alloc: Global,
    kinds: &[u32],
    count: usize,
    class: usize,
) -> Result<Vec<u32>, AllocError>
    requires small { length kinds.now < 2 ^ 32 }
    requires class { class < count }
    ensures { IfOk result (λ members. AreMembers count kinds.now class members.items) }
{
    let mut members = Vec::new(alloc);
    for operator in 0..kinds.len() {
        if kinds[operator] as usize == class {
            members.push(operator as u32)?;
        }
    }
    Ok(members)
}

/// Returns the operators of each class.
pub(crate) fn members_of_all(
    alloc: Global,
    kinds: &[u32],
    count: usize,
) -> Result<Vec<Members>, AllocError>
    requires { length kinds.now < 2 ^ 32 }
    ensures { IfOk result (λ members. AreListed count kinds.now count members.items) }
{
    let mut members = Vec::new(alloc);
    for class in 0..count {
        let operators = members_of(alloc, kinds, count, class)?;
        members.push(Members { operators })?;
    }
    Ok(members)
}
