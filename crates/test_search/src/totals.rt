//! Costs above the greatest total, 2^62, are refused.

ghost use Rattle.std.specs.Prelude.{IfOk};
ghost use Rattle.fdr.specs.Tasks.{ranges};
ghost use Rattle.packed_spread.specs.Spreads.{value_owner};
ghost use Rattle.closed.specs.Tables.{message_of};
ghost use Rattle.owner.specs.Spaces.{searched};
ghost use Rattle.owner.specs.Owned.{IsMessageTo};

use crate::schedules::CYCLE;
use cost::Dist;
use fdr::FdrTask;
use owner::{MAX_TOTAL, Message, Owner, OwnerFault, Parent, Rank, Space, Ties};
use packed::{Bits, Plain, StateForm};
use packed_spread::{ByValue, Spread};
use sasfile::read_sas;
use scp::make_columns;
use std::alloc::Global;
use std::process::Abort;
use std::test::Fail;
use std::thread::Threads;

/// Returns the message with which the second of two owners receives the state 1, at the greatest cost.
fn message_at_most_total<'a, F: StateForm + Drop, R: Abort>(
    rt: &R,
    alloc: Global,
    space: &'a Space<'a, ByValue<'a>>,
) -> Result<Message<F>, Fail>
    requires { F.Fits (ranges space.now.task) }
    ensures { IfOk result (λ m. IsMessageTo (searched (λ _. value_owner) space.now 2) 1 (message_of (F.values (ranges space.now.task)) m)) }
{
    let state = [1];
    assert!(rt; space.layout().is_state(&state), "a state of the task");
    assert_eq!(rt; space.owner_of(&state, 2), 1);
    Ok(Message {
        state: F::pack(alloc, space.layout(), &state)?,
        rank: Rank {
            cost: MAX_TOTAL,
            steps: 1,
        },
        parent: Parent {
            worker: 0,
            index: 0,
            operator: 0,
        },
    })
}

/// Checks that the one node is not expanded, because its successor would cost too much.
fn refuses<S: Spread + Drop, F: StateForm + Drop>(rt: &impl Abort, owner: &mut Owner<'_, S, F>) {
    let open = Dist::fin(MAX_TOTAL).expect(rt, "a distance");
    assert_eq!(rt; owner.least_open(), open);
    assert_eq!(rt; owner.expand(Dist::inf()), Err(OwnerFault::TotalTooLarge));
    assert_eq!(rt; (owner.least_open(), owner.len()), (open, 1));
    assert!(rt; !owner.entry(0).expanded);
}

/// Checks that a state at the greatest total is not expanded: operator 1 has cost 0, but operator 2 has cost 1, which
/// exceeds the total.
fn refuse_total<'a, F: StateForm + Drop, R: Abort>(
    rt: &R,
    alloc: Global,
    space: &'a Space<'a, ByValue<'a>>,
) -> Result<(), Fail>
    requires { F.Fits (ranges space.now.task) }
{
    let mut second: Owner<'a, ByValue<'a>, F> = Owner::start(alloc, space, 1, 2)?;
    let message = message_at_most_total(rt, alloc, space)?;
    assert!(rt; second.take(message).is_ok(), "memory");
    refuses(rt, &mut second);
    Ok(())
}

/// Runs `refuse_total` over the task, without columns.
fn refuse_total_of<'t, R: Threads + Sync + Abort>(
    rt: &R,
    alloc: Global,
    task: &'t FdrTask,
) -> Result<(), Fail> {
    let columns = make_columns(rt, alloc, task, &[])?;
    // the type is given so that the borrow checker need not infer how long the space is borrowed
    let space: Space<'t, ByValue<'t>> = Space::new(
        alloc,
        task,
        columns,
        ByValue::new(task),
        None,
        Ties::Shallow,
    )?;
    assert!(rt; Bits::<1>::fits(space.layout()), "states of one word");
    refuse_total::<Bits<1>, R>(rt, alloc, &space)?;
    refuse_total::<Plain, R>(rt, alloc, &space)
}

#[test]
fn a_total_past_the_greatest(rt: HostRuntime) -> Result<(), Fail> {
    let task = read_sas(rt.alloc(), CYCLE.as_bytes()).map_err(|_| "a task")?;
    refuse_total_of(&rt, rt.alloc(), &task)
}
