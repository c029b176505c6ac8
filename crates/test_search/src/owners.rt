//! Owners of the values of one variable, worked out by hand. Without columns, f is the cost.

ghost use Rattle.std.specs.Prelude.{◌≡◌, length};

use cost::Dist;
use fdr::FdrTask;
use owner::{Message, Owner, OwnerFault, Parent, Rank, Space, Ties};
use packed::{Plain, StateForm};
use packed_spread::{ByValue, Spread};
use scp::make_columns;
use std::alloc::{AllocError, Global};
use std::process::Abort;
use std::test::Fail;
use std::thread::Threads;
use testing_tasks::walk;

/// From 0 to 1 and to 2, from 1 to 2, and from 2 and 4 to 3, which is the goal.
const STEPS: &[(u32, u32, u64)] = &[(0, 1, 1), (0, 2, 5), (1, 2, 1), (2, 3, 1), (4, 3, 1)];

/// Returns the distance of this number.
fn dist(value: u64) -> Dist {
    Dist::fin(value).unwrap_or(Dist::inf())
}

/// Returns the space of the task without columns.
fn space_for<'a, R: Threads + Sync>(
    rt: &R,
    alloc: Global,
    task: &'a FdrTask,
    limit: Option<u64>,
) -> Result<Space<'a, ByValue<'a>>, AllocError> {
    let columns = make_columns(rt, alloc, task, &[])?;
    Space::new(
        alloc,
        task,
        columns,
        ByValue::new(task),
        limit,
        Ties::Shallow,
    )
}

/// Expands the next node, and checks the resulting number of states and the least f-value of the nodes to expand.
fn expands<S: Spread + Drop, F: StateForm + Drop>(
    rt: &impl Abort,
    owner: &mut Owner<'_, S, F>,
    states: usize,
    least: Dist,
) {
    assert_eq!(rt; owner.expand(Dist::inf()), Ok(Some(0)));
    assert_eq!(rt; (owner.len(), owner.least_open()), (states, least));
}

/// Checks that the goal is taken at cost 3, over 1 and 2.
fn has_reached_the_goal<S: Spread + Drop, F: StateForm + Drop>(
    rt: &impl Abort,
    owner: &mut Owner<'_, S, F>,
) {
    assert_eq!(rt; owner.best_goal(), dist(3));
    assert_eq!(rt; owner.expand(dist(3)), Ok(None));
    assert!(rt; owner.is_idle(dist(3)) && !owner.is_idle(dist(4)));
}

/// Checks that the state at index 2 is the one that was reached at cost 2 from the second state.
fn has_better_way<S: Spread + Drop, F: StateForm + Drop>(rt: &impl Abort, owner: &Owner<'_, S, F>) {
    assert!(rt; owner.len() == 4);
    let entry = owner.entry(2);
    let parent = Parent {
        worker: 0,
        index: 1,
        operator: 2,
    };
    assert_eq!(rt;
        (entry.rank, entry.parent),
        (Rank { cost: 2, steps: 2 }, Some(parent))
    );
    assert!(rt; entry.expanded);
}

/// Checks that the initial state is the only one.
fn has_begun<S: Spread + Drop, F: StateForm + Drop>(rt: &impl Abort, owner: &Owner<'_, S, F>) {
    assert_eq!(rt; (owner.len(), owner.least_open()), (1, Dist::ZERO));
}

/// Checks that there is nothing left to expand, and that expansions are not counted, because there is no limit.
fn is_done<S: Spread + Drop, F: StateForm + Drop>(rt: &impl Abort, owner: &Owner<'_, S, F>) {
    assert!(rt; owner.is_idle(Dist::inf()) && owner.expansions() == 0);
}

/// Expands all nodes with one owner, and checks the results.
fn expand_alone<'a, S: Spread + Drop>(
    rt: &impl Abort,
    alloc: Global,
    space: &'a Space<'a, S>,
) -> Result<(), Fail> {
    let mut owner: Owner<'a, S, Plain> = Owner::start(alloc, space, 0, 1)?;
    has_begun(rt, &owner);
    // the state 0: to 1 at cost 1, and to 2 at cost 5
    expands(rt, &mut owner, 3, dist(1));
    // 1: to 2 at cost 2
    expands(rt, &mut owner, 3, dist(2));
    // 2: to 3, the goal, at cost 3
    expands(rt, &mut owner, 4, dist(3));
    has_reached_the_goal(rt, &mut owner);
    has_better_way(rt, &owner);
    // 3 has no successor, and 2 is not expanded again, at the cost 5
    expands(rt, &mut owner, 4, Dist::inf());
    is_done(rt, &owner);
    Ok(())
}

/// Runs `expand_alone` over the task.
fn expand_alone_of<'t, R: Threads + Sync + Abort>(
    rt: &R,
    alloc: Global,
    task: &'t FdrTask,
) -> Result<(), Fail> {
    // the type is given so that the borrow checker need not infer how long the space is borrowed
    let space: Space<'t, ByValue<'t>> = space_for(rt, alloc, task, None)?;
    expand_alone(rt, alloc, &space)
}

#[test]
fn one_owner_alone(rt: HostRuntime) -> Result<(), Fail> {
    let task = walk(rt.alloc(), 5, 3, STEPS)?.ok_or("a task")?;
    expand_alone_of(&rt, rt.alloc(), &task)
}

/// Expands the next node below the bound 5, and checks the resulting number of states.
fn expands_below_5<S: Spread + Drop, F: StateForm + Drop>(
    rt: &impl Abort,
    owner: &mut Owner<'_, S, F>,
    states: usize,
) {
    assert_eq!(rt; owner.expand(dist(5)), Ok(Some(0)));
    assert_eq!(rt; owner.len(), states);
}

/// Checks that the limit of two expansions is reached, below the bound 5 and not below 2.
fn has_reached_the_limit<S: Spread + Drop, F: StateForm + Drop>(
    rt: &impl Abort,
    owner: &mut Owner<'_, S, F>,
) {
    assert_eq!(rt; owner.expansions(), 2);
    assert_eq!(rt; owner.expand(dist(5)), Err(OwnerFault::LimitReached));
    assert_eq!(rt; (owner.len(), owner.expansions()), (3, 2));
    assert_eq!(rt; owner.expand(dist(2)), Ok(None), "nothing is below 2");
}

/// Expands at most two nodes with one owner, below bounds, and checks the results.
fn expand_below<'a, S: Spread + Drop>(
    rt: &impl Abort,
    alloc: Global,
    space: &'a Space<'a, S>,
) -> Result<(), Fail> {
    let mut owner: Owner<'a, S, Plain> = Owner::start(alloc, space, 0, 1)?;
    // 2 would cost 5
    expands_below_5(rt, &mut owner, 2);
    expands_below_5(rt, &mut owner, 3);
    has_reached_the_limit(rt, &mut owner);
    Ok(())
}

/// Runs `expand_below` over the task.
fn expand_below_of<'t, R: Threads + Sync + Abort>(
    rt: &R,
    alloc: Global,
    task: &'t FdrTask,
) -> Result<(), Fail> {
    // the type is given so that the borrow checker need not infer how long the space is borrowed
    let space: Space<'t, ByValue<'t>> = space_for(rt, alloc, task, Some(2))?;
    expand_below(rt, alloc, &space)
}

#[test]
fn drops_at_the_bound(rt: HostRuntime) -> Result<(), Fail> {
    let task = walk(rt.alloc(), 5, 3, STEPS)?.ok_or("a task")?;
    expand_below_of(&rt, rt.alloc(), &task)
}

/// Expands the initial state with the first of two owners, and checks the results: 2 is its own state, and 1 is the
/// other's.
fn posts<S: Spread + Drop, F: StateForm + Drop>(rt: &impl Abort, owner: &mut Owner<'_, S, F>)
    requires { length owner.old.outboxes ≡ 2 }
    ensures space { owner.new.space ≡ owner.old.space }
    ensures owners { length owner.new.outboxes ≡ length owner.old.outboxes }
{
    assert_eq!(rt; owner.expand(Dist::inf()), Ok(Some(1)));
    assert_eq!(rt;
        (owner.len(), owner.outbox_len(0), owner.outbox_len(1)),
        (2, 0, 1)
    );
    assert_eq!(rt; (owner.outboxes_in_use(), owner.messages()), (1, 1));
    assert!(rt; !owner.is_idle(Dist::ZERO), "a message waits");
}

/// Checks that the first of two owners has no message left.
fn has_handed_out<S: Spread + Drop, F: StateForm + Drop>(
    rt: &impl Abort,
    owner: &mut Owner<'_, S, F>,
)
    requires { length owner.old.outboxes ≡ 2 }
{
    assert_eq!(rt; (owner.outboxes_in_use(), owner.messages()), (0, 0));
    assert!(rt; owner.next_out(1).is_none() && owner.is_idle(Dist::ZERO));
}

/// Checks that the second of two owners has no state yet.
fn has_nothing<S: Spread + Drop, F: StateForm + Drop>(rt: &impl Abort, owner: &Owner<'_, S, F>) {
    assert_eq!(rt; owner.len(), 0);
    assert!(rt; owner.is_idle(Dist::inf()));
}

/// Checks that the owner has one state, and its cost.
fn has_one_state<S: Spread + Drop, F: StateForm + Drop>(
    rt: &impl Abort,
    owner: &Owner<'_, S, F>,
    cost: Dist,
) {
    assert_eq!(rt; (owner.len(), owner.least_open()), (1, cost));
}

/// Sends a state from the first of two owners to the second, and checks the results.
fn hand_over<'a, S: Spread + Drop>(
    rt: &impl Abort,
    alloc: Global,
    space: &'a Space<'a, S>,
) -> Result<(), Fail> {
    let mut first: Owner<'a, S, Plain> = Owner::start(alloc, space, 0, 2)?;
    let mut second: Owner<'a, S, Plain> = Owner::start(alloc, space, 1, 2)?;
    has_one_state(rt, &first, Dist::ZERO);
    has_nothing(rt, &second);
    posts(rt, &mut first);
    let Some(message) = first.next_out(1) else {
        panic!(rt; "a message")
    };
    assert_eq!(rt; message.rank, Rank { cost: 1, steps: 1 });
    let again = Message {
        state: message.state.copy(alloc)?,
        rank: message.rank,
        parent: message.parent,
    };
    assert!(rt; !second.knows(&message), "a new state");
    assert!(rt; second.take(message).is_ok(), "memory");
    assert!(rt; second.knows(&again), "a state that was taken");
    has_one_state(rt, &second, dist(1));
    has_handed_out(rt, &mut first);
    Ok(())
}

/// Runs `hand_over` over the task.
fn hand_over_of<'t, R: Threads + Sync + Abort>(
    rt: &R,
    alloc: Global,
    task: &'t FdrTask,
) -> Result<(), Fail> {
    // the type is given so that the borrow checker need not infer how long the space is borrowed
    let space: Space<'t, ByValue<'t>> = space_for(rt, alloc, task, None)?;
    hand_over(rt, alloc, &space)
}

#[test]
fn one_of_two(rt: HostRuntime) -> Result<(), Fail> {
    let task = walk(rt.alloc(), 5, 3, STEPS)?.ok_or("a task")?;
    hand_over_of(&rt, rt.alloc(), &task)
}
