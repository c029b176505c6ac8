//! Tables of states of two variables, with 2 and 3 values.

ghost use Rattle.std.specs.Prelude.{◌≡◌, All, IsTrue};
ghost use Rattle.fdr.specs.Tasks.{ranges};
ghost use Rattle.closed.specs.Hints.{AreHintsFor};

use closed::{ClosedTable, Entry, Hint, Message, Outcome, Parent};
use fdr::FdrTask;
use openlist::Rank;
use packed::{Bits, Layout, Plain, StateForm};
use std::alloc::{AllocError, Global};
use std::process::Abort;
use std::test::Fail;
use testing_tasks::states;

fn rank(cost: u64, steps: u64) -> Rank {
    Rank { cost, steps }
}

fn parent(index: usize) -> Parent {
    Parent {
        worker: 1,
        index,
        operator: 7,
    }
}

/// Checks the outcome of reaching a state from the node at that index.
fn reaches<F: StateForm + Drop>(
    rt: &impl Abort,
    table: &mut ClosedTable<F>,
    layout: &Layout,
    state: &[u32],
    rank: Rank,
    from: usize,
    expected: Outcome,
)
    requires { layout.now ≡ table.old.ranges }
    ensures { layout.now ≡ table.new.ranges }
{
    assert!(rt; layout.is_state(state), "a state");
    let outcome = table
        .improve(state, rank, Some(parent(from)))
        .expect(rt, "memory");
    assert_eq!(rt; outcome, expected);
}

/// Checks the entry of the table at an index.
fn keeps<F: StateForm + Drop>(
    rt: &impl Abort,
    table: &ClosedTable<F>,
    index: usize,
    rank: Rank,
    from: usize,
    expanded: bool,
) {
    assert!(rt; index < table.len(), "an index");
    let entry = Entry {
        rank,
        parent: Some(parent(from)),
        expanded,
    };
    assert_eq!(rt; table.entry(index), entry);
}

/// Marks the state at an index as expanded.
fn expands<F: StateForm + Drop>(rt: &impl Abort, table: &mut ClosedTable<F>, index: usize)
    ensures { table.new.ranges ≡ table.old.ranges }
{
    assert!(rt; index < table.len(), "an index");
    table.mark_expanded(index);
}

/// Marks the state at an index as not expanded, and sets whether it was ever expanded.
fn reopens<F: StateForm + Drop>(
    rt: &impl Abort,
    table: &mut ClosedTable<F>,
    index: usize,
    ever: bool,
)
    ensures { table.new.ranges ≡ table.old.ranges }
{
    assert!(rt; index < table.len(), "an index");
    table.mark_open(index, ever);
}

/// Checks whether the state at an index was ever expanded.
fn was_expanded<F: StateForm + Drop>(
    rt: &impl Abort,
    table: &ClosedTable<F>,
    index: usize,
    expected: bool,
) {
    assert_eq!(rt; table.was_expanded(index), expected);
}

/// Checks that the stored form of the state at an index has these two values.
fn has_form_of<F: StateForm + Drop>(
    rt: &impl Abort,
    table: &ClosedTable<F>,
    layout: &Layout,
    index: usize,
    values: (u32, u32),
)
    requires { F.Fits layout.now }
{
    let Some(form) = table.form(index) else {
        panic!(rt; "no state");
    };
    assert!(rt; form.holds_state(layout), "a state");
    assert!(rt; layout.variable_count() == 2, "two variables");
    assert_eq!(rt; (form.value(layout, 0), form.value(layout, 1)), values);
}

/// Checks whether a state is a duplicate at a rank.
fn is_known<F: StateForm + Drop>(
    rt: &impl Abort,
    alloc: Global,
    table: &ClosedTable<F>,
    layout: &Layout,
    state: &[u32],
    rank: Rank,
    expected: bool,
)
    requires { F.Fits layout.now }
{
    assert!(rt; layout.is_state(state), "a state");
    let form = F::pack(alloc, layout, state).expect(rt, "memory");
    assert_eq!(rt; table.knows(&form, rank), expected);
}

/// Checks that a state that is reached several times has the least rank.
fn keeps_the_least_rank_in<F: StateForm + Drop, R: Abort>(
    rt: &R,
    alloc: Global,
    task: &FdrTask,
    layout: &Layout,
) -> Result<(), AllocError>
    requires layout { layout.now ≡ ranges task.now }
    requires fits { F.Fits layout.now }
{
    let mut table: ClosedTable<F> = ClosedTable::new(alloc, task)?;
    let state = [1, 2];
    reaches(
        rt,
        &mut table,
        layout,
        &state,
        rank(5, 3),
        0,
        Outcome::New(0),
    );
    reaches(
        rt,
        &mut table,
        layout,
        &[1, 0],
        rank(1, 1),
        4,
        Outcome::New(1),
    );
    // the same rank, and a greater cost over fewer steps
    reaches(rt, &mut table, layout, &state, rank(5, 3), 9, Outcome::Kept);
    reaches(rt, &mut table, layout, &state, rank(6, 0), 9, Outcome::Kept);
    keeps(rt, &table, 0, rank(5, 3), 0, false);
    expands(rt, &mut table, 0);
    keeps(rt, &table, 0, rank(5, 3), 0, true);
    was_expanded(rt, &table, 0, true);
    reopens(rt, &mut table, 0, false);
    keeps(rt, &table, 0, rank(5, 3), 0, false);
    was_expanded(rt, &table, 0, false);
    expands(rt, &mut table, 0);
    // fewer steps
    reaches(
        rt,
        &mut table,
        layout,
        &state,
        rank(5, 2),
        8,
        Outcome::Better(0),
    );
    keeps(rt, &table, 0, rank(5, 2), 8, false);
    keeps(rt, &table, 1, rank(1, 1), 4, false);
    was_expanded(rt, &table, 0, true);
    was_expanded(rt, &table, 1, false);
    was_expanded(rt, &table, 2, false);
    has_form_of(rt, &table, layout, 0, (1, 2));
    has_form_of(rt, &table, layout, 1, (1, 0));
    assert!(rt; table.form(2).is_none());
    is_known(rt, alloc, &table, layout, &state, rank(5, 2), true);
    is_known(rt, alloc, &table, layout, &state, rank(5, 1), false);
    is_known(rt, alloc, &table, layout, &[0, 0], rank(9, 9), false);
    Ok(())
}

#[test]
fn keeps_the_least_rank(rt: HostRuntime) -> Result<(), Fail> {
    let task = states(rt.alloc(), &[2, 3], &[0, 0])?.ok_or("a task")?;
    let layout = Layout::new(rt.alloc(), &task)?;
    assert!(rt; Bits::<1>::fits(&layout), "states of one word");
    keeps_the_least_rank_in::<Bits<1>, HostRuntime>(&rt, rt.alloc(), &task, &layout).expect(
        &rt, "memory",
    );
    keeps_the_least_rank_in::<Plain, HostRuntime>(&rt, rt.alloc(), &task, &layout).expect(
        &rt, "memory",
    );
    Ok(())
}

/// Checks that the empty table stores the initial state and returns it.
fn gives_back<F: StateForm + Drop>(
    rt: &impl Abort,
    alloc: Global,
    task: &FdrTask,
    table: &mut ClosedTable<F>,
)
    requires { table.old.ranges ≡ ranges task.now }
{
    let outcome = table
        .improve(task.initial(), rank(0, 0), None)
        .expect(rt, "memory");
    assert_eq!(rt; outcome, Outcome::New(0));
    assert_eq!(rt; table.len(), 1);
    assert_eq!(rt; table.entry(0).parent, None);
    let mut state = vec![in alloc; 9; task.variable_count()].expect(rt, "memory");
    table.copy_state(0, &mut state);
    assert_eq!(rt; state.as_slice(), [1, 2].as_slice());
}

/// Checks that a table returns the state that was stored.
fn gives_states_back_in<F: StateForm + Drop, R: Abort>(
    rt: &R,
    alloc: Global,
    task: &FdrTask,
    layout: &Layout,
) -> Result<(), AllocError>
    requires layout { layout.now ≡ ranges task.now }
    requires fits { F.Fits layout.now }
{
    let mut table: ClosedTable<F> = ClosedTable::new(alloc, task)?;
    gives_back(rt, alloc, task, &mut table);
    Ok(())
}

#[test]
fn gives_states_back(rt: HostRuntime) -> Result<(), Fail> {
    let task = states(rt.alloc(), &[2, 3], &[1, 2])?.ok_or("a task")?;
    let layout = Layout::new(rt.alloc(), &task)?;
    assert!(rt; Bits::<1>::fits(&layout), "states of one word");
    gives_states_back_in::<Bits<1>, HostRuntime>(&rt, rt.alloc(), &task, &layout).expect(
        &rt, "memory",
    );
    gives_states_back_in::<Plain, HostRuntime>(&rt, rt.alloc(), &task, &layout).expect(
        &rt, "memory",
    );
    Ok(())
}

/// Returns messages of these states and ranks.
fn messages<F: StateForm + Drop, R: Abort>(
    rt: &R,
    alloc: Global,
    layout: &Layout,
    reached: &[([u32; 2], Rank)],
) -> Vec<Message<F>>
    requires { F.Fits layout.now }
{
    let mut messages = Vec::new(alloc);
    for (state, rank) in reached {
        assert!(rt; layout.is_state(state), "a state");
        let message = Message {
            state: F::pack(alloc, layout, state).expect(rt, "memory"),
            rank: *rank,
            parent: parent(6),
        };
        messages.push(message).expect(rt, "memory");
    }
    messages
}

/// Returns whether the messages hold states of the layout.
fn are_of<F: StateForm + Drop>(layout: &Layout, messages: &[Message<F>]) -> bool
    ensures { IsTrue result → All (λ m. F.IsForm layout.now m.state) messages.now }
{
    messages.iter().all(|message| message.state.is_form(layout))
}

/// Returns a hint for the state of each message.
fn hints_for<F: StateForm + Drop>(
    rt: &impl Abort,
    alloc: Global,
    table: &ClosedTable<F>,
    messages: &[Message<F>],
) -> Vec<Hint>
    ensures { AreHintsFor F.hash_input messages.now result.items }
{
    let mut hints = Vec::new(alloc);
    for message in messages {
        hints.push(table.hint(&message.state)).expect(rt, "memory");
    }
    hints
}

/// Returns whether the messages were taken. Checks their outcomes, which replace others, and that a failure leaves the
/// table unchanged.
fn takes<F: StateForm + Drop>(
    rt: &impl Abort,
    alloc: Global,
    table: &mut ClosedTable<F>,
    messages: &[Message<F>],
    expected: &[Outcome],
) -> bool
    requires { All (λ m. F.IsForm table.old.ranges m.state) messages.now }
{
    let len = table.len();
    let mut outcomes = vec![in alloc; Outcome::Kept; 2].expect(rt, "memory");
    let hints = hints_for(rt, alloc, table, messages);
    match table.improve_all(messages, &hints, &mut outcomes) {
        Ok(()) => {
            assert_eq!(rt; outcomes.as_slice(), expected);
            true
        }
        Err(_) => {
            assert_eq!(rt; table.len(), len, "as it was");
            false
        }
    }
}

/// Checks that messages are taken in order.
fn takes_messages_one_after_the_other_in<F: StateForm + Drop, R: Abort>(
    rt: &R,
    alloc: Global,
    task: &FdrTask,
    layout: &Layout,
) -> Result<(), AllocError>
    requires layout { layout.now ≡ ranges task.now }
    requires fits { F.Fits layout.now }
{
    let mut table: ClosedTable<F> = ClosedTable::new(alloc, task)?;
    reaches(
        rt,
        &mut table,
        layout,
        &[0, 0],
        rank(2, 2),
        5,
        Outcome::New(0),
    );
    expands(rt, &mut table, 0);
    let reached = [
        ([0, 1], rank(1, 1)),
        ([0, 0], rank(3, 0)),
        ([0, 1], rank(1, 0)),
        ([0, 0], rank(1, 5)),
        ([0, 1], rank(1, 0)),
    ];
    let expected = [
        Outcome::New(1),
        Outcome::Kept,
        Outcome::Better(1),
        Outcome::Better(0),
        Outcome::Kept,
    ];
    let messages: Vec<Message<F>> = messages(rt, alloc, layout, &reached);
    assert!(rt; are_of(layout, &messages), "states");
    if takes(rt, alloc, &mut table, &messages, &expected) {
        keeps(rt, &table, 0, rank(1, 5), 6, false);
        keeps(rt, &table, 1, rank(1, 0), 6, false);
    } else {
        keeps(rt, &table, 0, rank(2, 2), 5, true);
    }
    Ok(())
}

#[test]
fn takes_messages_one_after_the_other(rt: HostRuntime) -> Result<(), Fail> {
    let task = states(rt.alloc(), &[2, 3], &[0, 0])?.ok_or("a task")?;
    let layout = Layout::new(rt.alloc(), &task)?;
    assert!(rt; Bits::<1>::fits(&layout), "states of one word");
    takes_messages_one_after_the_other_in::<Bits<1>, HostRuntime>(
        &rt,
        rt.alloc(),
        &task,
        &layout,
    ).expect(&rt, "memory");
    takes_messages_one_after_the_other_in::<Plain, HostRuntime>(
        &rt,
        rt.alloc(),
        &task,
        &layout,
    ).expect(&rt, "memory");
    Ok(())
}
