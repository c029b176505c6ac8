//! Rings, with both ends in one thread.

ghost use Rattle.std.specs.Prelude.{◌≤◌, ◌^◌, IfOk};
ghost use Rattle.links.specs.Ends.{SameOut, SameIn};
ghost use Rattle.links.specs.Ranks.{HasSmallRank};

use links::{In, LinkTable, Message, Out, link, match_up};
use openlist::Rank;
use packed::{Layout, Plain, StateForm};
use std::alloc::{AllocError, Global};
use std::process::Abort;
use std::test::Fail;
use testing_tasks::states;

/// Returns the layout of the one state of a variable with one value.
fn layout_of_one(rt: &impl Abort, alloc: Global) -> Layout {
    let task = states(alloc, &[1], &[0])
        .expect(rt, "memory")
        .expect(rt, "a task");
    Layout::new(alloc, &task).expect(rt, "memory")
}

/// Returns the message of the one state of a variable with one value, at this cost.
fn message(rt: &impl Abort, alloc: Global, cost: u64) -> Result<Message<Plain>, AllocError>
    requires { cost ≤ 2 ^ 62 }
    ensures { IfOk result HasSmallRank }
{
    let layout = layout_of_one(rt, alloc);
    assert!(rt; layout.is_state(&[0]) && Plain::fits(&layout), "a state");
    Ok(Message {
        state: Plain::pack(alloc, &layout, &[0])?,
        rank: Rank { cost, steps: 1 },
        parent: links::Parent {
            worker: 0,
            index: 0,
            operator: 0,
        },
    })
}

/// Takes the oldest message, if there is one, and returns its cost.
fn taken(receiver: &mut In<Plain>) -> Option<u64>
    ensures { SameIn receiver.old receiver.new }
{
    receiver.pop().map(|message| message.rank.cost)
}

/// Sends a message, and returns whether there was room for it.
fn is_sent(sender: &mut Out<Plain>, message: Message<Plain>) -> bool
    requires { HasSmallRank message }
    ensures { SameOut sender.old sender.new }
{
    sender.push(message).is_ok()
}

/// Checks that a ring with room for one message takes one, and returns a second one.
fn takes_one(
    rt: &impl Abort,
    alloc: Global,
    sender: &mut Out<Plain>,
) -> Result<Message<Plain>, AllocError>
    ensures ring { SameOut sender.old sender.new }
    ensures back { IfOk result HasSmallRank }
{
    assert!(rt; sender.has_room());
    assert!(rt; is_sent(sender, message(rt, alloc, 1)?));
    assert!(rt; !sender.has_room());
    match sender.push(message(rt, alloc, 2)?) {
        Ok(()) => panic!(rt; "the ring is full"),
        Err(back) => Ok(back),
    }
}

#[test]
fn a_ring_of_one(rt: HostRuntime) -> Result<(), Fail> {
    let (mut sender, mut receiver) = link(rt.alloc(), 1)?;
    let back = takes_one(&rt, rt.alloc(), &mut sender)?;
    assert_eq!(rt; back.rank.cost, 2);
    assert_eq!(rt; taken(&mut receiver), Some(1));
    assert_eq!(rt; taken(&mut receiver), None);
    assert!(rt; is_sent(&mut sender, back));
    assert_eq!(rt; match_up(&mut sender, &mut receiver), 1);
    assert_eq!(rt; taken(&mut receiver), Some(2));
    Ok(())
}

#[test]
fn a_message_given_back_is_taken_first(rt: HostRuntime) -> Result<(), Fail> {
    let (mut sender, mut receiver) = link(rt.alloc(), 2)?;
    assert!(rt; is_sent(&mut sender, message(&rt, rt.alloc(), 1)?));
    assert!(rt; is_sent(&mut sender, message(&rt, rt.alloc(), 2)?));
    let Some(first) = receiver.pop() else {
        panic!(rt; "a message was sent")
    };
    receiver.give_back(first);
    assert_eq!(rt; match_up(&mut sender, &mut receiver), 2);
    assert_eq!(rt; taken(&mut receiver), Some(1));
    assert_eq!(rt; taken(&mut receiver), Some(2));
    assert_eq!(rt; taken(&mut receiver), None);
    Ok(())
}

/// Sends a message of this cost to the last of the workers.
fn send_last(rt: &impl Abort, alloc: Global, outs: &mut Vec<Out<Plain>>, cost: u64)
    requires { cost ≤ 2 ^ 62 }
{
    let Ok(message) = message(rt, alloc, cost) else {
        panic!(rt; "memory")
    };
    let sender = outs.last_mut().expect(rt, "a worker");
    assert!(rt; is_sent(sender, message));
}

/// Takes a message from the first worker, if there is one, and returns its cost.
fn from_first(ins: &mut Vec<In<Plain>>) -> Option<u64> {
    taken(ins.first_mut()?)
}

#[test]
fn a_link_for_each_pair(rt: HostRuntime) {
    let LinkTable { mut outs, mut ins } = LinkTable::new(rt.alloc(), 2, 4).expect(&rt, "memory");
    assert_eq!(rt; (outs.len(), ins.len()), (2, 2));
    let mut from_second = outs.pop().expect(&rt, "a row");
    let mut from_the_first = outs.pop().expect(&rt, "a row");
    let mut to_second = ins.pop().expect(&rt, "a row");
    let mut to_first = ins.pop().expect(&rt, "a row");
    send_last(&rt, rt.alloc(), &mut from_the_first, 7);
    assert_eq!(rt; from_first(&mut to_first), None);
    assert_eq!(rt; from_first(&mut to_second), Some(7));
    send_last(&rt, rt.alloc(), &mut from_second, 8);
    assert_eq!(rt;
        (from_first(&mut to_first), from_first(&mut to_second)),
        (None, None)
    );
}
