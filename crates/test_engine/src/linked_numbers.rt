//! Numbered messages over a link with room for one, from one thread to another.

ghost use Rattle.std.specs.Prelude.{◌≤◌, ◌^◌, IfOk};
ghost use Rattle.links.specs.Ends.{AreEnds, SameIn, SameOut};
ghost use Rattle.links.specs.Ranks.{HasSmallRank};

use links::{In, Message, Out, Parent, link, match_up};
use openlist::Rank;
use packed::{Bits, Layout, StateForm};
use std::alloc::Global;
use std::test::Fail;
use std::thread;
use std::thread::Threads;
use testing_tasks::states;

/// The number of messages.
const MESSAGES: u64 = 100_000;

/// Returns the message of the one state of a variable with one value, at this cost.
fn message(alloc: Global, cost: u64) -> Result<Message<Bits<1>>, Fail>
    requires { cost ≤ 2 ^ 62 }
    ensures { IfOk result HasSmallRank }
{
    let task = states(alloc, &[1], &[0])?.ok_or("a task")?;
    let layout = Layout::new(alloc, &task)?;
    if !layout.is_state(&[0]) || !Bits::<1>::fits(&layout) {
        return Err(Fail::from("a state"));
    }
    Ok(Message {
        state: Bits::pack(alloc, &layout, &[0])?,
        rank: Rank { cost, steps: 1 },
        parent: Parent {
            worker: 0,
            index: 0,
            operator: 0,
        },
    })
}

/// How many times a full or an empty link is polled before the test stops waiting.
const LOOKS: u64 = 1_000_000_000;

/// Sends a message as soon as there is room for it. Returns whether there was.
fn send(sender: &mut Out<Bits<1>>, message: Message<Bits<1>>) -> bool
    requires { HasSmallRank message }
    ensures { SameOut sender.old sender.new }
{
    for _ in 0..LOOKS {
        if sender.has_room() {
            return sender.push(message).is_ok();
        }
        thread::yield_now();
    }
    false
}

/// Sends a message for each number from 0 on, by copies of one. Returns the sending end, and the number of messages
/// sent.
fn send_numbers(alloc: Global, sender: Out<Bits<1>>, first: Message<Bits<1>>) -> (Out<Bits<1>>, u64)
    ensures { SameOut sender result.0 }
{
    let mut sender = sender;
    for cost in 0..MESSAGES {
        let Ok(state) = first.state.copy(alloc) else {
            return (sender, cost);
        };
        let message = Message {
            state,
            rank: Rank { cost, steps: 1 },
            parent: first.parent,
        };
        if !send(&mut sender, message) {
            return (sender, cost);
        }
    }
    (sender, MESSAGES)
}

/// Takes at most `MESSAGES` messages, up to the first that is not in the order of sending. Returns the receiving end,
/// and how many were in order.
fn take_numbers(receiver: In<Bits<1>>) -> (In<Bits<1>>, u64)
    ensures { SameIn receiver result.0 }
{
    let mut receiver = receiver;
    let mut taken = 0u64;
    for _ in 0..LOOKS {
        if taken == MESSAGES {
            break;
        }
        match receiver.pop() {
            Some(message) if message.rank.cost == taken => taken = taken.saturating_add(1),
            Some(_) => break,
            None => thread::yield_now(),
        }
    }
    (receiver, taken)
}

/// Sends the messages in a thread of its own, and takes them in the caller's. Returns both ends, with the numbers of
/// messages sent, and of those that arrived in order.
fn pass<R: Threads>(
    rt: &R,
    alloc: Global,
    sender: Out<Bits<1>>,
    receiver: In<Bits<1>>,
    first: Message<Bits<1>>,
) -> ((Out<Bits<1>>, u64), (In<Bits<1>>, u64))
    requires { AreEnds sender receiver }
    ensures { AreEnds result.0.0 result.1.0 }
{
    thread::join(
        rt,
        move || -> (Out<Bits<1>>, u64)
            ensures { SameOut sender result.0 }
        { send_numbers(alloc, sender, first) },
        move || -> (In<Bits<1>>, u64)
            ensures { SameIn receiver result.0 }
        { take_numbers(receiver) },
    )
}

#[test]
fn a_hundred_thousand_messages(rt: HostRuntime) -> Result<(), Fail> {
    let (sender, receiver) = link(rt.alloc(), 1)?;
    let first = message(rt.alloc(), 0)?;
    let (sending, receiving) = pass(&rt, rt.alloc(), sender, receiver, first);
    let (mut sender, sent) = sending;
    let (mut receiver, taken) = receiving;
    assert_eq!(rt; (sent, taken), (MESSAGES, MESSAGES));
    assert_eq!(rt; match_up(&mut sender, &mut receiver), 0);
    assert!(rt; receiver.pop().is_none());
    Ok(())
}
