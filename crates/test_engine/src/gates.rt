//! Gates of multi-threaded searches: when they are asked and how they end a search; and that workers take turns, and
//! expand nodes, concurrently.

ghost use Rattle.std.specs.Prelude.{◌<◌};

use crate::searches::space_for;
use cost::Dist;
use engine::{EngineFault, Gate, Open, Progress, Searched, Stop, search};
use fdr::{Fact, FdrTask};
use owner::{Space, Ties};
use packed::Plain;
use packed_spread::{ByValue, Spread};
use scp::make_columns;
use std::alloc::{AllocError, Global};
use std::process::Abort;
use std::sync::Wait;
use std::sync::atomic::{AtomicU64, Ordering};
use std::test::Fail;
use std::thread::Threads;
use std::time::Clock;
use testing_meetings::Meeting;
use testing_tasks::walk;

/// The spread by values, which answers for states 4 and 3 only once both are asked for concurrently.
#[derive(Drop)]
struct MeetingSpread<'a> {
    by_value: ByValue<'a>,
    meeting: &'a Meeting,
}

impl<'a> MeetingSpread<'a> {
    /// Joins the meeting if the owner of state 4 or of state 3 is asked for.
    fn come_for(&self, state: u32) {
        match state {
            4 => {
                self.meeting.meet(true);
            }
            3 => {
                self.meeting.meet(false);
            }
            _ => {}
        }
    }
}

impl<'a> Spread for MeetingSpread<'a> {
    ghost use Rattle.fdr.specs.Tasks as tasks;
    ghost use Rattle.packed_spread.specs.Spreads.{value_owner};
    ghost use Rattle.packed_spread.specs.OwnerLaws.{value_owner_is_below};

    ghost ranges = { λ s. tasks.ranges s.by_value };

    ghost owner = { λ _. value_owner };

    ghost state_hash = { λ _ _. 0 };

    ghost is_below = { λ _. value_owner_is_below };

    fn owner_of(&self, state: &[u32], owners: usize) -> usize {
        if let Some(value) = state.first() {
            self.come_for(*value);
        }
        self.by_value.owner_of(state, owners)
    }

    fn hash_of(&self, state: &[u32]) -> u64 {
        self.by_value.hash_of(state)
    }

    fn owner_after(&self, state: &[u32], hash: u64, facts: &[Fact], owners: usize) -> usize {
        for fact in facts {
            if fact.variable == 0 {
                self.come_for(fact.value);
            }
        }
        self.by_value.owner_after(state, hash, facts, owners)
    }
}

/// A gate that stops worker 1 before its first turn.
#[derive(Drop)]
struct Refusal {
    stop: Stop,
}

impl Gate for Refusal {
    ghost use Rattle.std.specs.Prelude.{◌≡◌};

    ghost may_stop = { λ g worker turn stop. (worker ≡ 1) × (turn ≡ 1) × (stop ≡ g.stop) };

    fn turn(&self, worker: usize, turn: u64, _progress: Progress) -> Result<(), Stop> {
        if worker == 1 && turn == 1 {
            Err(self.stop)
        } else {
            Ok(())
        }
    }
}

/// A gate that counts first turns, and lets all pass.
#[derive(Drop)]
struct FirstTurns {
    count: AtomicU64,
}

impl Gate for FirstTurns {
    ghost may_stop = { λ _ _ _ _. ⊥ };

    fn turn(&self, _worker: usize, turn: u64, _progress: Progress) -> Result<(), Stop> {
        if turn == 1 {
            self.count.fetch_add(1, Ordering::SeqCst);
        }
        Ok(())
    }
}

/// Two paths from 0: over 2 to 4, which has no successor, and over 1 and 3 to the goal 5.
const FORK: &[(u32, u32, u64)] = &[(0, 1, 1), (0, 2, 1), (2, 4, 1), (1, 3, 1), (3, 5, 1)];

/// Returns the task of that fork.
fn fork(alloc: Global) -> Result<FdrTask, Fail> {
    Ok(walk(alloc, 6, 5, FORK)?.ok_or("a task")?)
}

/// Returns how a search of the task by `workers` workers ends with this gate: whether it is settled, or the fault.
fn ends<'t, R: Threads + Wait + Clock + Sync, G: Gate + Sync>(
    rt: &R,
    alloc: Global,
    task: &'t FdrTask,
    workers: usize,
    gate: &G,
) -> Result<Result<bool, EngineFault>, AllocError>
    requires { 0 < workers }
{
    // the type is given so that the borrow checker need not infer how long the space is borrowed
    let space: Space<'t, ByValue<'t>> = space_for(rt, alloc, task, None)?;
    let end: Result<Searched<'_, ByValue<'t>, Plain>, EngineFault> = search(
        rt, alloc, &space, workers, 64, gate,
    );
    match end {
        Ok(Searched::Settled(_)) => Ok(Ok(true)),
        Ok(Searched::Stopped(_, _)) => Ok(Ok(false)),
        Err(fault) => Ok(Err(fault)),
    }
}

#[test]
fn two_workers_take_turns_at_once(rt: HostRuntime) -> Result<(), Fail> {
    let task = fork(rt.alloc())?;
    let gate = Meeting::new();
    assert_eq!(&rt; ends(&rt, rt.alloc(), &task, 2, &gate)?, Ok(true));
    assert!(&rt; gate.is_met());
    Ok(())
}

/// Returns whether two workers settle the task at cost 3, although each waits for the other in an expansion.
fn settles_by_expansions_at_once<'t, R: Threads + Wait + Clock + Sync>(
    rt: &R,
    alloc: Global,
    task: &'t FdrTask,
    meeting: &'t Meeting,
) -> Result<bool, Fail> {
    let spread = MeetingSpread {
        by_value: ByValue::new(task),
        meeting,
    };
    let columns = make_columns(rt, alloc, task, &[])?;
    let space: Space<'t, MeetingSpread<'t>> = Space::new(
        alloc,
        task,
        columns,
        spread,
        None,
        Ties::Shallow,
    )?;
    let end: Result<Searched<'_, MeetingSpread<'t>, Plain>, EngineFault> = search(
        rt, alloc, &space, 2, 64, &Open,
    );
    match end {
        Ok(Searched::Settled(joined)) => Ok(
            joined.lower_bound(alloc)? == Dist::fin(3).ok_or("a distance")?,
        ),
        _ => Ok(false),
    }
}

#[test]
fn two_workers_expand_nodes_at_once(rt: HostRuntime) -> Result<(), Fail> {
    let task = fork(rt.alloc())?;
    let meeting = Meeting::new();
    assert!(&rt; settles_by_expansions_at_once(&rt, rt.alloc(), &task, &meeting)?);
    assert!(&rt; meeting.is_met());
    Ok(())
}

#[test]
fn a_stop_that_fails_names_the_worker_and_its_turn(rt: HostRuntime) -> Result<(), Fail> {
    let task = fork(rt.alloc())?;
    let gate = Refusal { stop: Stop::Fail };
    assert_eq!(&rt;
        ends(&rt, rt.alloc(), &task, 2, &gate)?,
        Err(EngineFault::Gate(1, 1))
    );
    Ok(())
}

#[test]
fn a_stop_as_at_a_limit_hands_the_owners_back(rt: HostRuntime) -> Result<(), Fail> {
    let task = fork(rt.alloc())?;
    let gate = Refusal { stop: Stop::Limit };
    assert_eq!(&rt; ends(&rt, rt.alloc(), &task, 2, &gate)?, Ok(false));
    Ok(())
}

/// Checks that a search by `workers` workers has as many first turns.
fn has_a_first_turn_each<R: Threads + Wait + Clock + Sync + Abort>(
    rt: &R,
    alloc: Global,
    workers: usize,
) -> Result<(), Fail>
    requires { 0 < workers }
{
    let task = fork(alloc)?;
    let gate = FirstTurns {
        count: AtomicU64::new(0),
    };
    assert_eq!(rt; ends(rt, alloc, &task, workers, &gate)?, Ok(true));
    assert_eq!(rt; gate.count.load(Ordering::SeqCst), workers as u64);
    Ok(())
}

#[test]
fn each_worker_has_one_first_turn(rt: HostRuntime) -> Result<(), Fail> {
    has_a_first_turn_each(&rt, rt.alloc(), 1)?;
    has_a_first_turn_each(&rt, rt.alloc(), 2)?;
    has_a_first_turn_each(&rt, rt.alloc(), 4)
}
