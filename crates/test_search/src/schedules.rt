//! Two owners of the values of one variable, the even ones and the odd ones, without columns.

use cert::{cert_of, write_cert};
use cert_value::CertificateKind;
use extract::plan_of;
use fdr::FdrTask;
use netcore::WorldStep::{Deliver, Expand, Look, Offer, Rest, Send};
use netcore::{Joined, SearchAnswer, World, WorldStep};
use owner::{Space, Ties};
use packed::{Bits, StateForm};
use packed_spread::{ByValue, Spread};
use sasfile::read_sas;
use scp::make_columns;
use std::alloc::{AllocError, Global};
use std::process::Abort;
use std::thread::Threads;

/// One variable of three values, initially 0, with the goal 2. Operators 0: 0 to 1 at cost 0; 1: 1 to 0 at cost 0; 2: 1
/// to 2 at cost 1.
pub(crate) const CYCLE: &str = "begin_version
3
end_version
begin_metric
1
end_metric
1
begin_variable
var0
-1
3
Atom at(a)
Atom at(b)
Atom at(c)
end_variable
0
begin_state
0
end_state
begin_goal
1
0 2
end_goal
3
begin_operator
go a b
0
1
0 0 0 1
0
end_operator
begin_operator
go b a
0
1
0 0 1 0
0
end_operator
begin_operator
go b c
0
1
0 0 1 2
1
end_operator
0
";

/// One variable of four values, initially 0, with the goal 3. Operators 0: 0 to 1 at cost 9; 1: 0 to 2 at cost 2; 2: 2
/// to 1 at cost 2; 3: 0 to 3 at cost 3; 4: 1 to 3 at cost 5.
const DETOUR: &str = "begin_version
3
end_version
begin_metric
1
end_metric
1
begin_variable
var0
-1
4
Atom at(a)
Atom at(b)
Atom at(c)
Atom at(d)
end_variable
0
begin_state
0
end_state
begin_goal
1
0 3
end_goal
5
begin_operator
go a b
0
1
0 0 0 1
9
end_operator
begin_operator
go a c
0
1
0 0 0 2
2
end_operator
begin_operator
go c b
0
1
0 0 2 1
2
end_operator
begin_operator
go a d
0
1
0 0 0 3
3
end_operator
begin_operator
go b d
0
1
0 0 1 3
5
end_operator
0
";

/// Owner 0 takes two messages in the order in which they were sent.
const CYCLE_IN_ORDER: &[WorldStep] = &[
    Expand(0),
    Send(0, 1),
    Deliver(1, 0),
    Expand(1),
    Send(1, 0),
    Send(1, 0),
    Deliver(0, 0),
    Deliver(0, 0),
    Offer(0),
    Look(0),
    Look(1),
    Rest(0),
    Rest(1),
];

/// Owner 0 takes them in the opposite order.
const CYCLE_TURNED: &[WorldStep] = &[
    Expand(0),
    Send(0, 1),
    Deliver(1, 0),
    Expand(1),
    Send(1, 0),
    Send(1, 0),
    Deliver(0, 1),
    Deliver(0, 0),
    Offer(0),
    Look(0),
    Look(1),
    Rest(0),
    Rest(1),
];

/// State 1 is expanded at cost 9, and then reached at cost 4.
const DETOUR_IMPROVED: &[WorldStep] = &[
    Expand(0),
    Send(0, 1),
    Deliver(1, 0),
    Expand(1),
    Expand(0),
    Send(0, 1),
    Send(0, 1),
    Deliver(1, 0),
    Offer(1),
    Look(1),
    Deliver(1, 0),
    Rest(1),
    Rest(0),
];

/// The goal is reached before the others, so that state 1 is never expanded.
const DETOUR_GOAL_FIRST: &[WorldStep] = &[
    Expand(0),
    Send(0, 1),
    Send(0, 1),
    Deliver(1, 1),
    Offer(1),
    Look(1),
    Deliver(1, 0),
    Expand(0),
    Send(0, 1),
    Deliver(1, 0),
    Rest(1),
    Rest(0),
];

/// Owner 0 has read the bound when it expands state 2, so the successor at cost 4 is discarded.
const DETOUR_DROPPED: &[WorldStep] = &[
    Expand(0),
    Send(0, 1),
    Deliver(1, 0),
    Expand(1),
    Send(0, 1),
    Deliver(1, 0),
    Offer(1),
    Look(0),
    Look(1),
    Expand(0),
    Rest(0),
    Rest(1),
];

/// Checks that no work is left, and that the owners are settled at the cost.
fn is_settled<S: Spread + Drop, F: StateForm + Drop>(
    rt: &impl Abort,
    alloc: Global,
    world: &World<'_, S, F>,
    cost: u64,
) {
    assert_eq!(rt; world.count(), 0);
    let answer = world.answer(alloc).expect(rt, "memory");
    assert_eq!(rt; answer, Some(SearchAnswer::Solved(cost)));
}

/// Returns the plan to the best goal node, if there is one.
fn best_plan<S: Spread + Drop, F: StateForm + Drop>(
    alloc: Global,
    joined: &Joined<'_, S, F>,
) -> Result<Option<Vec<usize>>, AllocError> {
    match joined.best(alloc)? {
        Some(goal) => Ok(Some(plan_of(alloc, joined, goal)?)),
        None => Ok(None),
    }
}

/// Checks that the best goal node is reached by this plan.
fn has_plan<S: Spread + Drop, F: StateForm + Drop>(
    rt: &impl Abort,
    alloc: Global,
    joined: &Joined<'_, S, F>,
    plan: &[usize],
) {
    let found = best_plan(alloc, joined)
        .expect(rt, "memory")
        .expect(rt, "a goal node");
    assert_eq!(rt; found.as_slice(), plan);
}

/// Returns the text of the certificate.
fn certificate_text<S: Spread + Drop, F: StateForm + Drop>(
    rt: &(impl Threads + Sync),
    alloc: Global,
    joined: &Joined<'_, S, F>,
) -> Result<Vec<u8>, AllocError> {
    let certificate = cert_of(rt, alloc, joined, CertificateKind::Sas)?;
    write_cert(alloc, &certificate)
}

/// Checks the plan to the best goal node, and the text of the certificate.
fn has_answer<S: Spread + Drop, F: StateForm + Drop>(
    rt: &(impl Abort + Threads + Sync),
    alloc: Global,
    joined: &Joined<'_, S, F>,
    plan: &[usize],
    text: &str,
) {
    has_plan(rt, alloc, joined, plan);
    let written = certificate_text(rt, alloc, joined).expect(rt, "memory");
    assert_eq!(rt; written.as_slice(), text.as_bytes());
}

/// Returns the space of the task without columns.
fn space_for<'t, R: Threads + Sync>(
    rt: &R,
    alloc: Global,
    task: &'t FdrTask,
) -> Result<Space<'t, ByValue<'t>>, AllocError> {
    let columns = make_columns(rt, alloc, task, &[])?;
    Space::new(
        alloc,
        task,
        columns,
        ByValue::new(task),
        None,
        Ties::Shallow,
    )
}

/// Performs the steps with two owners, and checks that no work is left and that they are settled at the cost. `None` if
/// a step is refused.
fn run_to_the_end<'a, S: Spread + Drop>(
    rt: &impl Abort,
    alloc: Global,
    space: &'a Space<'a, S>,
    steps: &[WorldStep],
    cost: u64,
) -> Option<Joined<'a, S, Bits<1>>> {
    assert!(rt; Bits::<1>::fits(space.layout()), "states of one word");
    match World::run(alloc, space, 2, steps) {
        Ok(world) => {
            is_settled(rt, alloc, &world, cost);
            Some(world.joined())
        }
        Err(_) => None,
    }
}

/// As `run_to_the_end`, with this plan and this text of a certificate at the end.
fn end_so<'a, S: Spread + Drop>(
    rt: &(impl Abort + Threads + Sync),
    alloc: Global,
    space: &'a Space<'a, S>,
    steps: &[WorldStep],
    cost: u64,
    plan: &[usize],
    text: &str,
) -> bool {
    match run_to_the_end(rt, alloc, space, steps, cost) {
        Some(joined) => {
            has_answer(rt, alloc, &joined, plan, text);
            true
        }
        None => false,
    }
}

/// Performs the steps with two owners of the task's states, and checks that no work is left and that they are settled
/// at the cost, with this plan and this text of a certificate.
fn settle<'t, R: Threads + Sync + Abort>(
    rt: &R,
    alloc: Global,
    task: &'t FdrTask,
    steps: &[WorldStep],
    cost: u64,
    plan: &[usize],
    text: &str,
) {
    // the type is given so that the borrow checker need not infer how long the space is borrowed
    let space: Space<'t, ByValue<'t>> = space_for(rt, alloc, task).expect(rt, "memory");
    assert!(rt;
        end_so(rt, alloc, &space, steps, cost, plan, text),
        "an end of the steps"
    );
}

/// As `settle`, for the task of a text.
fn settle_text<R: Threads + Sync + Abort>(
    rt: &R,
    alloc: Global,
    sas: &str,
    steps: &[WorldStep],
    cost: u64,
    plan: &[usize],
    text: &str,
) {
    let task = read_sas(alloc, sas.as_bytes()).expect(rt, "a task");
    settle(rt, alloc, &task, steps, cost, plan, text);
}

const CYCLE_CERTIFICATE: &str = "optplan-cert 2
sas
bound 1
columns 0
closed 2
0 0
0 1
end
";

const DETOUR_CERTIFICATE: &str = "optplan-cert 2
sas
bound 3
columns 0
closed 2
0 0
2 2
end
";

const DETOUR_LONG_CERTIFICATE: &str = "optplan-cert 2
sas
bound 3
columns 0
closed 3
0 0
9 1
2 2
end
";

fn settles_the_cycle<R: Threads + Sync + Abort>(rt: &R, alloc: Global, steps: &[WorldStep]) {
    settle_text(rt, alloc, CYCLE, steps, 1, &[0, 2], CYCLE_CERTIFICATE);
}

#[test]
fn cycle_of_cost_0(rt: HostRuntime) {
    settles_the_cycle(&rt, rt.alloc(), CYCLE_IN_ORDER);
    settles_the_cycle(&rt, rt.alloc(), CYCLE_TURNED);
}

fn settles_the_detour<R: Threads + Sync + Abort>(
    rt: &R,
    alloc: Global,
    steps: &[WorldStep],
    text: &str,
) {
    settle_text(rt, alloc, DETOUR, steps, 3, &[3], text);
}

#[test]
fn detours(rt: HostRuntime) {
    settles_the_detour(&rt, rt.alloc(), DETOUR_IMPROVED, DETOUR_CERTIFICATE);
    settles_the_detour(&rt, rt.alloc(), DETOUR_GOAL_FIRST, DETOUR_CERTIFICATE);
    settles_the_detour(&rt, rt.alloc(), DETOUR_DROPPED, DETOUR_LONG_CERTIFICATE);
}
