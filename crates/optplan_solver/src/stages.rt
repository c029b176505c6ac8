//! Multi-threaded searches for a plan of a task: one alone, or several in stages, with small tables first.

ghost use Rattle.std.specs.Prelude.{◌≡◌, ◌<◌, ◌∷◌, [], true, map, IfOk, IfErr};
ghost use Rattle.std.specs.Option.{option_map};
ghost use Rattle.cost.specs.Distances.{Distance};
ghost use Rattle.fdr.specs.Tasks.{ranges};
ghost use Rattle.packed_spread.specs.Spreads.{zobrist_owner};
ghost use Rattle.optplan_search.specs.Findings.{plain, IsOwnFinding, IsSettledEnd};
ghost use Rattle.optplan_solver.specs.ThreadedSearches.{IsThreadedSpace, EndsIn, IsRefusedIn, stops_in};
ghost use Rattle.scp.specs.Partitions.{mappings_of};
ghost use Rattle.scp_orders.specs.Orders.{AreOrders};
ghost use Rattle.optplan_solver.specs.Stages.{IsKnownOf, IsFoundAt, IsFoundWhenStopped, IsSearchFound, IsStageFound};

use crate::kinds::copied_wanted;
use crate::known::{better_known, with_known};
use crate::spread::threaded_spread;
use crate::stage_gate::StageGate;
use abstraction_mapping::Mapping;
use cert_value::CertificateKind;
use engine::{Cause, EndingGate, EngineFault, Gate, Searched, search};
use extract::Joined;
use fdr::FdrTask;
use optplan_options::{Options, STAGES, Tables};
use optplan_search::{
    Answer, Found, FoundPlan, SearchFault, SoFar, found_when_settled, so_far_of, space_for,
};
use owner::Space;
use packed::{StateForm, in_smallest_form};
use packed_spread::Zobrist;
use scp::{ColumnTable, Columns, choose_columns};
use scp_stages::{orders_of, stage_columns};
use std::alloc::{AllocError, Global};
use std::sync::Wait;
use std::thread::Threads;
use std::time::Clock;

/// The result of a stage.
#[derive(Drop)]
pub(crate) enum StageFound {
    /// The search was settled, or stopped, but not because the stage ended.
    Answered(Found),
    /// The stage ended: what its search knows, unless nothing can stop a later one, and the orders of the mappings of
    /// its columns.
    Ended(Option<SoFar<FoundPlan>>, Vec<Vec<Mapping>>),
}

/// Returns the search space of a multi-threaded search, with these columns.
fn threaded_space<'a>(
    alloc: Global,
    task: &'a FdrTask,
    columns: Columns<'a>,
    options: &Options,
) -> Result<Space<'a, Zobrist<'a>>, AllocError>
    requires { columns.task ≡ task.now }
    ensures { IfOk result (IsThreadedSpace task.now options.now) }
{
    let spread = threaded_spread(alloc, task)?;
    space_for(alloc, task, columns, options, spread)
}

/// Returns what a search knows that was stopped because a stage ended: its bound, with a certificate if one is wanted,
/// which takes time and memory in proportion to the states that it has expanded, and its best plan. `None` if nothing
/// can stop a later search before it is settled: no limit on expansions, and a gate that never ends a search.
fn known_at<'a, R: Threads + Sync, F: StateForm + Drop, G: Gate>(
    rt: &R,
    alloc: Global,
    joined: &Joined<'a, Zobrist<'a>, F>,
    options: &Options,
    wanted: &Option<CertificateKind>,
    gate: &G,
) -> Result<Option<SoFar<FoundPlan>>, AllocError>
    requires { (at : Distance) → IsSettledEnd zobrist_owner joined.now at → ⊥ }
    ensures { IfOk result (IsKnownOf options.now (G.may_stop gate.now) joined.now.space.task (option_map plain wanted.now) (joined.now ∷ [])) }
{
    if options.limit().is_none() && gate.never_limits() {
        return Ok(None);
    }
    Ok(Some(so_far_of(rt, alloc, joined, copied_wanted(alloc, wanted)?)?))
}

/// Returns what a search has found whose owners are settled, with a certificate if one is wanted.
fn settled_at<'a, R: Threads + Sync, F: StateForm + Drop>(
    rt: &R,
    alloc: Global,
    joined: &Joined<'a, Zobrist<'a>, F>,
    wanted: &Option<CertificateKind>,
) -> Result<StageFound, AllocError>
    requires settled { (bound : Distance) × IsSettledEnd zobrist_owner joined.now bound }
    ensures { IfOk result (IsFoundAt joined.now (option_map plain wanted.now)) }
{
    joined.recall();
    let found = found_when_settled(rt, alloc, joined, copied_wanted(alloc, wanted)?)?;
    Ok(StageFound::Answered(found))
}

/// Returns the result of a search that was stopped for this reason: what it has found, or, if its stage ended, what it
/// knows, with the orders of the mappings of its columns.
fn stopped_at<'a, R: Threads + Sync, F: StateForm + Drop, G: Gate>(
    rt: &R,
    alloc: Global,
    joined: &Joined<'a, Zobrist<'a>, F>,
    cause: Cause,
    options: &Options,
    wanted: &Option<CertificateKind>,
    gate: &G,
) -> Result<StageFound, AllocError>
    requires { (at : Distance) → IsSettledEnd zobrist_owner joined.now at → ⊥ }
    ensures { IfOk result (IsFoundWhenStopped options.now (G.may_stop gate.now) (option_map plain wanted.now) joined.now cause) }
{
    joined.recall();
    match cause {
        Cause::Limit | Cause::Gate => {
            let known = so_far_of(rt, alloc, joined, copied_wanted(alloc, wanted)?)?;
            Ok(StageFound::Answered(Answer::Limit(known)))
        }
        Cause::Stage => {
            let known = known_at(rt, alloc, joined, options, wanted, gate)?;
            let orders = orders_of(alloc, joined.space().columns())?;
            Ok(StageFound::Ended(known, orders))
        }
    }
}

/// Returns the result of a multi-threaded search, for states of the form `F`.
fn by_threads<
    'a,
    R: Threads + Wait + Clock + Sync,
    G: EndingGate + Sync,
    F: StateForm + Drop + Send,
>(
    rt: &R,
    alloc: Global,
    space: &'a Space<'a, Zobrist<'a>>,
    options: &Options,
    wanted: &Option<CertificateKind>,
    gate: &G,
) -> Result<StageFound, SearchFault>
    requires fits { F.Fits (ranges space.now.task) }
    requires space { IsThreadedSpace space.now.task options.now space.now }
    ensures found { IfOk result (IsStageFound options.now (G.may_stop gate.now) space.now.task (option_map plain wanted.now)) }
    ensures refused { IfErr result (IsRefusedIn options.now (G.may_stop gate.now) space.now.task) }
{
    let (workers, capacity) = (options.workers(), options.ring());
    match search::<R, Zobrist<'a>, F, G>(rt, alloc, space, workers, capacity, gate) {
        Ok(Searched::Settled(joined)) => Ok(settled_at(rt, alloc, &joined, wanted)?),
        Ok(Searched::Stopped(joined, cause)) => {
            Ok(stopped_at(rt, alloc, &joined, cause, options, wanted, gate)?)
        }
        Err(EngineFault::OutOfMemory) => Err(SearchFault::OutOfMemory),
        Err(EngineFault::TotalTooLarge) => Err(SearchFault::TotalTooLarge),
        Err(EngineFault::Gate(_, _)) => unreachable!(),
    }
}

/// Returns the result of a multi-threaded search, of owners whose states have the smallest form.
fn by_threads_in_smallest_form<'a, R: Threads + Wait + Clock + Sync, G: EndingGate + Sync>(
    rt: &R,
    alloc: Global,
    space: &'a Space<'a, Zobrist<'a>>,
    options: &Options,
    wanted: &Option<CertificateKind>,
    gate: &G,
) -> Result<StageFound, SearchFault>
    requires { IsThreadedSpace space.now.task options.now space.now }
    ensures found { IfOk result (IsStageFound options.now (G.may_stop gate.now) space.now.task (option_map plain wanted.now)) }
    ensures refused { IfErr result (IsRefusedIn options.now (G.may_stop gate.now) space.now.task) }
{
    in_smallest_form!(
        space.layout(),
        by_threads::<R, G>(rt, alloc, space, options, wanted, gate)
    )
}

/// Returns the result of a multi-threaded search with these columns. They, its states and its threads are gone when it
/// returns.
fn found_with<'a, R: Threads + Wait + Clock + Sync, G: EndingGate + Sync>(
    rt: &R,
    alloc: Global,
    task: &'a FdrTask,
    columns: Columns<'a>,
    options: &Options,
    wanted: &Option<CertificateKind>,
    gate: &G,
) -> Result<StageFound, SearchFault>
    requires { columns.task ≡ task.now }
    ensures found { IfOk result (IsStageFound options.now (G.may_stop gate.now) task.now (option_map plain wanted.now)) }
    ensures refused { IfErr result (IsRefusedIn options.now (G.may_stop gate.now) task.now) }
{
    let space: Space<'a, Zobrist<'a>> = threaded_space(alloc, task, columns, options)?;
    by_threads_in_smallest_form(rt, alloc, &space, options, wanted, gate)
}

/// Returns the number of abstract states of the tables of a column.
fn abstract_states_of(column: &[ColumnTable<'_>]) -> usize {
    let mut count: usize = 0;
    for table in column {
        count = count.saturating_add(table.table().values.len());
    }
    count
}

/// Notifies the gate that a stage, counted from 0, begins with these columns.
fn announce<G: Gate>(gate: &G, stage: usize, columns: &Columns<'_>) {
    let (mut tables, mut abstract_states): (usize, usize) = (0, 0);
    for column in columns.tables() {
        tables = tables.saturating_add(column.len());
        abstract_states = abstract_states.saturating_add(abstract_states_of(column));
    }
    gate.stage_begins(stage.saturating_add(1), tables, abstract_states);
}

/// Returns the result of a stage that has an end, after a stage whose columns had the orders `earlier`.
fn found_in_stage<'a, R: Threads + Wait + Clock + Sync, G: EndingGate + Sync>(
    rt: &R,
    alloc: Global,
    task: &'a FdrTask,
    options: &Options,
    stage: usize,
    earlier: &[Vec<Mapping>],
    wanted: &Option<CertificateKind>,
    gate: &G,
) -> Result<StageFound, SearchFault>
    requires stage { stage < 3 }
    requires earlier { AreOrders task.now (map mappings_of earlier.now) }
    ensures found { IfOk result (IsStageFound options.now (stops_in true (G.may_stop gate.now)) task.now (option_map plain wanted.now)) }
    ensures refused { IfErr result (IsRefusedIn options.now (stops_in true (G.may_stop gate.now)) task.now) }
{
    let end = options.stage_ends()[stage];
    let stage_gate = StageGate::new(rt, gate, Some(end), options.workers());
    let columns = stage_columns(rt, alloc, task, stage, earlier)?;
    announce(gate, stage, &columns);
    found_with(rt, alloc, task, columns, options, wanted, &stage_gate)
}

/// Returns the finding of one search with these columns, which only the caller's gate and the limit on expansions may
/// stop.
fn found_without_end<'a, R: Threads + Wait + Clock + Sync, G: EndingGate + Sync>(
    rt: &R,
    alloc: Global,
    task: &'a FdrTask,
    columns: Columns<'a>,
    options: &Options,
    wanted: &Option<CertificateKind>,
    gate: &G,
) -> Result<Found, SearchFault>
    requires { columns.task ≡ task.now }
    ensures found { IfOk result (IsSearchFound options.now (G.may_stop gate.now) task.now (option_map plain wanted.now)) }
    ensures refused { IfErr result (IsRefusedIn options.now (G.may_stop gate.now) task.now) }
{
    let gate = StageGate::new(rt, gate, None, options.workers());
    match found_with(rt, alloc, task, columns, options, wanted, &gate)? {
        StageFound::Answered(found) => Ok(found),
        StageFound::Ended(_, _) => unreachable!(),
    }
}

/// Returns the finding of one search, with tables of the size that the options allow.
fn found_alone<'a, R: Threads + Wait + Clock + Sync, G: EndingGate + Sync>(
    rt: &R,
    alloc: Global,
    task: &'a FdrTask,
    options: &Options,
    wanted: &Option<CertificateKind>,
    gate: &G,
) -> Result<Found, SearchFault>
    ensures found { IfOk result (IsSearchFound options.now (G.may_stop gate.now) task.now (option_map plain wanted.now)) }
    ensures refused { IfErr result (IsRefusedIn options.now (G.may_stop gate.now) task.now) }
{
    let columns = choose_columns(rt, alloc, task, options.table())?;
    found_without_end(rt, alloc, task, columns, options, wanted, gate)
}

/// Returns the finding of searches in stages, each from nothing, until one of them is settled or stopped for another
/// reason than the end of its stage. What an earlier stage knows is not lost: if the last search was stopped, the
/// finding has the greatest bound of all stages, with its certificate if one is wanted, and the cheapest of their
/// plans.
fn found_by_stages<'a, R: Threads + Wait + Clock + Sync, G: EndingGate + Sync>(
    rt: &R,
    alloc: Global,
    task: &'a FdrTask,
    options: &Options,
    wanted: &Option<CertificateKind>,
    gate: &G,
) -> Result<Found, SearchFault>
    ensures found { IfOk result (IsOwnFinding task.now (option_map plain wanted.now) (EndsIn Tables.Staged options.now (G.may_stop gate.now) task.now)) }
    ensures refused { IfErr result (IsRefusedIn options.now (G.may_stop gate.now) task.now) }
{
    let mut known = None;
    let mut orders = Vec::new(alloc);
    for stage in 0..STAGES {
        match found_in_stage(rt, alloc, task, options, stage, &orders, wanted, gate)? {
            StageFound::Answered(found) => return Ok(with_known(known, found)),
            StageFound::Ended(now, of_stage) => {
                known = better_known(known, now);
                orders = of_stage;
            }
        }
    }
    let columns = stage_columns(rt, alloc, task, STAGES, &orders)?;
    announce(gate, STAGES, &columns);
    let found = found_without_end(rt, alloc, task, columns, options, wanted, gate)?;
    Ok(with_known(known, found))
}

/// Returns the finding for the task by the chosen number of workers, each in a thread of its own, as `found_by_threads`
/// does without a reduction.
pub(crate) fn found_without_reduction<'a, R: Threads + Wait + Clock + Sync, G: EndingGate + Sync>(
    rt: &R,
    alloc: Global,
    task: &'a FdrTask,
    options: &Options,
    wanted: &Option<CertificateKind>,
    gate: &G,
) -> Result<Found, SearchFault>
    ensures found { IfOk result (IsOwnFinding task.now (option_map plain wanted.now) (EndsIn options.now.tables options.now (G.may_stop gate.now) task.now)) }
    ensures refused { IfErr result (IsRefusedIn options.now (G.may_stop gate.now) task.now) }
{
    match options.tables() {
        Tables::Goal => found_alone(rt, alloc, task, options, wanted, gate),
        Tables::Staged => found_by_stages(rt, alloc, task, options, wanted, gate),
    }
}
