//! Searches for a plan of a task in one thread, by a schedule, which is a list of steps or random.

ghost use Rattle.std.specs.Prelude.{IfOk, IfErr};
ghost use Rattle.std.specs.Option.{option_map};
ghost use Rattle.cert_value.specs.Views.{kind_of};
ghost use Rattle.fdr.specs.Tasks.{ranges};
ghost use Rattle.optplan_search.specs.Findings.{plain, IsOwnFinding, IsFinding};
ghost use Rattle.optplan_search.specs.Searches.{IsSimulatedSpace, EndsAfter, IsRefusedAfter, EndsBySeed, IsRefusedBySeed};

use crate::fault::SearchFault;
use crate::found::{Found, found_by};
use crate::observer::Observer;
use crate::schedule::simulated;
use crate::space::space_for;
use cert_value::CertificateKind;
use fdr::FdrTask;
use netcore::{World, WorldStep};
use optplan_options::Options;
use owner::{OwnerFault, Space};
use packed::{StateForm, in_smallest_form};
use packed_spread::Zobrist;
use scp::choose_columns;
use std::alloc::{AllocError, Global};
use std::thread::Threads;

/// Returns the search space of a single-threaded search: columns of tables of the size that the options allow (the
/// contract does not specify them), and states that are spread by a hash of all variables.
fn simulated_space<'a, R: Threads + Sync>(
    rt: &R,
    alloc: Global,
    task: &'a FdrTask,
    options: &Options,
) -> Result<Space<'a, Zobrist<'a>>, AllocError>
    ensures { IfOk result (IsSimulatedSpace task.now options.now) }
{
    let columns = choose_columns(rt, alloc, task, options.table())?;
    space_for(alloc, task, columns, options, Zobrist::new(alloc, task)?)
}

/// A schedule of the owners' steps in one thread.
trait Course {
    ghost use Rattle.std.specs.Prelude.{◌≡◌, IfOk, IfErr};
    ghost use Rattle.fdr.specs.Tasks.{FiniteDomainTask, ranges};
    ghost use Rattle.packed_spread.specs.Spreads as spread;
    ghost use Rattle.optplan_options.specs.Choices.{Choices};
    ghost use Rattle.optplan_search.specs.SearchEnds.{EndsOf, single};
    ghost use Rattle.optplan_search.specs.Searches.{IsSimulatedSpace, end_of};
    ghost use Rattle.optplan_search.specs.declared.fault.SearchFault.{SearchFault};
    ghost use Rattle.optplan_search.specs.declared.fault.SearchFault.TheVariants.{OutOfMemory};

    /// The ends of searches for a task by this schedule.
    ghost ends: { Self → Choices → FiniteDomainTask → EndsOf spread.Zobrist → Type 0 };

    /// Why a search for a task by this schedule may be refused.
    ghost refuses: { Self → Choices → FiniteDomainTask → SearchFault → Type 0 };

    /// Returns the world of owners at the end of the schedule.
    fn run<'a, F: StateForm + Drop>(
        &self,
        alloc: Global,
        space: &'a Space<'a, Zobrist<'a>>,
        options: &Options,
    ) -> Result<World<'a, Zobrist<'a>, F>, SearchFault>
        requires fits { F.Fits (ranges space.now.task) }
        requires space { IsSimulatedSpace space.now.task options.now space.now }
        ensures over { IfOk result (λ w. w.space ≡ space.now) }
        ensures ended { IfOk result (λ w. ends self.now options.now space.now.task (single (end_of w))) }
        ensures refused { IfErr result (refuses self.now options.now space.now.task) };

    /// Every search may be refused because allocation fails.
    ghost memory: { (c : Self) (choices : Choices) (task : FiniteDomainTask) → refuses c choices task OutOfMemory };
}

/// A list of steps.
#[derive(Drop)]
struct Steps<'s> {
    steps: &'s [WorldStep],
}

impl<'s> Course for Steps<'s> {
    ghost use Rattle.optplan_search.specs.Searches.{EndsAfter, IsRefusedAfter};

    ghost ends = { λ c choices. EndsAfter choices c.steps.now };

    ghost refuses = { λ c choices. IsRefusedAfter choices c.steps.now };

    ghost memory = { λ c choices task. tt };

    fn run<'a, F: StateForm + Drop>(
        &self,
        alloc: Global,
        space: &'a Space<'a, Zobrist<'a>>,
        options: &Options,
    ) -> Result<World<'a, Zobrist<'a>, F>, SearchFault> {
        match World::<'a, Zobrist<'a>, F>::run(alloc, space, options.workers(), self.steps) {
            Ok(world) => Ok(world),
            Err(OwnerFault::LimitReached) => unreachable!(),
            Err(OwnerFault::TotalTooLarge) => Err(SearchFault::TotalTooLarge),
            Err(OwnerFault::OutOfMemory) => Err(SearchFault::OutOfMemory),
        }
    }
}

/// Random steps from a seed, with an observer to which progress is reported.
#[derive(Drop)]
struct Draws<'o, O: Observer> {
    seed: u64,
    observer: &'o O,
}

impl<'o, O: Observer> Course for Draws<'o, O> {
    ghost use Rattle.optplan_search.specs.Searches.{EndsBySeed, IsRefusedBySeed};

    ghost ends = { λ c choices. EndsBySeed choices c.seed };

    ghost refuses = { λ c choices. IsRefusedBySeed choices c.seed };

    ghost memory = { λ c choices task. tt };

    fn run<'a, F: StateForm + Drop>(
        &self,
        alloc: Global,
        space: &'a Space<'a, Zobrist<'a>>,
        options: &Options,
    ) -> Result<World<'a, Zobrist<'a>, F>, SearchFault> {
        let (workers, steps) = (options.workers(), options.steps());
        match simulated::<Zobrist<'a>, O, F>(
            alloc,
            space,
            workers,
            self.seed,
            steps,
            self.observer,
        ) {
            Ok(world) => Ok(world),
            Err(OwnerFault::LimitReached) => unreachable!(),
            Err(OwnerFault::TotalTooLarge) => Err(SearchFault::TotalTooLarge),
            Err(OwnerFault::OutOfMemory) => Err(SearchFault::OutOfMemory),
        }
    }
}

/// Returns the finding at the end of a schedule, of owners whose states have the form `F`.
fn found_in<'a, R: Threads + Sync, C: Course, F: StateForm + Drop>(
    rt: &R,
    alloc: Global,
    space: &'a Space<'a, Zobrist<'a>>,
    options: &Options,
    course: &C,
    wanted: Option<CertificateKind>,
) -> Result<Found, SearchFault>
    requires fits { F.Fits (ranges space.now.task) }
    requires space { IsSimulatedSpace space.now.task options.now space.now }
    ensures found { IfOk result (IsOwnFinding space.now.task (option_map plain wanted) (C.ends course.now options.now space.now.task)) }
    ensures refused { IfErr result (C.refuses course.now options.now space.now.task) }
{
    let world: World<'a, Zobrist<'a>, F> = course.run(alloc, space, options)?;
    Ok(found_by(rt, alloc, &world.joined(), wanted)?)
}

/// Returns the finding at the end of a schedule, of owners whose states have the smallest form.
fn found_in_smallest_form<'a, R: Threads + Sync, C: Course>(
    rt: &R,
    alloc: Global,
    space: &'a Space<'a, Zobrist<'a>>,
    options: &Options,
    course: &C,
    wanted: Option<CertificateKind>,
) -> Result<Found, SearchFault>
    requires { IsSimulatedSpace space.now.task options.now space.now }
    ensures found { IfOk result (IsOwnFinding space.now.task (option_map plain wanted) (C.ends course.now options.now space.now.task)) }
    ensures refused { IfErr result (C.refuses course.now options.now space.now.task) }
{
    in_smallest_form!(
        space.layout(),
        found_in::<R, C>(rt, alloc, space, options, course, wanted)
    )
}

/// Returns the finding for the task at the end of a schedule.
fn found_on<'a, R: Threads + Sync, C: Course>(
    rt: &R,
    alloc: Global,
    task: &'a FdrTask,
    options: &Options,
    course: &C,
    wanted: Option<CertificateKind>,
) -> Result<Found, SearchFault>
    ensures found { IfOk result (IsFinding task.now (option_map kind_of wanted) (C.ends course.now options.now task.now)) }
    ensures refused { IfErr result (C.refuses course.now options.now task.now) }
{
    let space: Space<'a, Zobrist<'a>> = simulated_space(rt, alloc, task, options)?;
    found_in_smallest_form(rt, alloc, &space, options, course, wanted)
}

/// Returns the finding for the task after these steps of a world of owners: a cheapest plan, or that there is none; if
/// the owners are not settled, a lower bound on the cost of every plan, and possibly a plan. `wanted` is the kind of
/// the certificate to make, `None` if none is made. Stops before the first step that asks an owner for more nodes than
/// its limit allows.
///
/// Fails with `TotalTooLarge` if a path would have a cost or a number of operators above 2^62, or if allocation fails.
/// The contract states all this of some world after such steps, in a space whose tables partition the costs, not of
/// this one.
pub fn found_after<'a, R: Threads + Sync>(
    rt: &R,
    alloc: Global,
    task: &'a FdrTask,
    options: &Options,
    steps: &[WorldStep],
    wanted: Option<CertificateKind>,
) -> Result<Found, SearchFault>
    ensures found { IfOk result (IsFinding task.now (option_map kind_of wanted) (EndsAfter options.now steps.now task.now)) }
    ensures refused { IfErr result (IsRefusedAfter options.now steps.now task.now) }
{
    found_on(rt, alloc, task, options, &Steps { steps }, wanted)
}

/// Returns the finding for the task after random steps from the seed, at most as many as the options allow: a cheapest
/// plan, or that there is none; if the owners are not settled, a lower bound on the cost of every plan, and possibly a
/// plan. `wanted` is the kind of the certificate to make, `None` if none is made. Stops before the first step that asks
/// an owner for more nodes than its limit allows.
///
/// Fails with `TotalTooLarge` if a path would have a cost or a number of operators above 2^62, or if allocation fails.
/// The contract states all this of some world after such steps, in a space whose tables partition the costs, not of
/// this one.
pub fn found_by_seed<'a, R: Threads + Sync, O: Observer>(
    rt: &R,
    alloc: Global,
    task: &'a FdrTask,
    options: &Options,
    seed: u64,
    wanted: Option<CertificateKind>,
    observer: &O,
) -> Result<Found, SearchFault>
    ensures found { IfOk result (IsFinding task.now (option_map kind_of wanted) (EndsBySeed options.now seed task.now)) }
    ensures refused { IfErr result (IsRefusedBySeed options.now seed task.now) }
{
    found_on(rt, alloc, task, options, &Draws { seed, observer }, wanted)
}
