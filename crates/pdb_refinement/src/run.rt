//! One run of refinement.

ghost use Rattle.std.specs.Prelude.{◌≡◌, ◌≤◌, ◌^◌, true, None, [], All, IfOk, IfSome, OnOk};
ghost use Rattle.abstraction_mapping.specs.Views.{mapping_of};
ghost use Rattle.pdb_refinement.specs.Refinements.{IsRefinedWithin, is_of_kind};
ghost use Rattle.pdb_refinement.specs.Classes.{IsRowOf};

use crate::mappings::{mapping_by, rows_of};
use crate::rows::size_by;
use crate::split::split;
use abstraction_domain::ClassRow;
use abstraction_mapping::Mapping;
use fdr::FdrTask;
use pdb_flaws::{Bounds, Flaw, Kind, Limits, OperatorIndex, Outcome, Scratch, Search, explore};
use rand_xoshiro::SplitMix64;
use std::alloc::{AllocError, Global};

/// The result of a run.
#[derive(Drop)]
pub struct Refined {
    /// The abstraction, or `None` if no variable was split.
    pub mapping: Option<Mapping>,
    /// The number of transitions of the abstraction, with all classes of a variable that is not split as one.
    pub transitions: u64,
    /// The number of steps that the run took.
    pub work: u64,
    pub finding: Finding,
}

/// What a run finds out about the task. It is not proved.
#[derive(Clone, Copy, Debug, PartialEq, Eq)]
pub enum Finding {
    /// Neither of these.
    Open,
    /// A cheapest plan of the abstraction is a plan of the task, so that it is a cheapest one.
    Plan,
    /// The abstract initial state cannot reach an abstract goal, so that the task has no plan.
    Unsolvable,
}

/// A task, and what is wanted of its abstraction.
#[derive(Clone, Copy)]
pub(crate) struct Problem<'a> {
    pub(crate) task: &'a FdrTask,
    pub(crate) index: &'a OperatorIndex<'a>,
    pub(crate) considered: &'a [bool],
    pub(crate) banned: &'a [bool],
    pub(crate) kind: Kind,
    pub(crate) limits: &'a Limits,
}

/// The mapping by rows, or `None` if there are none.
fn mapping_in(
    alloc: Global,
    problem: &Problem<'_>,
    rows: &[ClassRow],
) -> Result<Option<Mapping>, AllocError>
    requires some { 1 ≤ problem.now.limits.now.states }
    requires small { problem.now.limits.now.states ≤ 2 ^ 24 }
    requires rows { All (IsRowOf problem.now.task.now problem.now.banned.now) rows.now }
    ensures within { IfOk result (λ found. IfSome found
        (λ m. IsRefinedWithin problem.now.task.now problem.now.limits.now.states problem.now.banned.now (mapping_of m))) }
    ensures kind { IfOk result (λ found. IfSome found (λ m. is_of_kind problem.now.kind (mapping_of m) ≡ true)) }
{
    let states = problem.limits.states;
    let mapping = mapping_by(alloc, problem.task, problem.kind, rows, states)?;
    Ok(mapping)
}

/// The rows of a mapping, and none if there is none.
fn rows_before(
    alloc: Global,
    problem: &Problem<'_>,
    fitted: &Option<Mapping>,
) -> Result<Vec<ClassRow>, AllocError>
    requires { IfSome fitted.now
        (λ m. IsRefinedWithin problem.now.task.now problem.now.limits.now.states problem.now.banned.now (mapping_of m)) }
    ensures { IfOk result (λ rows. All (IsRowOf problem.now.task.now problem.now.banned.now) rows.items) }
{
    match fitted {
        Some(mapping) => {
            let rows = rows_of(alloc, problem.task, mapping)?;
            Ok(rows)
        }
        None => Ok(Vec::new(alloc)),
    }
}

/// The variables that were split in a round.
#[derive(Clone, Copy)]
struct Splits {
    count: usize,
    /// The last of them.
    last: usize,
}

/// Splits the variables of the flaws in their order, at least one, until the number of abstract states has grown by a
/// tenth.
fn split_all(
    alloc: Global,
    problem: &Problem<'_>,
    bounds: &Bounds<'_>,
    flaws: &[Flaw],
    rows: &mut Vec<ClassRow>,
) -> Result<Splits, AllocError>
    requires { All (IsRowOf problem.now.task.now problem.now.banned.now) rows.old.items }
    ensures { OnOk result (All (IsRowOf problem.now.task.now problem.now.banned.now) rows.new.items) }
{
    let enough = size_by(rows).saturating_mul(11);
    let mut splits = Splits { count: 0, last: 0 };
    for flaw in flaws {
        if splits.count > 0 && (bounds.is_single || size_by(rows).saturating_mul(10) >= enough) {
            break;
        }
        if split(alloc, problem.task, problem.banned, bounds, flaw, rows)? {
            splits = Splits {
                count: splits.count.saturating_add(1),
                last: flaw.variable,
            };
        }
    }
    Ok(splits)
}

/// The state of a run.
#[derive(Drop)]
struct Progress {
    rows: Vec<ClassRow>,
    /// The last mapping whose abstraction was within the limits, or `None` for one abstract state.
    fitted: Option<Mapping>,
    /// The variables that are not split.
    fixed: Vec<bool>,
    /// The splits by which `rows` differ from the rows of `fitted`.
    splits: Splits,
    /// Whether the next round makes only one split.
    is_single: bool,
    work: u64,
    /// The number of transitions of the abstraction by `fitted`.
    transitions: u64,
    finding: Finding,
    /// Memory of earlier rounds.
    scratch: Scratch,
}

/// The flags, and more that are not set up to `count`.
fn longer(alloc: Global, flags: &[bool], count: usize) -> Result<Vec<bool>, AllocError> {
    let mut longer = Vec::with_capacity(alloc, count.max(flags.len()))?;
    longer.extend_from_slice(flags)?;
    for _ in flags.len()..count {
        longer.push(false)?;
    }
    Ok(longer)
}

impl Progress {
    /// Starts a run.
    fn new(alloc: Global, problem: &Problem<'_>) -> Result<Progress, AllocError>
        ensures rows { IfOk result (λ progress. progress.rows.items ≡ []) }
        ensures fitted { IfOk result (λ progress. progress.fitted ≡ None) }
    {
        Ok(Progress {
            rows: Vec::new(alloc),
            fitted: None,
            fixed: longer(alloc, problem.banned, problem.task.variable_count())?,
            splits: Splits { count: 0, last: 0 },
            is_single: false,
            work: 0,
            transitions: 0,
            finding: Finding::Open,
            scratch: Scratch::new(alloc, problem.limits.states)?,
        })
    }

    /// Goes back to the rows before the last splits, and makes the next splits different ones. Returns whether there
    /// were any.
    fn undo(&mut self, alloc: Global, problem: &Problem<'_>) -> Result<bool, AllocError>
        requires rows { All (IsRowOf problem.now.task.now problem.now.banned.now) self.old.rows.items }
        requires fitted { IfSome self.old.fitted
            (λ m. IsRefinedWithin problem.now.task.now problem.now.limits.now.states problem.now.banned.now (mapping_of m)) }
        ensures rows { OnOk result (All (IsRowOf problem.now.task.now problem.now.banned.now) self.new.rows.items) }
        ensures fitted { self.new.fitted ≡ self.old.fitted }
    {
        let splits = self.splits;
        if splits.count == 0 {
            return Ok(false);
        }
        self.rows = rows_before(alloc, problem, &self.fitted)?;
        self.splits = Splits { count: 0, last: 0 };
        if splits.count > 1 {
            self.is_single = true;
        } else if splits.last < self.fixed.len() {
            self.fixed[splits.last] = true;
        }
        Ok(true)
    }

    /// Splits by the flaws that the last round found. Returns whether something was split.
    fn refine(&mut self, alloc: Global, problem: &Problem<'_>) -> Result<bool, AllocError>
        requires { All (IsRowOf problem.now.task.now problem.now.banned.now) self.old.rows.items }
        ensures rows { OnOk result (All (IsRowOf problem.now.task.now problem.now.banned.now) self.new.rows.items) }
        ensures fitted { self.new.fitted ≡ self.old.fitted }
    {
        let bounds = Bounds {
            kind: problem.kind,
            fixed: &self.fixed,
            limit: problem.limits.states,
            is_single: self.is_single,
        };
        let flaws = self.scratch.flaws();
        self.splits = split_all(alloc, problem, &bounds, flaws, &mut self.rows)?;
        self.is_single = false;
        Ok(self.splits.count > 0)
    }

    /// Explores the abstraction by a mapping, or with one abstract state. Returns what that found.
    fn explore(
        &mut self,
        alloc: Global,
        problem: &Problem<'_>,
        mapping: &Option<Mapping>,
        words: &mut SplitMix64,
    ) -> Result<Outcome, AllocError>
        requires { problem.now.index.now ≡ problem.now.task.now }
        ensures rows { self.new.rows ≡ self.old.rows }
        ensures fitted { self.new.fitted ≡ self.old.fitted }
    {
        let bounds = Bounds {
            kind: problem.kind,
            fixed: &self.fixed,
            limit: problem.limits.states,
            is_single: self.is_single,
        };
        let search = Search {
            task: problem.task,
            index: problem.index,
            considered: problem.considered,
            limits: problem.limits,
        };
        let left = problem.limits.work.saturating_sub(self.work);
        let scratch = &mut self.scratch;
        let round = match mapping {
            Some(mapping) => explore(alloc, &search, mapping, bounds, left, words, scratch)?,
            None => {
                let empty = Mapping::Pattern(Vec::new(alloc));
                explore(alloc, &search, &empty, bounds, left, words, scratch)?
            }
        };
        self.work = self.work.saturating_add(round.work);
        if round.outcome != Outcome::Refused {
            self.transitions = round.transitions;
        }
        Ok(round.outcome)
    }

    /// Makes a round. Returns whether refinement goes on.
    fn advance(
        &mut self,
        alloc: Global,
        problem: &Problem<'_>,
        words: &mut SplitMix64,
    ) -> Result<bool, AllocError>
        requires index { problem.now.index.now ≡ problem.now.task.now }
        requires some { 1 ≤ problem.now.limits.now.states }
        requires small { problem.now.limits.now.states ≤ 2 ^ 24 }
        requires rows { All (IsRowOf problem.now.task.now problem.now.banned.now) self.old.rows.items }
        requires fitted { IfSome self.old.fitted
            (λ m. IsRefinedWithin problem.now.task.now problem.now.limits.now.states problem.now.banned.now (mapping_of m)) }
        requires kind { IfSome self.old.fitted (λ m. is_of_kind problem.now.kind (mapping_of m) ≡ true) }
        ensures rows { OnOk result (All (IsRowOf problem.now.task.now problem.now.banned.now) self.new.rows.items) }
        ensures fitted { OnOk result (IfSome self.new.fitted
            (λ m. IsRefinedWithin problem.now.task.now problem.now.limits.now.states problem.now.banned.now (mapping_of m))) }
        ensures kind { OnOk result (IfSome self.new.fitted (λ m. is_of_kind problem.now.kind (mapping_of m) ≡ true)) }
    {
        let mapping = mapping_in(alloc, problem, &self.rows)?;
        let outcome = self.explore(alloc, problem, &mapping, words)?;
        if outcome == Outcome::Refused {
            return self.undo(alloc, problem);
        }
        self.fitted = mapping;
        match outcome {
            Outcome::Refused | Outcome::Spent => Ok(false),
            Outcome::Unsolvable => {
                self.finding = Finding::Unsolvable;
                Ok(false)
            }
            Outcome::Plan => {
                self.finding = Finding::Plan;
                Ok(false)
            }
            Outcome::Flaws => self.refine(alloc, problem),
        }
    }
}

/// Makes rounds until refinement ends.
fn rounds(
    alloc: Global,
    problem: &Problem<'_>,
    words: &mut SplitMix64,
) -> Result<Progress, AllocError>
    requires index { problem.now.index.now ≡ problem.now.task.now }
    requires some { 1 ≤ problem.now.limits.now.states }
    requires small { problem.now.limits.now.states ≤ 2 ^ 24 }
    ensures fitted { IfOk result (λ progress. IfSome progress.fitted
        (λ m. IsRefinedWithin problem.now.task.now problem.now.limits.now.states problem.now.banned.now (mapping_of m))) }
    ensures kind { IfOk result (λ progress. IfSome progress.fitted (λ m. is_of_kind problem.now.kind (mapping_of m) ≡ true)) }
{
    let mut progress = Progress::new(alloc, problem)?;
    for _ in 0..u64::MAX {
        if !progress.advance(alloc, problem, words)? || progress.work > problem.limits.work {
            break;
        }
    }
    Ok(progress)
}

/// Makes a run. Its mapping is the last whose abstraction was within the limits.
pub(crate) fn run_by(
    alloc: Global,
    problem: &Problem<'_>,
    words: &mut SplitMix64,
) -> Result<Refined, AllocError>
    requires index { problem.now.index.now ≡ problem.now.task.now }
    requires some { 1 ≤ problem.now.limits.now.states }
    requires small { problem.now.limits.now.states ≤ 2 ^ 24 }
    ensures within { IfOk result (λ refined. IfSome refined.mapping
        (λ m. IsRefinedWithin problem.now.task.now problem.now.limits.now.states problem.now.banned.now (mapping_of m))) }
    ensures kind { IfOk result (λ refined. IfSome refined.mapping (λ m. is_of_kind problem.now.kind (mapping_of m) ≡ true)) }
{
    let progress = rounds(alloc, problem, words)?;
    Ok(Refined {
        mapping: progress.fitted,
        transitions: progress.transitions,
        work: progress.work,
        finding: progress.finding,
    })
}
