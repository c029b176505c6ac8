//! Refinement as callers see it.

ghost use Rattle.std.specs.Prelude.{◌≡◌, ◌≤◌, ◌^◌, true, IfOk, IfSome};
ghost use Rattle.abstraction_mapping.specs.Views.{mapping_of};
ghost use Rattle.pdb_refinement.specs.Refinements.{IsRefinedWithin, is_of_kind};

use crate::run::{Problem, Refined, run_by};
use abstraction_mapping::Mapping;
use fdr::FdrTask;
use pdb_flaws::{Extent, Kind, Limits, OperatorIndex, Search, extent_by};
use rand_xoshiro::SplitMix64;
use std::alloc::{AllocError, Global};
use std::marker::Model;

/// Makes abstractions of a task. In contracts its value is the task.
#[derive(Drop)]
pub struct Refiner<'a> {
    task: &'a FdrTask,
    index: OperatorIndex<'a>,
}

impl<'a> Model for Refiner<'a> {
    ghost use Rattle.std.specs.Prelude.{◌≡◌};
    ghost use Rattle.fdr.specs.Tasks.{FiniteDomainTask};

    ghost Value = { FiniteDomainTask };

    ghost view = { λ r. r.task.now };

    ghost invariant = { λ r. r.index ≡ r.task.now };
}

impl<'a> Refiner<'a> {
    /// Prepares the runs of refinement on a task: indexes its operators by the variables of their effects.
    pub fn new(alloc: Global, task: &'a FdrTask) -> Result<Refiner<'a>, AllocError>
        ensures { IfOk result (λ r. r ≡ task.now) }
    {
        let index = OperatorIndex::new(alloc, task)?;
        Ok(Refiner { task, index })
    }

    /// Makes an abstraction towards the considered facts of the goal, those at whose index `considered` has `true`,
    /// by one run of refinement. No variable at whose index `banned` has `true` is split.
    ///
    /// A round makes the groups and transitions of the abstraction, follows an abstract plan from the initial state,
    /// and splits variables whose values differ from what the plan's operators or the goal ask for, until the number
    /// of abstract states has grown by a tenth. If an abstraction passes the limit of transitions, the last splits
    /// are undone; if it was one, its variable is not split again in this run, and else the next round makes only
    /// one. Refinement ends if no flaw can be repaired within the limit of abstract states, if there is no abstract
    /// plan, and after the work of the limits.
    ///
    /// What is proved is that the mapping is one of the task, within the limit of abstract states, without banned
    /// variables and of the kind. Which classes are split is not, since every mapping of the task is admissible.
    pub fn refine(
        &self,
        alloc: Global,
        considered: &[bool],
        banned: &[bool],
        kind: Kind,
        limits: &Limits,
        words: &mut SplitMix64,
    ) -> Result<Refined, AllocError>
        requires some { 1 ≤ limits.now.states }
        requires small { limits.now.states ≤ 2 ^ 24 }
        ensures within { IfOk result (λ refined. IfSome refined.mapping (λ m. IsRefinedWithin self.now limits.now.states banned.now (mapping_of m))) }
        ensures kind { IfOk result (λ refined. IfSome refined.mapping (λ m. is_of_kind kind (mapping_of m) ≡ true)) }
    {
        let problem = Problem {
            task: self.task,
            index: &self.index,
            considered,
            banned,
            kind,
            limits,
        };
        run_by(alloc, &problem, words)
    }

    /// Counts the transitions of the abstraction by a mapping, as far as they are within the limits. The count is not
    /// proved, since it only guides the choice of abstractions.
    pub fn extent(
        &self,
        alloc: Global,
        mapping: &Mapping,
        limits: &Limits,
    ) -> Result<Extent, AllocError> {
        let search = Search {
            task: self.task,
            index: &self.index,
            considered: &[],
            limits,
        };
        extent_by(alloc, &search, mapping)
    }
}
