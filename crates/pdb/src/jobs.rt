//! Several tables at once.

ghost use Rattle.std.specs.Prelude.{◌≡◌, ◌<◌, ◌^◌, length, All, IfOk};
ghost use Rattle.std.specs.List.{AllZip};
ghost use Rattle.fdr.specs.Tasks.{FiniteDomainTask};
ghost use Rattle.pdb.specs.Jobs.{IsTableOf};

use crate::search::distances;
use abstraction_groups::BackwardAbstraction;
use cert_value::Values;
use rayon::prelude::*;
use std::alloc::{AllocError, Global};
use std::thread::Threads;

/// A table to compute: its abstraction, and the share of each operator of the task, in the order of their numbers.
#[derive(Drop)]
pub struct Job<'a, A> {
    /// The abstraction of the task.
    pub abstraction: &'a A,
    /// One share for each operator, each below 2^31.
    pub shares: &'a [u32],
}

/// Returns the distances of each job, in order, as `distances` computes them, in parallel; the result does not depend
/// on the number of threads. Each share must be below 2^31.
pub fn build_all<R: Threads + Sync, A: BackwardAbstraction + Sync>(
    rt: &R,
    alloc: Global,
    jobs: &[Job<'_, A>],
) -> Result<Vec<Values>, AllocError>
where
    A::Transitions: Sync,
    requires operators { All (λ job. length job.shares.now ≡ length (A.task job.abstraction.now).operators) jobs.now }
    requires small { All (λ job. All (λ share. share < 2 ^ 31) job.shares.now) jobs.now }
    ensures { IfOk result (λ tables. AllZip
        (λ job values. IsTableOf (A.abstraction job.abstraction.now) job.shares.now values) jobs.now tables.items) }
{
    jobs.par_iter()
        // a table takes long, so each may have a thread of its own
        .with_min_len(1)
        .map(
            |job: &Job<'_, A>| -> Result<Values, AllocError>
                requires operators { length job.now.shares.now ≡ length (A.task job.now.abstraction.now).operators }
                requires small { All (λ share. share < 2 ^ 31) job.now.shares.now }
                ensures { IfOk result (λ values. IsTableOf (A.abstraction job.now.abstraction.now) job.now.shares.now values) }
            { distances(alloc, job.abstraction, job.shares) },
        )
        .collect::<Result<Vec<Values>, AllocError>>(rt, alloc)?
}
