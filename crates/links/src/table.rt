//! The links between all pairs of workers.

ghost use Rattle.std.specs.Prelude.{◌≡◌, length, IfOk, vec_len};
ghost use Rattle.links.specs.Tables.{rows, AreFresh, grown, AreMatched, HasSize};

use crate::ends::{In, Out};
use crate::pair::link;
use packed::StateForm;
use std::alloc::{AllocError, Global};

/// The ends of all links: `outs[w][v]` and `ins[v][w]` are the two ends of the link from worker w to worker v.
#[derive(Drop)]
pub struct LinkTable<F: StateForm + Drop> {
    /// The sending ends, by sender and then by receiver.
    pub outs: Vec<Vec<Out<F>>>,
    /// The receiving ends, by receiver and then by sender.
    pub ins: Vec<Vec<In<F>>>,
}

/// Creates `workers` links, each with room for `capacity` messages.
fn links_from<F: StateForm + Drop>(
    alloc: Global,
    workers: usize,
    capacity: usize,
) -> Result<(Vec<Out<F>>, Vec<In<F>>), AllocError>
    ensures size { IfOk result (λ r. (vec_len r.0 ≡ workers) × (vec_len r.1 ≡ workers)) }
    ensures fresh { IfOk result (λ r. AreFresh capacity r.0.items r.1.items) }
{
    let mut outs = Vec::with_capacity(alloc, workers)?;
    let mut ins = Vec::with_capacity(alloc, workers)?;
    for _ in 0..workers {
        let (sender, receiver) = link(alloc, capacity)?;
        outs.push(sender)?;
        ins.push(receiver)?;
    }
    Ok((outs, ins))
}

/// Appends one more receiving end to each worker's row.
fn add_ends<F: StateForm + Drop>(
    alloc: Global,
    ins: Vec<Vec<In<F>>>,
    ends: Vec<In<F>>,
) -> Result<Vec<Vec<In<F>>>, AllocError>
    requires { vec_len ins ≡ vec_len ends }
    ensures { IfOk result (λ r. rows r.items ≡ grown (rows ins.items) ends.items) }
{
    let mut all = Vec::with_capacity(alloc, ins.len())?;
    for (mut row, end) in ins.into_iter().zip(ends) {
        row.push(end)?;
        all.push(row)?;
    }
    Ok(all)
}

/// Returns an empty row of receiving ends for each of `workers` workers.
fn no_ends<F: StateForm + Drop>(
    alloc: Global,
    workers: usize,
) -> Result<Vec<Vec<In<F>>>, AllocError>
    ensures { IfOk result (λ r. HasSize workers 0 (rows r.items)) }
{
    let mut ins = Vec::with_capacity(alloc, workers)?;
    for _ in 0..workers {
        ins.push(Vec::new(alloc))?;
    }
    Ok(ins)
}

impl<F: StateForm + Drop> LinkTable<F> {
    /// Creates a link from each of `workers` workers to each of them, itself included, with room for `capacity`
    /// messages, over which nothing was sent.
    pub fn new(alloc: Global, workers: usize, capacity: usize) -> Result<LinkTable<F>, AllocError>
        ensures size { IfOk result (λ t. HasSize workers workers (rows t.outs.items) × HasSize workers workers (rows t.ins.items)) }
        ensures matched { IfOk result (λ t. AreMatched capacity (rows t.outs.items) (rows t.ins.items)) }
    {
        let mut outs = Vec::with_capacity(alloc, workers)?;
        let mut ins = no_ends(alloc, workers)?;
        for _ in 0..workers {
            let (senders, receivers) = links_from(alloc, workers, capacity)?;
            outs.push(senders)?;
            ins = add_ends(alloc, ins, receivers)?;
        }
        Ok(LinkTable { outs, ins })
    }
}
