//! The starts of the pieces of a list of items.

ghost use Rattle.std.specs.Prelude.{◌≡◌, ◌<◌, ◌≤◌, length, slice_index_or, IfOk};
ghost use Rattle.checker_pieces.specs.Pieces.{AreStarts};

use std::alloc::{AllocError, Global};
use std::num::NonZeroUsize;
use std::thread;
use std::thread::Threads;

/// The greatest number of pieces.
const MAX_PIECES: usize = 64;

/// The least work for which another thread is worth its start, in items of weight 1.
const WORK_OF_A_THREAD: usize = 4096;

/// The number of pieces for each processor. The items of some pieces take longer than those of others, so with one
/// piece each some processors would be idle at the end.
const PIECES_OF_A_PROCESSOR: usize = 4;

/// Returns the number of pieces into which the work is cut: `PIECES_OF_A_PROCESSOR` for each processor, but at most as
/// many as the work is worth.
pub(crate) fn piece_count(rt: &impl Threads, work: usize) -> usize
    ensures some { 0 < result }
    ensures few { result ≤ 64 }
{
    let processors = thread::available_parallelism(rt).map_or(1, NonZeroUsize::get);
    processors
        .saturating_mul(PIECES_OF_A_PROCESSOR)
        .min(work / WORK_OF_A_THREAD)
        .clamp(1, MAX_PIECES)
}

/// Returns the starts of `pieces` pieces of about the same number of items.
pub(crate) fn equal_starts(
    alloc: Global,
    len: usize,
    pieces: usize,
) -> Result<Vec<usize>, AllocError>
    requires { 0 < pieces }
    ensures starts { IfOk result (λ starts. AreStarts len starts.items) }
    ensures count { IfOk result (λ starts. length starts.items ≡ pieces) }
{
    let size = len.div_ceil(pieces);
    let mut starts = Vec::with_capacity(alloc, pieces)?;
    for piece in 0..pieces {
        starts.push(size.saturating_mul(piece).min(len))?;
    }
    Ok(starts)
}

/// Returns the sum of the weights, capped at `usize::MAX`.
pub(crate) fn weight_of(weights: &[usize]) -> usize {
    let mut sum = 0_usize;
    for weight in weights {
        sum = sum.saturating_add(*weight);
    }
    sum
}

/// Returns the starts of at most `pieces` pieces of about the same weight, of items with these weights. A new piece
/// begins at the first item for which the weight before it and half of its own reach the end of the share of the pieces
/// so far.
pub(crate) fn weighed_starts(
    alloc: Global,
    weights: &[usize],
    pieces: usize,
) -> Result<Vec<usize>, AllocError>
    requires { 0 < pieces }
    ensures starts { IfOk result (λ starts. AreStarts (length weights.now) starts.items) }
    ensures count { IfOk result (λ starts. length starts.items ≤ pieces) }
{
    let share = weight_of(weights).div_ceil(pieces);
    let mut starts = vec![in alloc; 0; 1]?;
    let mut before = 0_usize;
    for place in 0..weights.len() {
        let weight = weights[place];
        let end = share.saturating_mul(starts.len());
        if starts.len() < pieces && before.saturating_add(weight / 2) >= end {
            starts.push(place)?;
        }
        before = before.saturating_add(weight);
    }
    Ok(starts)
}

/// Returns the start of the piece with this number, or `len` if there is none.
pub(crate) fn start_at(starts: &[usize], piece: usize, len: usize) -> usize
    ensures { result ≡ slice_index_or starts.now piece len }
{
    match starts.get(piece) {
        Some(start) => *start,
        None => len,
    }
}
