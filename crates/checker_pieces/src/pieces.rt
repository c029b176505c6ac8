//! The first violation of pieces, which threads search in parallel.

ghost use Rattle.std.specs.Prelude.{◌≡◌, ◌<◌, ◌+◌, length, slice_index_or, IfOk};
ghost use Rattle.checker_pieces.specs.Pieces.{IsFirstOf, AreStarts, AcceptsPieces, IsFirstOfPieces};

use crate::starts::{equal_starts, piece_count, start_at, weighed_starts, weight_of};
use checker_clauses::Violation;
use std::alloc::{AllocError, Global};
use std::thread;
use std::thread::Threads;

/// Returns the violation of the first of these pieces that has one. Fails if allocation failed in a piece before it.
fn first_of(
    pieces: &[Result<Option<Violation>, AllocError>],
) -> Result<Option<Violation>, AllocError>
    ensures { IfOk result (IsFirstOf pieces.now) }
{
    for piece in pieces {
        if let Some(violation) = (*piece)? {
            return Ok(Some(violation));
        }
    }
    Ok(None)
}

/// Returns the first violation among `len` items, in pieces that begin at `starts`, each of which a thread searches.
/// Fails if a piece fails before one has a violation, or if allocation fails.
fn first_from_starts<
    R: Threads + Sync,
    F: Fn(usize, usize) -> Result<Option<Violation>, AllocError> + Sync,
>(
    rt: &R,
    alloc: Global,
    starts: &[usize],
    len: usize,
    find: &F,
) -> Result<Option<Violation>, AllocError>
    requires starts { AreStarts len starts.now }
    requires find { AcceptsPieces (F.pre find.now) len }
    ensures { IfOk result (IsFirstOfPieces (F.post find.now) len) }
{
    let found = thread::map_indices(
        rt,
        alloc,
        starts.len(),
        &|piece: usize| -> Result<Option<Violation>, AllocError>
            requires piece { piece < length starts.now }
            requires starts { AreStarts len starts.now }
            requires find { AcceptsPieces (F.pre find.now) len }
            ensures { F.post find.entry.now (slice_index_or starts.entry.now piece len)
                (slice_index_or starts.entry.now (piece + 1) len) result }
        {
            find(
                start_at(starts, piece, len),
                start_at(starts, piece + 1, len),
            )
        },
    )?;
    first_of(&found)
}

/// Returns the first violation among `len` items, which are cut into pieces of about the same number of items: four for
/// each processor, at most 64, and only one if there are few items. Threads search the pieces in parallel. `find`
/// returns the first violation of a piece, from the item `start` on and before `end`. The violation does not depend on
/// the number of pieces.
///
/// Fails if `find` fails for a piece and finds no violation in a piece before it, or if allocation fails.
pub fn first_in_pieces<
    R: Threads + Sync,
    F: Fn(usize, usize) -> Result<Option<Violation>, AllocError> + Sync,
>(rt: &R, alloc: Global, len: usize, find: &F) -> Result<Option<Violation>, AllocError>
    requires { AcceptsPieces (F.pre find.now) len }
    ensures { IfOk result (IsFirstOfPieces (F.post find.now) len) }
{
    let starts = equal_starts(alloc, len, piece_count(rt, len))?;
    first_from_starts(rt, alloc, &starts, len, find)
}

/// Does the same as `first_in_pieces` with an item for each of the weights, in pieces of about the same weight. The
/// weights estimate how long the items take: weight 1 is about as long as one closed state.
pub fn first_in_weighed_pieces<
    R: Threads + Sync,
    F: Fn(usize, usize) -> Result<Option<Violation>, AllocError> + Sync,
>(rt: &R, alloc: Global, weights: &[usize], find: &F) -> Result<Option<Violation>, AllocError>
    requires { AcceptsPieces (F.pre find.now) (length weights.now) }
    ensures { IfOk result (IsFirstOfPieces (F.post find.now) (length weights.now)) }
{
    let starts = weighed_starts(alloc, weights, piece_count(rt, weight_of(weights)))?;
    first_from_starts(rt, alloc, &starts, weights.len(), find)
}
