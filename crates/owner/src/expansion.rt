//! The expansion of a node.

ghost use Rattle.std.specs.Prelude.{◌≡◌, ◌≢◌, ◌+◌, suc, [], length, slice_set, Some, None, true, filter_map, is_some, if◌then◌else◌, All, IfOk, OnOk, OnErr};
ghost use Rattle.fdr.specs.Tasks.{ranges, IsState, applies_at};
ghost use Rattle.owner_theory.specs.Owners.{At, Node, treat_all, successor_by, marked, mark_node};
ghost use Rattle.owner_theory.specs.Worlds.{waiting};
ghost use Rattle.openlist.specs.declared.entry.OpenEntry.{OpenEntry as EntryOf};
ghost use Rattle.closed.specs.Tables.{padded, fresh};
ghost use Rattle.owner.specs.Owned.{space_of, under};
ghost use Rattle.owner_reached.specs.Queues.{h_of, IsLeast};
ghost use Rattle.owner_space.specs.Steps.{IsSmallStep};
ghost use Rattle.owner.specs.Held.{places_in};
ghost use Rattle.owner.specs.Batches.{ArePosted};

use crate::batch::{Batch, place_unknown};
use crate::holdings::Holdings;
use crate::successors::{Successor, look_up, make_successors};
use closed::Hint;
use cost::Dist;
use openlist::OpenEntry;
use packed::StateForm;
use packed_spread::Spread;
use scp::Places;
use std::alloc::{AllocError, Global};

/// Buffers for the successors of a node.
#[derive(Drop)]
pub(crate) struct Buffers<F: StateForm + Drop> {
    successors: Vec<Successor<F>>,
    /// For each successor of the owner's own a hint for its form.
    hints: Vec<Hint>,
    /// For each successor whether it is known to change nothing.
    known: Vec<bool>,
    batch: Batch<F>,
}

impl<F: StateForm + Drop> Buffers<F> {
    /// Returns empty buffers.
    pub(crate) fn new(alloc: Global) -> Buffers<F> {
        Buffers {
            successors: Vec::new(alloc),
            hints: Vec::new(alloc),
            known: Vec::new(alloc),
            batch: Batch::new(alloc),
        }
    }
}

/// Expands the owner's next node, whose state's table indices are cached, by these operators in their order: all
/// successors are generated, then all are looked up, then those that may change something are routed, and then the node
/// is marked and the owner's own successors are taken. On failure the batch's `receivers` lists the outboxes from which
/// messages are to be withdrawn.
fn try_to_expand<S: Spread + Drop, F: StateForm + Drop>(
    alloc: Global,
    holdings: &mut Holdings<'_, S, F>,
    bound: Dist,
    next: OpenEntry,
    places: &mut Places<'_>,
    operators: &[usize],
    buffers: &mut Buffers<F>,
) -> Result<(), AllocError>
    requires allowed { holdings.old.space.limit ≢ Some holdings.old.expansions }
    requires least { IsLeast holdings.old.space.ties (h_of holdings.old.space) holdings.old.nodes holdings.old.ever next }
    requires state { IsState (ranges holdings.old.space.task) places.old.state }
    requires of_next { (n : Node) → At holdings.old.nodes next.index n → places.old.state ≡ n.state }
    requires places { places.old ≡ places_in holdings.old.space places.old.state }
    requires apply { All (λ o. applies_at holdings.old.space.task o places.old.state ≡ true) operators.now }
    requires small { All (IsSmallStep holdings.old.space.task next.rank) operators.now }
    ensures treated { OnOk result ((n : Node) → At holdings.old.nodes next.index n → under holdings.new bound
        ≡ treat_all (space_of S.owner holdings.old) holdings.old.worker (mark_node (under holdings.old bound) next.index n)
        (filter_map (successor_by holdings.old.space.task holdings.old.worker next.index (fresh places.old.state next.rank None)) operators.now)) }
    ensures ever { OnOk result (holdings.new.ever ≡ padded (slice_set holdings.old.ever next.index true) (length holdings.new.nodes)) }
    ensures put_out { OnOk result (waiting holdings.new.outboxes ≡ waiting holdings.old.outboxes + length buffers.new.batch.receivers.items) }
    ensures owners { OnOk result (length holdings.new.outboxes ≡ length holdings.old.outboxes) }
    ensures space { OnOk result (holdings.new.space ≡ holdings.old.space) }
    ensures worker { OnOk result (holdings.new.worker ≡ holdings.old.worker) }
    ensures counted { OnOk result (holdings.new.expansions
        ≡ (if is_some holdings.old.space.limit then suc holdings.old.expansions else holdings.old.expansions)) }
    ensures posted { OnErr result (ArePosted holdings.old holdings.new [] buffers.new.batch.receivers.items) }
    ensures places { places.new ≡ places.old }
{
    buffers.batch.clear(holdings.best);
    make_successors(
        alloc,
        holdings,
        next.index,
        places.state(),
        operators,
        &mut buffers.successors,
    )?;
    look_up(
        holdings,
        next,
        places.state(),
        &buffers.successors,
        &mut buffers.hints,
        &mut buffers.known,
    )?;
    place_unknown(
        alloc,
        holdings,
        bound,
        next,
        places,
        &buffers.successors,
        &buffers.hints,
        &buffers.known,
        &mut buffers.batch,
    )?;
    holdings.expand_next(&mut buffers.batch)?;
    Ok(())
}

/// Expands the owner's next node, whose state's table indices are cached, by these operators in their order. Returns
/// the number of successors that were put into outboxes. On failure the owner is unchanged.
pub(crate) fn expand_node<S: Spread + Drop, F: StateForm + Drop>(
    alloc: Global,
    holdings: &mut Holdings<'_, S, F>,
    bound: Dist,
    next: OpenEntry,
    places: &mut Places<'_>,
    operators: &[usize],
    buffers: &mut Buffers<F>,
) -> Result<usize, AllocError>
    requires allowed { holdings.old.space.limit ≢ Some holdings.old.expansions }
    requires least { IsLeast holdings.old.space.ties (h_of holdings.old.space) holdings.old.nodes holdings.old.ever next }
    requires state { IsState (ranges holdings.old.space.task) places.old.state }
    requires of_next { (n : Node) → At holdings.old.nodes next.index n → places.old.state ≡ n.state }
    requires places { places.old ≡ places_in holdings.old.space places.old.state }
    requires apply { All (λ o. applies_at holdings.old.space.task o places.old.state ≡ true) operators.now }
    requires small { All (IsSmallStep holdings.old.space.task next.rank) operators.now }
    ensures treated { OnOk result ((n : Node) → At holdings.old.nodes next.index n → under holdings.new bound
        ≡ treat_all (space_of S.owner holdings.old) holdings.old.worker (mark_node (under holdings.old bound) next.index n)
        (filter_map (successor_by holdings.old.space.task holdings.old.worker next.index (fresh places.old.state next.rank None)) operators.now)) }
    ensures ever { OnOk result (holdings.new.ever ≡ padded (slice_set holdings.old.ever next.index true) (length holdings.new.nodes)) }
    ensures posted { IfOk result (λ posted. waiting holdings.new.outboxes ≡ waiting holdings.old.outboxes + posted) }
    ensures owners { length holdings.new.outboxes ≡ length holdings.old.outboxes }
    ensures space { holdings.new.space ≡ holdings.old.space }
    ensures worker { holdings.new.worker ≡ holdings.old.worker }
    ensures counted { OnOk result (holdings.new.expansions
        ≡ (if is_some holdings.old.space.limit then suc holdings.old.expansions else holdings.old.expansions)) }
    ensures unchanged { OnErr result (holdings.new ≡ holdings.old) }
    ensures places { places.new ≡ places.old }
{
    match try_to_expand(alloc, holdings, bound, next, places, operators, buffers) {
        Ok(()) => Ok(buffers.batch.receivers.len()),
        Err(error) => {
            holdings.withdraw(&mut buffers.batch.receivers);
            Err(error)
        }
    }
}

/// Expands the owner's next node, whose successors are all to be dropped: the node is marked and counted, and nothing
/// else changes. On failure the owner is unchanged.
pub(crate) fn expand_alone<S: Spread + Drop, F: StateForm + Drop>(
    holdings: &mut Holdings<'_, S, F>,
    buffers: &mut Buffers<F>,
) -> Result<(), AllocError>
    requires allowed { holdings.old.space.limit ≢ Some holdings.old.expansions }
    requires some { (e : EntryOf) × IsLeast holdings.old.space.ties (h_of holdings.old.space) holdings.old.nodes holdings.old.ever e }
    ensures expanded { OnOk result ((e : EntryOf) (n : Node) →
        IsLeast holdings.old.space.ties (h_of holdings.old.space) holdings.old.nodes holdings.old.ever e →
        At holdings.old.nodes e.index n → holdings.new ≡ record holdings.old {
          nodes = slice_set holdings.old.nodes e.index (marked n);
          ever = padded (slice_set holdings.old.ever e.index true) (length holdings.new.nodes);
          expansions = if is_some holdings.old.space.limit then suc holdings.old.expansions else holdings.old.expansions;
        }) }
    ensures owners { length holdings.new.outboxes ≡ length holdings.old.outboxes }
    ensures space { holdings.new.space ≡ holdings.old.space }
    ensures worker { holdings.new.worker ≡ holdings.old.worker }
    ensures unchanged { OnErr result (holdings.new ≡ holdings.old) }
{
    buffers.batch.clear(holdings.best);
    holdings.expand_next(&mut buffers.batch)
}
