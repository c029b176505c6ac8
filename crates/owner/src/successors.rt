//! The successors of a node.

ghost use Rattle.std.specs.Prelude.{◌≡◌, ◌≢◌, ◌+◌, ◌<◌, length, slice_get, Option, Some, None, true, false, map, All, IsTrue, IfOk, OnOk};
ghost use Rattle.fdr.specs.Tasks.{ranges, IsState, applies_at, with_values, cost_of};
ghost use Rattle.owner_theory.specs.Owners.{Node};
ghost use Rattle.closed.specs.declared.message.Parent.{Parent};
ghost use Rattle.closed.specs.declared.table.Outcome.TheVariants.{Kept};
ghost use Rattle.openlist.specs.declared.entry.Rank.{Rank};
ghost use Rattle.closed.specs.Tables.{outcome_of, fresh};
ghost use Rattle.owner_space.specs.Steps.{IsSmallStep};
ghost use Rattle.packed.specs.Masks.{effect_at};
ghost use Rattle.owner.specs.Owned.{space_of};
ghost use Rattle.closed.specs.Hints.{IsHintFor};
ghost use Rattle.owner.specs.Successors.{IsSuccessor, AreKnown, AreOwnHints};

use crate::holdings::Holdings;
use closed::{Hint, Outcome};
use openlist::{OpenEntry, Rank};
use owner_space::{effect_of, rank_after};
use packed::StateForm;
use packed_spread::Spread;
use std::alloc::{AllocError, Global};

/// A successor of a node.
#[derive(Drop)]
pub(crate) struct Successor<F: StateForm + Drop> {
    /// The number of the operator that generates it.
    pub(crate) operator: usize,
    /// The form of its state.
    pub(crate) state: F,
    /// The owner of the state.
    pub(crate) owner: usize,
    /// Whether the state is a goal state.
    pub(crate) is_goal: bool,
}

/// Returns the spread hash of a state, or 0 if there is only one owner: then no owner is computed from it.
fn hash_for_owners<S: Spread + Drop, F: StateForm + Drop>(
    holdings: &Holdings<'_, S, F>,
    state: &[u32],
) -> u64
    requires { IsState (ranges holdings.now.space.task) state.now }
    ensures { length holdings.now.outboxes ≢ 1 → result ≡ S.state_hash holdings.now.space.spread state.now }
{
    if holdings.owners() == 1 {
        return 0;
    }
    holdings.space().hash_of(state)
}

/// Returns the owner of the successor, by one operator, of a state; `hash` is the result of `hash_for_owners`. If there
/// is only one owner, the operator is not read.
fn owner_of_successor<S: Spread + Drop, F: StateForm + Drop>(
    holdings: &Holdings<'_, S, F>,
    state: &[u32],
    hash: u64,
    operator: usize,
) -> usize
    requires state { IsState (ranges holdings.now.space.task) state.now }
    requires hash { length holdings.now.outboxes ≢ 1 → hash ≡ S.state_hash holdings.now.space.spread state.now }
    ensures value { result
        ≡ S.owner holdings.now.space.spread (with_values (effect_at holdings.now.space.task operator) state.now) (length holdings.now.outboxes) }
    ensures below { result < length holdings.now.outboxes }
{
    holdings.recall(); // there is an owner
    let owners = holdings.owners();
    if owners == 1 {
        return 0;
    }
    let space = holdings.space();
    let effect = effect_of(space.task(), operator);
    space.owner_after(state, hash, effect, owners)
}

/// Returns the successor, by one operator, of the state of this form; `hash` is the result of `hash_for_owners`. It is
/// built from the operator's changes alone; the values are not written out.
fn make_successor<S: Spread + Drop, F: StateForm + Drop>(
    alloc: Global,
    holdings: &Holdings<'_, S, F>,
    form: &F,
    state: &[u32],
    hash: u64,
    operator: usize,
) -> Result<Successor<F>, AllocError>
    requires form { F.IsForm (ranges holdings.now.space.task) form.now }
    requires values { F.values (ranges holdings.now.space.task) form.now ≡ state.now }
    requires state { IsState (ranges holdings.now.space.task) state.now }
    requires hash { length holdings.now.outboxes ≢ 1 → hash ≡ S.state_hash holdings.now.space.spread state.now }
    requires applies { applies_at holdings.now.space.task operator state.now ≡ true }
    ensures operator { IfOk result (λ s. s.operator ≡ operator) }
    ensures made { IfOk result (IsSuccessor F.IsForm F.values (space_of S.owner holdings.now) state.now) }
{
    let masks = holdings.space().masks();
    let owner = owner_of_successor(holdings, state, hash, operator);
    let made = form.after(alloc, masks, operator)?;
    let is_goal = made.is_goal(masks);
    Ok(Successor {
        operator,
        state: made,
        owner,
        is_goal,
    })
}

/// Replaces the content of `successors` by the successors of the node at the index, whose state is `state`, by these
/// operators, in their order.
pub(crate) fn make_successors<S: Spread + Drop, F: StateForm + Drop>(
    alloc: Global,
    holdings: &Holdings<'_, S, F>,
    index: usize,
    state: &[u32],
    operators: &[usize],
    successors: &mut Vec<Successor<F>>,
) -> Result<(), AllocError>
    requires state { IsState (ranges holdings.now.space.task) state.now }
    requires node { (n : Node) × (slice_get holdings.now.nodes index ≡ Some n) × (state.now ≡ n.state) }
    requires apply { All (λ o. applies_at holdings.now.space.task o state.now ≡ true) operators.now }
    ensures operators { OnOk result (map (λ s. s.operator) successors.new.items ≡ operators.now) }
    ensures each { OnOk result (All (IsSuccessor F.IsForm F.values (space_of S.owner holdings.now) state.now) successors.new.items) }
{
    successors.clear();
    let form = holdings.form(index);
    let hash = hash_for_owners(holdings, state);
    for &operator in operators {
        let successor = make_successor(alloc, holdings, form, state, hash, operator)?;
        successors.push(successor)?;
    }
    Ok(())
}

/// Returns a hint for the successor's form if it belongs to this owner, and the hint for no form if not.
fn own_hint<S: Spread + Drop, F: StateForm + Drop>(
    holdings: &Holdings<'_, S, F>,
    successor: &Successor<F>,
) -> Hint
    ensures { successor.now.owner ≡ holdings.now.worker → IsHintFor F.hash_input successor.now.state result }
{
    if successor.owner == holdings.worker() {
        holdings.reached.hint(&successor.state)
    } else {
        Hint::NONE
    }
}

/// Replaces the content of `hints` by hints for this owner's successors, and by hints for no form for the others. The
/// slots are read in one loop, so that cache misses overlap.
fn read_hints<S: Spread + Drop, F: StateForm + Drop>(
    holdings: &Holdings<'_, S, F>,
    successors: &[Successor<F>],
    hints: &mut Vec<Hint>,
) -> Result<(), AllocError>
    ensures as_many { OnOk result (length hints.new.items ≡ length successors.now) }
    ensures hints { OnOk result (AreOwnHints F.hash_input holdings.now.worker successors.now hints.new.items) }
{
    hints.clear();
    for successor in successors {
        hints.push(own_hint(holdings, successor))?;
    }
    Ok(())
}

/// Returns whether this successor, of a state with rank `rank`, is a duplicate that changes nothing: its state belongs
/// to this owner, is no goal state, and was reached at the successor's rank or a lesser one. If it belongs to this
/// owner, the hint is one for its form.
fn changes_nothing<S: Spread + Drop, F: StateForm + Drop>(
    holdings: &Holdings<'_, S, F>,
    rank: Rank,
    successor: &Successor<F>,
    hint: Hint,
) -> bool
    requires form { F.IsForm (ranges holdings.now.space.task) successor.now.state }
    requires small { IsSmallStep holdings.now.space.task rank successor.now.operator }
    requires hint { successor.now.owner ≡ holdings.now.worker → IsHintFor F.hash_input successor.now.state hint }
    ensures { IsTrue result → (successor.now.owner ≡ holdings.now.worker) × (successor.now.is_goal ≡ false) × ((after : Rank) (parent : Option Parent) →
        after.cost ≡ rank.cost + cost_of holdings.now.space.task successor.now.operator → after.steps ≡ rank.steps + 1 →
        outcome_of holdings.now.nodes (fresh (F.values (ranges holdings.now.space.task) successor.now.state) after parent) ≡ Kept) }
{
    if successor.owner != holdings.worker() || successor.is_goal {
        return false;
    }
    let rank = rank_after(holdings.space().task(), rank, successor.operator);
    match holdings.look_hinted(&successor.state, rank, hint) {
        Outcome::Kept => true,
        _ => false,
    }
}

/// Replaces the content of `known` by whether each successor of the node `next`, whose state is `state`, is a duplicate
/// that changes nothing, and that of `hints` by hints for this owner's successors. All slots are read before all
/// entries, each in one loop, so that cache misses overlap.
pub(crate) fn look_up<S: Spread + Drop, F: StateForm + Drop>(
    holdings: &Holdings<'_, S, F>,
    next: OpenEntry,
    state: &[u32],
    successors: &[Successor<F>],
    hints: &mut Vec<Hint>,
    known: &mut Vec<bool>,
) -> Result<(), AllocError>
    requires each { All (IsSuccessor F.IsForm F.values (space_of S.owner holdings.now) state.now) successors.now }
    requires small { All (λ s. IsSmallStep holdings.now.space.task next.rank s.operator) successors.now }
    ensures as_many { OnOk result (length known.new.items ≡ length successors.now) }
    ensures as_many_hints { OnOk result (length hints.new.items ≡ length successors.now) }
    ensures hints { OnOk result (AreOwnHints F.hash_input holdings.now.worker successors.now hints.new.items) }
    ensures known { OnOk result (AreKnown (space_of S.owner holdings.now) holdings.now.worker next.index
        (fresh state.now next.rank None) holdings.now.nodes (map (λ s. s.operator) successors.now) known.new.items) }
{
    read_hints(holdings, successors, hints)?;
    known.clear();
    for place in 0..successors.len() {
        known.push(changes_nothing(holdings, next.rank, &successors[place], hints[place]))?;
    }
    Ok(())
}
