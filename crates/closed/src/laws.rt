//! Laws of the nodes of reached states, for all nodes.

ghost use Rattle.std.specs.Prelude.{◌≡◌, ℕ, List, map, fold, Some, slice_get};
ghost use Rattle.owner_theory.specs.Owners as machine;
ghost use Rattle.owner_theory.specs.Owners.{Node, node_of, improve};
ghost use Rattle.openlist.specs.declared.entry.Rank.{Rank};
ghost use Rattle.closed.specs.declared.message.Message.{Message};
ghost use Rattle.closed.specs.declared.message.Parent.{Parent};
ghost use Rattle.closed.specs.declared.table.Outcome.TheVariants.{New, Better, Kept};
ghost use Rattle.closed.specs.Tables.{parent_of, message_of, fresh, reached, outcome_of, arrival};
ghost use Rattle.closed.specs.Outcomes.{ComesLast, GivesWay, Stays};

use packed::StateForm;

/// Proves that reaching the states of messages changes the nodes as an owner of states does when it takes these
/// messages, and that so does reaching a state from one of its own.
pub fn reaching_is_improving<F: StateForm + Drop>()
    ensures message { (nodes : List Node) (m : machine.Message) → reached nodes (node_of m) ≡ improve nodes m }
    ensures arrival { (values : F → List ℕ) (m : Message F) → arrival values m ≡ node_of (message_of values m) }
    ensures all { (values : F → List ℕ) (nodes : List Node) (ms : List (Message F)) →
        fold reached nodes (map (arrival values) ms) ≡ fold improve nodes (map (message_of values) ms) }
    ensures own { (nodes : List Node) (state : List ℕ) (rank : Rank) (p : Parent) →
        reached nodes (fresh state rank (Some p)) ≡
        improve nodes (record { state = state; cost = rank.cost; steps = rank.steps; parent = parent_of p }) }
{}

/// Proves that an outcome determines the index of the state's node, its rank before, and the nodes after.
pub fn outcomes_tell()
    ensures new { (nodes : List Node) (m : Node) (i : ℕ) → outcome_of nodes m ≡ New i → ComesLast nodes m i }
    ensures better { (nodes : List Node) (m : Node) (i : ℕ) → outcome_of nodes m ≡ Better i → GivesWay nodes m i }
    ensures kept { (nodes : List Node) (m : Node) → outcome_of nodes m ≡ Kept → Stays nodes m }
{}

/// Proves that after a state is reached that is new or improved, its node is at the outcome's index.
pub fn outcomes_place()
    ensures new { (nodes : List Node) (m : Node) (i : ℕ) → outcome_of nodes m ≡ New i → slice_get (reached nodes m) i ≡ Some m }
    ensures better { (nodes : List Node) (m : Node) (i : ℕ) → outcome_of nodes m ≡ Better i →
        slice_get (reached nodes m) i ≡ Some m }
{}
