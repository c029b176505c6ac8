//! Laws of owners of states, for every search space.

ghost use Rattle.std.specs.Prelude.{◌≡◌, ℕ, [], ◌∷◌, ◌++◌, Some, true, false, ◌≤◌, List, reverse};
ghost use Rattle.cost.specs.Distances.{Distance, Finite, ◌≤ᵈ◌};
ghost use Rattle.fdr.specs.Tasks.{IsPlan, plan_cost, state_after};
ghost use Rattle.checker_clauses.specs.ClosedLists.{IsFinished};
ghost use Rattle.owner_theory.specs.Owners.{At, list_at, put, SearchSpace, Node, Parent, Message, Packet, Log, Event, Take, HandOut, fits, happens, start};
ghost use Rattle.owner_theory.specs.Families.{IsSearchSpace, IsLowerBound, Family, IsLawful, PendingAbove, best_of, IsSettled, closed_of, NoTwice, Follows, ParentBelow, IsGoalNode};
ghost use Rattle.owner_theory.specs.Worlds.{Step, Request, world_start, world_run, family_of, count, IsQuiet, IsRunOf, Expands, Sends, Delivers, Offers, Looks, Rests};
ghost use Rattle.owner_theory.specs.Threads.{IsWorker, AreJoined};
ghost use Rattle.owner_theory.specs.Examples.{two_owners};

/// Proves that if a lawful family is settled at a bound, its expanded nodes are a finished closed list for that bound,
/// and no state is in the list twice. This holds for every heuristic.
pub fn settled_family_is_closed()
    ensures finished { (space : SearchSpace) (family : Family) (bound : Distance) → IsSearchSpace space → IsLawful space family →
        IsSettled space family bound → IsFinished space.task space.heuristic bound (closed_of space.owners family.logs) }
    ensures once { (space : SearchSpace) (family : Family) (bound : Distance) → IsSearchSpace space → IsLawful space family →
        IsSettled space family bound → NoTwice (closed_of space.owners family.logs) }
{}

/// Proves the same for every bound that is at most the best cost and at most every pending f-value, whether the family
/// is settled or not.
pub fn bounded_family_is_closed()
    ensures finished { (space : SearchSpace) (family : Family) (bound : Distance) → IsSearchSpace space → IsLawful space family →
        bound ≤ᵈ best_of space family → PendingAbove space family bound →
        IsFinished space.task space.heuristic bound (closed_of space.owners family.logs) }
    ensures once { (space : SearchSpace) (family : Family) (bound : Distance) → IsSearchSpace space → IsLawful space family →
        bound ≤ᵈ best_of space family → PendingAbove space family bound → NoTwice (closed_of space.owners family.logs) }
{}

/// Proves that in every lawful family, ranks decrease from a node to its parent; following parents ends at the initial
/// state; and the operators on that path, applied from the initial state, reach the node's state at no more than its
/// cost.
pub fn parents_lead_back()
    ensures fall { (space : SearchSpace) (family : Family) → IsSearchSpace space → IsLawful space family →
        (w i : ℕ) (n : Node) (p : Parent) → At (family.logs w).owner.nodes i n → n.parent ≡ Some p → ParentBelow family n p }
    ensures ends { (space : SearchSpace) (family : Family) → IsSearchSpace space → IsLawful space family →
        (w i : ℕ) (n : Node) → At (family.logs w).owner.nodes i n → (back : List ℕ) × Follows family w i back }
    ensures leads { (space : SearchSpace) (family : Family) → IsSearchSpace space → IsLawful space family →
        (back : List ℕ) (w i : ℕ) (n : Node) → At (family.logs w).owner.nodes i n → Follows family w i back →
        (state_after space.task space.task.initial (reverse back) ≡ Some n.state) ×
        (plan_cost space.task (reverse back) ≤ n.cost) }
{}

/// Proves that a lawful family that is settled at a finite cost has a node with a goal state and that cost. If the
/// heuristic is a lower bound, following parents from any such node yields a plan of exactly that cost.
pub fn settled_family_has_plan()
    ensures found { (space : SearchSpace) (family : Family) (n : ℕ) → IsSearchSpace space → IsLawful space family →
        IsSettled space family (Finite n) → (w i : ℕ) × IsGoalNode space family w i n }
    ensures plan { (space : SearchSpace) (family : Family) (n w i : ℕ) (back : List ℕ) → IsSearchSpace space →
        IsLowerBound space.task space.heuristic → IsLawful space family → IsSettled space family (Finite n) →
        IsGoalNode space family w i n → Follows family w i back → IsPlan space.task (reverse back) }
    ensures exact { (space : SearchSpace) (family : Family) (n w i : ℕ) (back : List ℕ) → IsSearchSpace space →
        IsLowerBound space.task space.heuristic → IsLawful space family → IsSettled space family (Finite n) →
        IsGoalNode space family w i n → Follows family w i back → plan_cost space.task (reverse back) ≡ n }
{}

/// Proves that every list of steps of a world, with messages delivered in any order, ends in a lawful family.
pub fn world_is_lawful()
    ensures { (space : SearchSpace) (steps : List Step) → IsSearchSpace space →
        IsLawful space (family_of (world_run space (world_start space) steps)) }
{}

/// Proves that if `count` is 0, no message is underway or in an outbox, every owner is idle, and the family is settled.
/// `count` is the number of messages underway or in outboxes plus the number of owners not at rest.
pub fn nothing_left_is_settled()
    ensures { (space : SearchSpace) (steps : List Step) → IsSearchSpace space →
        count space (world_run space (world_start space) steps) ≡ 0 →
        IsQuiet space (world_run space (world_start space) steps) }
{}

/// Proves that each list of requests has a run, whose steps specify the nodes to be expanded.
pub fn requests_have_runs()
    ensures { (space : SearchSpace) (requests : List Request) →
        (steps : List Step) × IsRunOf space (world_start space) requests steps }
{}

/// Proves a worked example, with two owners and one operator of cost 1: after these steps nothing remains to be done,
/// and the best cost is 1.
pub fn two_owners_settle()
    ensures space { IsSearchSpace two_owners }
    ensures quiet { count two_owners (world_run two_owners (world_start two_owners)
        (Expands 0 0 ∷ Sends 0 1 ∷ Delivers 1 0 ∷ Offers 1 ∷ Looks 0 ∷ Looks 1 ∷ Rests 0 ∷ Rests 1 ∷ [])) ≡ 0 }
    ensures best { best_of two_owners (family_of (world_run two_owners (world_start two_owners)
        (Expands 0 0 ∷ Sends 0 1 ∷ Delivers 1 0 ∷ Offers 1 ∷ Looks 0 ∷ Looks 1 ∷ Rests 0 ∷ Rests 1 ∷ []))) ≡ Finite 1 }
{}

/// Proves that, for every schedule of the threads, workers that have joined, with the messages in their rings accounted
/// for, are a lawful family, and none of them received a message that does not fit.
pub fn joined_workers_are_lawful()
    ensures lawful { (space : SearchSpace) (family : Family) (sent received in_ring : ℕ → ℕ → List Message)
        (held : ℕ → List Message) (misfits : ℕ → List Packet) → IsSearchSpace space →
        AreJoined space family sent received in_ring held misfits → IsLawful space family }
    ensures fit { (space : SearchSpace) (family : Family) (sent received in_ring : ℕ → ℕ → List Message)
        (held : ℕ → List Message) (misfits : ℕ → List Packet) → IsSearchSpace space →
        AreJoined space family sent received in_ring held misfits → (w : ℕ) → misfits w ≡ [] }
{}

/// Proves that each step of a worker preserves the invariant `IsWorker`: it starts, does an event that neither takes
/// nor hands out a message, takes a message that it received, sets aside one that does not fit, hands out a message,
/// and pushes that message into the ring to its owner.
pub fn worker_steps()
    ensures start { (space : SearchSpace) (w : ℕ) → IsWorker space w (start space w) (λ v. []) (λ u. []) [] [] }
    ensures act { (space : SearchSpace) (w : ℕ) (log : Log) (sent received : ℕ → List Message) (held : List Message)
        (misfits : List Packet) (e : Event) → (happens space w log e).handed ≡ log.handed →
        (happens space w log e).taken ≡ log.taken → IsWorker space w log sent received held misfits →
        IsWorker space w (happens space w log e) sent received held misfits }
    ensures take { (space : SearchSpace) (w : ℕ) (log : Log) (sent received : ℕ → List Message) (held : List Message)
        (misfits : List Packet) (u : ℕ) (m : Message) → fits space w m ≡ true →
        IsWorker space w log sent received held misfits →
        IsWorker space w (happens space w log (Take u m)) sent (put received u (received u ++ m ∷ [])) held misfits }
    ensures miss { (space : SearchSpace) (w : ℕ) (log : Log) (sent received : ℕ → List Message) (held : List Message)
        (misfits : List Packet) (u : ℕ) (m : Message) → fits space w m ≡ false →
        IsWorker space w log sent received held misfits →
        IsWorker space w log sent (put received u (received u ++ m ∷ [])) held (record { sender = u; message = m } ∷ misfits) }
    ensures hand_out { (space : SearchSpace) (w : ℕ) (log : Log) (sent received : ℕ → List Message) (misfits : List Packet)
        (v : ℕ) (m : Message) (ms : List Message) → list_at log.owner.outboxes v ≡ m ∷ ms →
        IsWorker space w log sent received [] misfits →
        IsWorker space w (happens space w log (HandOut v)) sent received (m ∷ []) misfits }
    ensures push { (space : SearchSpace) (w : ℕ) (log : Log) (sent received : ℕ → List Message) (misfits : List Packet)
        (v : ℕ) (m : Message) → space.owner_of m.state ≡ v → IsWorker space w log sent received (m ∷ []) misfits →
        IsWorker space w log (put sent v (sent v ++ m ∷ [])) received [] misfits }
{}
