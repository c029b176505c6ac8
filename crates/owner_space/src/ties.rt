//! The tie-breaking rule: the order of expansion among open states of the same f-value.

ghost use Rattle.std.specs.Prelude.{◌≡◌, ◌≤◌};
ghost use Rattle.owner_space.specs.Keyed.{counted_down};

use openlist::{OpenEntry, Rank};

/// The greatest cost of a path, and the greatest number of operators on it: 2^62.
pub const MAX_TOTAL: u64 = 4_611_686_018_427_387_904;

/// The rule by which the first of the open states of the least f-value is chosen.
#[derive(Clone, Copy, Debug, PartialEq, Eq)]
pub enum Ties {
    /// The one reached at the least cost, which has the greatest heuristic value; among these the one of the fewest
    /// operators, and among these the one reached first.
    Shallow,
    /// The one reached at the greatest cost, which has the least heuristic value; among these the one of the most
    /// operators, and among these the one reached last.
    Deep,
    /// One that was never expanded before, chosen as `Deep` chooses; if each was expanded before, at a greater rank,
    /// the one that `Shallow` chooses. So a state that is reopened again and again waits for all others.
    Fresh,
}

/// Returns the entry with cost and steps subtracted from `top`, and the index from the greatest one.
fn counted_down(top: u64, entry: OpenEntry) -> OpenEntry
    requires cost { entry.rank.cost ≤ top }
    requires steps { entry.rank.steps ≤ top }
    ensures { result ≡ counted_down top entry }
{
    OpenEntry {
        f: entry.f,
        rank: Rank {
            cost: top - entry.rank.cost,
            steps: top - entry.rank.steps,
        },
        index: usize::MAX - entry.index,
    }
}

/// Returns the entry with this cost.
fn with_cost(entry: OpenEntry, cost: u64) -> OpenEntry
    ensures { result ≡ record { f = entry.f; rank = record { cost = cost; steps = entry.rank.steps }; index = entry.index } }
{
    OpenEntry {
        f: entry.f,
        rank: Rank {
            cost,
            steps: entry.rank.steps,
        },
        index: entry.index,
    }
}

impl Ties {
    ghost use Rattle.owner_space.specs.Keyed.{IsSmall, IsKeyed, keyed, denoted};

    /// Returns the entry keyed by the tie-breaking rule, as it is stored in an open list, which pops the least rank
    /// first, and among equal ranks the lowest index. `ever` is whether the entry's state was ever expanded.
    pub fn keyed(self, entry: OpenEntry, ever: bool) -> OpenEntry
        requires { IsSmall entry }
        ensures { result ≡ keyed self ever entry }
    {
        match self {
            Ties::Shallow => entry,
            Ties::Deep => counted_down(u64::MAX, entry),
            Ties::Fresh if ever => with_cost(entry, MAX_TOTAL + 1 + entry.rank.cost),
            Ties::Fresh => counted_down(MAX_TOTAL, entry),
        }
    }

    /// Returns the entry that a stored one denotes: the one that was keyed.
    pub fn denoted(self, stored: OpenEntry) -> OpenEntry
        requires { IsKeyed self stored }
        ensures { result ≡ denoted self stored }
    {
        match self {
            Ties::Shallow => stored,
            Ties::Deep => counted_down(u64::MAX, stored),
            Ties::Fresh if stored.rank.cost > MAX_TOTAL => with_cost(
                stored,
                stored.rank.cost - (MAX_TOTAL + 1),
            ),
            Ties::Fresh => counted_down(MAX_TOTAL, stored),
        }
    }
}
