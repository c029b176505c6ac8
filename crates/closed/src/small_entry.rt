//! Entries in 24 bytes.

ghost use Rattle.std.specs.Prelude.{◌≡◌, true, false, IfSome, IfNone};
ghost use Rattle.closed.specs.Limits.{IsPastEntry};
ghost use Rattle.closed.specs.Entries.{entry_in};

use crate::message::Parent;
use crate::table::Entry;
use openlist::Rank;

/// An entry in 24 bytes. Without a parent its three fields are 0.
#[derive(Clone, Copy, Debug, PartialEq, Eq)]
pub(crate) struct SmallEntry {
    /// The cost of the rank.
    cost: u64,
    /// The number of steps of the rank.
    steps: u32,
    /// The index of the parent in its worker's table.
    index: u32,
    /// The number of the operator that was applied in the parent.
    operator: u32,
    /// The worker that owns the parent.
    worker: u8,
    /// Whether the state has a parent.
    has_parent: bool,
    /// Whether the state was expanded at the rank.
    expanded: bool,
    /// Whether the state was ever expanded, at this rank or a greater one.
    ever: bool,
}

impl SmallEntry {
    /// Returns the entry of a state that was never expanded, or `None` if the rank or the parent has a number that
    /// exceeds its field.
    pub(crate) fn of(rank: Rank, parent: Option<Parent>) -> Option<SmallEntry>
        ensures held { IfSome result (λ e. entry_in e ≡ record { rank = rank; parent = parent; expanded = false }) }
        ensures never { IfSome result (λ e. e.ever ≡ false) }
        ensures past { IfNone result (IsPastEntry rank parent) }
    {
        let Ok(steps) = u32::try_from(rank.steps) else {
            return None;
        };
        let Some(parent) = parent else {
            return Some(SmallEntry {
                cost: rank.cost,
                steps,
                index: 0,
                operator: 0,
                worker: 0,
                has_parent: false,
                expanded: false,
                ever: false,
            });
        };
        let (Ok(index), Ok(operator), Ok(worker)) = (
            u32::try_from(parent.index),
            u32::try_from(parent.operator),
            u8::try_from(parent.worker),
        ) else {
            return None;
        };
        Some(SmallEntry {
            cost: rank.cost,
            steps,
            index,
            operator,
            worker,
            has_parent: true,
            expanded: false,
            ever: false,
        })
    }

    /// Returns this entry as the one that replaces `old`, an entry of the same state: whether the state was ever
    /// expanded stays as it was.
    pub(crate) fn in_place_of(self, old: SmallEntry) -> SmallEntry
        ensures entry { entry_in result ≡ entry_in self }
        ensures ever { result.ever ≡ old.ever }
    {
        SmallEntry {
            ever: old.ever,
            ..self
        }
    }

    /// Returns the rank.
    pub(crate) fn rank(&self) -> Rank
        ensures { result ≡ (entry_in self.now).rank }
    {
        Rank {
            cost: self.cost,
            steps: self.steps as u64,
        }
    }

    /// Returns the entry, unpacked.
    pub(crate) fn entry(&self) -> Entry
        ensures { result ≡ entry_in self.now }
    {
        let parent = Parent {
            worker: self.worker as usize,
            index: self.index as usize,
            operator: self.operator as usize,
        };
        Entry {
            rank: self.rank(),
            parent: if self.has_parent { Some(parent) } else { None },
            expanded: self.expanded,
        }
    }

    /// Returns whether the state was ever expanded.
    pub(crate) fn was_expanded(&self) -> bool
        ensures { result ≡ self.now.ever }
    {
        self.ever
    }

    /// Marks the state as expanded.
    pub(crate) fn expand(&mut self)
        ensures entry { entry_in self.new ≡ record (entry_in self.old) { expanded = true } }
        ensures ever { self.new.ever ≡ true }
    {
        self.expanded = true;
        self.ever = true;
    }

    /// Marks the state as not expanded, and sets whether it was ever expanded.
    pub(crate) fn reopen(&mut self, ever: bool)
        ensures entry { entry_in self.new ≡ record (entry_in self.old) { expanded = false } }
        ensures ever { self.new.ever ≡ ever }
    {
        self.expanded = false;
        self.ever = ever;
    }
}
