//! A table of changes, found by hashing.

ghost use Rattle.std.specs.Prelude.{◌≡◌, ℕ, [], ◌<◌, length, slice_get, slice_index_or, Some, IfOk, OnOk, IfSome, IfNone};
ghost use Rattle.abstraction_groups.specs.Changes as spec_changes;
ghost use Rattle.abstraction_groups.specs.Changes.{with_row};
ghost use Rattle.abstraction_groups.specs.Hashes as hashes;
ghost use Rattle.abstraction_groups.specs.Tables as spec;
ghost use Rattle.abstraction_groups.specs.Tables.{AreChained};

use crate::change::Change;
use keyed_lists::Lists;
use std::alloc::{AllocError, Global};

/// Lists of changes, no two of them the same, with a hash index: a chain of lists for each bucket, the latest first.
#[derive(Drop)]
pub(crate) struct ChangeTable {
    pub(crate) rows: Lists<Change>,
    /// For each bucket the number of its latest list plus one, or 0 for none.
    heads: Vec<u32>,
    /// For each list the number plus one of the list before it in its bucket, or 0 for none.
    links: Vec<u32>,
}

/// Returns a hash of the changes: FNV-1a (Fowler, Noll and Vo) with sums, one code of a change at a time.
fn hash_of(changes: &[Change]) -> u64
    ensures { result ≡ hashes.hash_of changes.now }
{
    let mut hash: u64 = 14_695_981_039_346_656_037;
    for change in changes {
        hash = hash
            .wrapping_add(change.code())
            .wrapping_mul(1_099_511_628_211);
    }
    hash
}

/// Returns the bucket of the changes, if there are `count` of them.
fn bucket_of(count: usize, changes: &[Change]) -> usize
    requires { 0 < count }
    ensures value { result ≡ spec.bucket_of count changes.now }
    ensures below { result < count }
{
    ((hash_of(changes) >> 32) % count as u64) as usize
}

/// Returns whether the changes are the same.
fn are_same(changes: &[Change], others: &[Change]) -> bool
    ensures { result ≡ spec_changes.same changes.now others.now }
{
    if changes.len() != others.len() {
        return false;
    }
    for place in 0..changes.len() {
        if !changes[place].is_same(others[place]) {
            return false;
        }
    }
    true
}

impl ChangeTable {
    /// Returns an empty table for about `expected` lists.
    pub(crate) fn new(alloc: Global, expected: usize) -> Result<ChangeTable, AllocError>
        ensures rows { IfOk result (λ t. t.rows ≡ []) }
        ensures chained { IfOk result (λ t. AreChained t.rows t.heads.items t.links.items) }
    {
        let heads = vec![in alloc; 0; expected.max(1)]?;
        Ok(ChangeTable {
            rows: Lists::empty(alloc),
            heads,
            links: Vec::new(alloc),
        })
    }

    /// Returns the lists.
    pub(crate) fn into_rows(self) -> Lists<Change>
        ensures { result ≡ self.rows }
    {
        self.rows
    }

    /// Returns the number of the list with these changes, if there is one. `bucket` is their bucket.
    fn find(&self, bucket: usize, changes: &[Change]) -> Option<usize>
        requires chained { AreChained self.now.rows self.now.heads.items self.now.links.items }
        requires bucket { bucket ≡ spec.bucket_of (length self.now.heads.items) changes.now }
        requires below { bucket < length self.now.heads.items }
        ensures found { IfSome result (λ g. slice_get self.now.rows g ≡ Some changes.now) }
        ensures absent { IfNone result ((g : ℕ) → slice_get self.now.rows g ≡ Some changes.now → ⊥) }
    {
        let heads: &[u32] = &self.heads;
        let links: &[u32] = &self.links;
        let mut link = heads[bucket];
        while link > 0 {
            let number = link as usize - 1;
            if are_same(self.rows.get(number), changes) {
                return Some(number);
            }
            link = links[number];
        }
        None
    }

    /// Returns the number of the list with these changes, which is a new one if there was none. On failure the table is
    /// not specified.
    pub(crate) fn number_of(&mut self, changes: &[Change]) -> Result<usize, AllocError>
        requires chained { AreChained self.old.rows self.old.heads.items self.old.links.items }
        requires few { length self.old.rows < 4294967295 }
        ensures number { IfOk result (λ g. slice_get self.new.rows g ≡ Some changes.now) }
        ensures rows { OnOk result (self.new.rows ≡ with_row self.old.rows changes.now) }
        ensures chained { OnOk result (AreChained self.new.rows self.new.heads.items self.new.links.items) }
    {
        let bucket = bucket_of(self.heads.len(), changes);
        if let Some(number) = self.find(bucket, changes) {
            return Ok(number);
        }
        let number = self.rows.len();
        let heads: &[u32] = &self.heads;
        let link = heads[bucket];
        self.rows.push(changes)?;
        self.links.push(link)?;
        self.heads[bucket] = number as u32 + 1;
        Ok(number)
    }
}
