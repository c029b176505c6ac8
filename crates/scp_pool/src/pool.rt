//! Pools of mappings.

ghost use Rattle.std.specs.Prelude.{◌≡◌, ◌≢◌, ◌^◌, ◌++◌, [], ◌∷◌, true, false, map, All, Contains, IfOk, OnErr};
ghost use Rattle.abstraction_mapping.specs.Views.{mapping_of};
ghost use Rattle.pdb_patterns.specs.Choices.{IsMappingWithin};
ghost use Rattle.scp_pool.specs.Pools.{AreDistinctMappings, IsPoolWith};

use abstraction_mapping::Mapping;
use fdr::FdrTask;
use std::alloc::{AllocError, Global};
use std::marker::Model;

/// Distinct mappings of a task, each with at most 2^24 abstract states. In contracts its value is the task and the
/// mappings.
#[derive(Drop)]
pub struct Pool<'a> {
    task: &'a FdrTask,
    mappings: Vec<Mapping>,
}

impl<'a> Model for Pool<'a> {
    ghost use Rattle.std.specs.Prelude.{map};
    ghost use Rattle.abstraction_mapping.specs.Views.{mapping_of};
    ghost use Rattle.scp_pool.specs.Pools.{PoolOf, AreDistinctMappings};

    ghost Value = { PoolOf };

    ghost view = { λ p. record { task = p.task.now; mappings = map mapping_of p.mappings.items } };

    ghost invariant = { λ p. AreDistinctMappings p.task.now (map mapping_of p.mappings.items) };
}

/// Returns whether one of the mappings is the same as this one.
fn has_mapping(mappings: &[Mapping], mapping: &Mapping) -> bool
    ensures none { result ≡ false → All (λ m. mapping_of m ≢ mapping_of mapping.now) mappings.now }
    ensures one { result ≡ true → Contains (map mapping_of mappings.now) (mapping_of mapping.now) }
{
    for other in mappings {
        if other.is_same(mapping) {
            return true;
        }
    }
    false
}

impl<'a> Pool<'a> {
    /// Returns an empty pool.
    pub fn new(alloc: Global, task: &'a FdrTask) -> Pool<'a>
        ensures { result ≡ record { task = task.now; mappings = [] } }
    {
        Pool {
            task,
            mappings: Vec::new(alloc),
        }
    }

    /// Returns the task.
    pub fn task(&self) -> &'a FdrTask
        ensures { result.now ≡ self.now.task }
    {
        self.task
    }

    /// Returns the mappings, in the order in which they were added.
    pub fn mappings(&self) -> &[Mapping]
        ensures mappings { map mapping_of result.now ≡ self.now.mappings }
        ensures distinct { AreDistinctMappings self.now.task self.now.mappings }
    {
        &self.mappings
    }

    /// Adds the mapping, unless it is in the pool, and returns whether it was added.
    pub fn add(&mut self, mapping: Mapping) -> Result<bool, AllocError>
        requires { IsMappingWithin self.old.task (2 ^ 24) (mapping_of mapping) }
        ensures added { IfOk result (λ is_new. IsPoolWith (mapping_of mapping) self.old self.new is_new) }
        ensures same { OnErr result (self.new ≡ self.old) }
    {
        if has_mapping(&self.mappings, &mapping) {
            return Ok(false);
        }
        self.mappings.push(mapping)?;
        Ok(true)
    }
}
