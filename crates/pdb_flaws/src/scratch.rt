//! Memory that is reused from one round to the next.

use crate::distances::Distances;
use crate::flaws::Flaw;
use std::alloc::{AllocError, Global};

/// The greatest number of abstract states for which memory is allocated at first.
const MOST_AT_FIRST: usize = 4_096;

/// Memory that rounds of refinement reuse, one after another. No result depends on what it has before a round.
#[derive(Drop)]
pub struct Scratch {
    /// The cost of each group.
    pub(crate) costs: Vec<u32>,
    pub(crate) distances: Distances,
    /// The state that an abstract plan reaches in the task.
    pub(crate) state: Vec<u32>,
    pub(crate) flaws: Vec<Flaw>,
}

impl Scratch {
    /// Allocates memory for abstractions with at most `states` abstract states. It grows later if that is more than
    /// 4,096.
    pub fn new(alloc: Global, states: usize) -> Result<Scratch, AllocError> {
        Ok(Scratch {
            costs: Vec::new(alloc),
            distances: Distances::new(alloc, states.min(MOST_AT_FIRST))?,
            state: Vec::new(alloc),
            flaws: Vec::new(alloc),
        })
    }

    /// Returns the flaws that the last round found, if its outcome says that there are some.
    pub fn flaws(&self) -> &[Flaw] {
        &self.flaws
    }
}
