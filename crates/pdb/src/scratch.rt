//! Memory that is reused from one table to the next.

ghost use Rattle.std.specs.Prelude.{◌≡◌, ◌<◌, ◌==◌, length, slice_get, Some, IfOk};
ghost use Rattle.pdb.specs.Numbers.{distances_in};

use crate::kept::{as_distances, distance_of};
use crate::queue::Queue;
use abstraction_groups::Transition;
use cert_value::Values;
use cost::Dist;
use std::alloc::{AllocError, Global};

/// Memory that computations of tables reuse, one after another. No result depends on its content. It grows with the
/// greatest abstraction for which it is used: to 8 bytes for each abstract state and each class of operators, 16 for
/// each entry of the queue, and the transitions into one abstract state.
#[derive(Drop)]
pub struct Scratch {
    /// The value of each abstract state: the least total of shares that was found, or `UNREACHED`.
    pub(crate) values: Vec<u64>,
    /// The queue of the search.
    pub(crate) queue: Queue,
    /// The least share of the operators of each class.
    pub(crate) least: Vec<u32>,
    /// The greatest decrease of the values over the transitions of each class.
    pub(crate) greatest: Vec<u32>,
    /// A buffer for the digits of an abstract state.
    pub(crate) digits: Vec<u32>,
    /// The transitions into one abstract state.
    pub(crate) entering: Vec<Transition>,
}

impl Scratch {
    /// Allocates memory for no table yet.
    pub fn new(alloc: Global) -> Result<Scratch, AllocError> {
        Ok(Scratch {
            values: Vec::new(alloc),
            queue: Queue::new(alloc)?,
            least: Vec::new(alloc),
            greatest: Vec::new(alloc),
            digits: Vec::new(alloc),
            entering: Vec::new(alloc),
        })
    }

    /// Returns the number of abstract states of the last search.
    pub fn len(&self) -> usize
        ensures { result ≡ length (distances_in self.now) }
    {
        self.values.len()
    }

    /// Returns whether there was no search yet.
    pub fn is_empty(&self) -> bool
        ensures { result ≡ (length (distances_in self.now) == 0) }
    {
        self.values.is_empty()
    }

    /// Returns the distance of an abstract state that the last search found.
    pub fn distance(&self, state: usize) -> Dist
        requires { state < length (distances_in self.now) }
        ensures { slice_get (distances_in self.now) state ≡ Some result }
    {
        distance_of(self.values[state])
    }

    /// Returns the distances that the last search found, in the order of the abstract states.
    pub fn distances(&self, alloc: Global) -> Result<Values, AllocError>
        ensures { IfOk result (λ values. values ≡ distances_in self.now) }
    {
        as_distances(alloc, &self.values)
    }
}
