//! Tables of abstractions.

ghost use Rattle.std.specs.Prelude.{◌≡◌, ◌<◌, ◌==◌, ◌++◌, [], ◌∷◌, length, slice_get, Some, OnOk, OnErr};

use abstraction_mapping::Mapping;
use cost::Dist;
use std::alloc::{AllocError, Global};
use std::marker::Model;

/// The share of an operator's cost that a table has.
#[derive(Clone, Copy, Debug, PartialEq, Eq)]
pub struct Share {
    /// The number of the operator.
    pub operator: u32,
    /// The share, from 1 to 2147483647 in a lawful certificate. An operator that is not listed has the share 0.
    pub amount: u32,
}

/// The values of a table, one for each abstract state in order. In contracts its value is a list of distances.
#[derive(Drop)]
pub struct Values {
    /// The number 2^64 - 1 represents the infinite distance.
    kept: Vec<u64>,
}

impl Model for Values {
    ghost use Rattle.std.specs.Prelude.{List, map};
    ghost use Rattle.cost.specs.Distances.{Distance};
    ghost use Rattle.cert_value.specs.Kept.{kept_distance};

    ghost Value = { List Distance };

    ghost view = { λ v. map kept_distance v.kept.items };
}

impl Values {
    /// Returns an empty list.
    pub fn new(alloc: Global) -> Values
        ensures { result ≡ [] }
    {
        Values {
            kept: Vec::new(alloc),
        }
    }

    /// Appends a value. On failure the list is unchanged.
    pub fn push(&mut self, value: Dist) -> Result<(), AllocError>
        ensures ok { OnOk result (self.new ≡ self.old ++ value ∷ []) }
        ensures err { OnErr result (self.new ≡ self.old) }
    {
        let kept = match value.get() {
            Some(number) => number,
            None => u64::MAX,
        };
        self.kept.push(kept)?;
        Ok(())
    }

    /// Returns the number of values.
    pub fn len(&self) -> usize
        ensures { result ≡ length self.now }
    {
        self.kept.len()
    }

    /// Returns whether there is no value.
    pub fn is_empty(&self) -> bool
        ensures { result ≡ (length self.now == 0) }
    {
        self.kept.is_empty()
    }

    /// Returns the value of an abstract state.
    pub fn get(&self, state: usize) -> Dist
        requires { state < length self.now }
        ensures { slice_get self.now state ≡ Some result }
    {
        Dist::fin(self.kept[state]).unwrap_or(Dist::inf())
    }
}

/// A table of an abstraction: a pattern database, or a table of a domain abstraction.
#[derive(Drop)]
pub struct AbstractionTable {
    /// The mapping from states to abstract states. Its variables are strictly increasing in a lawful certificate.
    pub mapping: Mapping,
    /// The shares, whose operators are strictly increasing in a lawful certificate.
    pub shares: Vec<Share>,
    /// The value of each abstract state, in order.
    pub values: Values,
}
