//! The next table of a cost-partitioned column.

ghost use Rattle.std.specs.Prelude.{◌≡◌, ℕ, ◌-◌, ◌^◌, ◌<◌, length, slice_index, All, OnOk, OnErr};
ghost use Rattle.cost.specs.Distances.{IsWithin};
ghost use Rattle.fdr.specs.Tasks.{FiniteDomainTask};
ghost use Rattle.pdb_walks.specs.Walks.{AreDistances, IsGreatestFall, value_in};
ghost use Rattle.pdb.specs.Numbers.{distances_in};

use crate::least::subtract_by_class;
use crate::saturation::set_greatest;
use crate::scratch::Scratch;
use crate::search::search;
use abstraction_groups::BackwardAbstraction;
use std::alloc::AllocError;

/// Computes the next table of a column (saturated cost partitioning: Seipp, Keller and Helmert 2020): finds the
/// distance of each abstract state under the costs that are left, as `distances` does, and subtracts from the cost of
/// each operator its saturated share, which `saturate` returns. `left` has a cost below 2^31 for each operator of the
/// task, in order. Finite distances are at most 2^55. On failure the costs are unchanged.
///
/// The distances are left in `scratch`, which has memory of earlier tables. Only operators that have a class in the
/// abstraction's transitions are visited, so that the time does not depend on the number of the other operators.
pub fn take_table<A: BackwardAbstraction>(
    abstraction: &A,
    left: &mut [u32],
    scratch: &mut Scratch,
) -> Result<(), AllocError>
    requires operators { length left.old ≡ length (A.task abstraction.now).operators }
    requires small { (o : ℕ) → slice_index left.old o < 2 ^ 31 }
    ensures small { OnOk result (All (IsWithin (2 ^ 55)) (distances_in scratch.new)) }
    ensures distances { OnOk result
        (AreDistances (A.abstraction abstraction.now) (λ o. slice_index left.old o) (distances_in scratch.new)) }
    ensures left { OnOk result ((o n : ℕ) →
        IsGreatestFall (A.abstraction abstraction.now) (value_in (distances_in scratch.new)) o n →
        slice_index left.new o ≡ slice_index left.old o - n) }
    ensures refused { OnErr result (left.new ≡ left.old) }
{
    let transitions = abstraction.transitions();
    search(abstraction, transitions, left, scratch)?;
    set_greatest(
        transitions,
        &scratch.values,
        &scratch.least,
        &mut scratch.greatest,
        &mut scratch.digits,
        &mut scratch.entering,
    )?;
    subtract_by_class(transitions, &scratch.greatest, left);
    Ok(())
}
