//! Certificates of searches.

ghost use Rattle.std.specs.Prelude.{◌≡◌, ◌<◌, ◌^◌, [], length, IfOk};
ghost use Rattle.std.specs.List.Sorted.{IsPermutation};
ghost use Rattle.cost.specs.Distances.{Distance};
ghost use Rattle.cert_value.specs.Views.{kind_of};
ghost use Rattle.cert_value.specs.Lawful.{IsLawfulKind, IsLawful};
ghost use Rattle.checker_clauses.specs.Violations.{IsHeld};
ghost use Rattle.extract.specs.Bounds.{lower_bound};
ghost use Rattle.extract.specs.Ends.{IsSettledAt, space_at};
ghost use Rattle.cert.specs.Expanded.{closed_in};
ghost use Rattle.cert.specs.Orders.{IsRising};

use crate::sorting::sorted_list;
use crate::states::expanded_states;
use crate::tables::copied_columns;
use cert_value::{Certificate, CertificateKind, Version};
use extract::Joined;
use packed::StateForm;
use packed_spread::Spread;
use std::alloc::{AllocError, Global};
use std::thread::Threads;

/// Returns the certificate of a search, settled or not, of version 2. Its bound is the lower bound of the search, which
/// is the best cost if the search is settled; its columns are those of the heuristic; its closed list has the states
/// that the owners expanded at their present ranks, in the lexicographic order of their values.
///
/// It has no violation, so every plan costs at least its bound. It has a text if its kind has one and there are fewer
/// than 2^32 closed states.
pub fn cert_of<'a, R: Threads + Sync, S: Spread + Drop, F: StateForm + Drop>(
    rt: &R,
    alloc: Global,
    joined: &Joined<'a, S, F>,
    kind: CertificateKind,
) -> Result<Certificate, AllocError>
    ensures version { IfOk result (λ c. c.version ≡ Version.Two) }
    ensures kind { IfOk result (λ c. c.kind ≡ kind_of kind) }
    ensures classes { IfOk result (λ c. c.classes ≡ []) }
    ensures columns { IfOk result (λ c. c.columns ≡ joined.now.space.columns) }
    ensures closed { IfOk result (λ c. IsPermutation (closed_in joined.now.owners) c.closed) }
    ensures rising { IfOk result (λ c. IsRising c.closed) }
    ensures bound { IfOk result (λ c. c.bound ≡ lower_bound S.owner joined.now) }
    ensures held { IfOk result (IsHeld joined.now.space.task) }
    ensures lawful { IsLawfulKind (kind_of kind) → length (closed_in joined.now.owners) < 2 ^ 32 → IfOk result IsLawful }
    ensures settled { (bound : Distance) → IsSettledAt (space_at S.owner joined.now) joined.now.owners joined.now.left bound →
        IfOk result (λ c. c.bound ≡ bound) }
{
    joined.recall();
    let space = joined.space();
    space.task().recall();
    space.columns().recall();
    let width = space.task().variable_count();
    let states = expanded_states(alloc, width, joined.owners())?;
    let closed = sorted_list(rt, alloc, width, &states.costs, &states.values)?;
    let columns = copied_columns(alloc, space.columns().tables())?;
    let bound = joined.lower_bound(alloc)?;
    Ok(Certificate::new(Version::Two, kind, bound, columns, closed))
}
