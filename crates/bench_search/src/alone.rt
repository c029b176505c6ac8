//! A search by one owner, which has all states.

ghost use Rattle.std.specs.Prelude.{◌≤◌, IfOk};
ghost use Rattle.fdr.specs.Tasks.{ranges};

use cost::Dist;
use owner::{Owner, OwnerFault, Space};
use packed::{StateForm, in_smallest_form};
use packed_spread::{Spread, Zobrist};
use std::alloc::Global;

/// Expands `times` nodes, or all if there are fewer, and returns their number.
fn expand_times<S: Spread + Drop, F: StateForm + Drop>(
    owner: &mut Owner<'_, S, F>,
    times: u64,
) -> Result<u64, OwnerFault>
    ensures { IfOk result (λ count. count ≤ times) }
{
    for done in 0..times {
        if owner.expand(Dist::inf())?.is_none() {
            return Ok(done);
        }
    }
    Ok(times)
}

/// Returns the line for an owner that expands `steps` nodes, or all if there are fewer: the number of expansions, the
/// number of states stored, and the least f-value of the nodes that are not expanded.
fn expand_alone<'a, F: StateForm + Drop>(
    alloc: Global,
    space: &'a Space<'a, Zobrist<'a>>,
    steps: u64,
) -> Result<String, OwnerFault>
    requires { F.Fits (ranges space.now.task) }
{
    let mut owner: Owner<'a, Zobrist<'a>, F> = Owner::start(alloc, space, 0, 1)?;
    let expansions = expand_times(&mut owner, steps)?;
    let (kept, least) = (owner.len(), owner.least_open());
    let line = format!(in alloc;
        "{expansions} expansions, {kept} states kept, least open f {least}\n"
    )?;
    Ok(line)
}

/// Returns the line of `expand_alone`, with the smallest form of states.
pub(crate) fn alone_in_smallest_form<'a>(
    alloc: Global,
    space: &'a Space<'a, Zobrist<'a>>,
    steps: u64,
) -> Result<String, OwnerFault> {
    in_smallest_form!(space.layout(), expand_alone(alloc, space, steps))
}
