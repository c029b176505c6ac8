//! A search by several owners in one thread.

ghost use Rattle.std.specs.Prelude.{◌<◌, ◌≤◌, IfOk};
ghost use Rattle.fdr.specs.Tasks.{ranges};

use netcore::{World, WorldStep};
use owner::{Owner, OwnerFault, Space};
use packed::{StateForm, in_smallest_form};
use packed_spread::{Spread, Zobrist};
use rand_core::{Rng, SeedableRng};
use rand_xoshiro::Xoshiro256PlusPlus;
use std::alloc::Global;

/// The seed of the random steps.
const SEED: u64 = 1;

/// Returns the step that the next output of the generator selects: of the steps that would change something, the one
/// whose number is the output modulo their number; `None` if there are none.
fn drawn<S: Spread + Drop, F: StateForm + Drop>(
    world: &World<'_, S, F>,
    generator: &mut Xoshiro256PlusPlus,
) -> Option<WorldStep> {
    let word = generator.next_u64() as u128;
    match world.possible_count() {
        0 => None,
        count => world.possible_step(word % count),
    }
}

/// Performs `times` steps, or fewer if there is no work left, and returns their number.
fn step_times<S: Spread + Drop, F: StateForm + Drop>(
    world: &mut World<'_, S, F>,
    times: u64,
) -> Result<u64, OwnerFault>
    ensures { IfOk result (λ count. count ≤ times) }
{
    let mut generator = Xoshiro256PlusPlus::seed_from_u64(SEED);
    for done in 0..times {
        if world.count() == 0 {
            return Ok(done);
        }
        // while there is work left, some step would change something; if none would, reading the bound is harmless
        let step = drawn(world, &mut generator).unwrap_or(WorldStep::Look(0));
        world.step(step)?;
    }
    Ok(times)
}

/// Returns the number of states that all owners store, capped at `usize::MAX`.
fn kept_by<S: Spread + Drop, F: StateForm + Drop>(owners: &[Owner<'_, S, F>]) -> usize {
    let mut kept: usize = 0;
    for owner in owners {
        kept = kept.saturating_add(owner.len());
    }
    kept
}

/// Returns the line for owners after `steps` steps, or fewer if there is no work left: the number of steps, and the
/// number of states stored.
fn step_together<'a, F: StateForm + Drop>(
    alloc: Global,
    space: &'a Space<'a, Zobrist<'a>>,
    owners: usize,
    steps: u64,
) -> Result<String, OwnerFault>
    requires owners { 0 < owners }
    requires fits { F.Fits (ranges space.now.task) }
{
    let mut world: World<'a, Zobrist<'a>, F> = World::start(alloc, space, owners)?;
    let done = step_times(&mut world, steps)?;
    let joined = world.joined();
    let kept = kept_by(joined.owners());
    let line = format!(in alloc; "{done} steps, {kept} states kept\n")?;
    Ok(line)
}

/// Returns the line of `step_together`, with the smallest form of states.
pub(crate) fn together_in_smallest_form<'a>(
    alloc: Global,
    space: &'a Space<'a, Zobrist<'a>>,
    owners: usize,
    steps: u64,
) -> Result<String, OwnerFault>
    requires { 0 < owners }
{
    in_smallest_form!(space.layout(), step_together(alloc, space, owners, steps))
}
