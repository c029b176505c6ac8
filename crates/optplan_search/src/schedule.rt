//! Random schedules from a seed.

ghost use Rattle.std.specs.Prelude.{◌≡◌, ℕ, ◌<◌, ◌+◌, length, IfOk, IfErr};
ghost use Rattle.fdr.specs.Tasks.{ranges};
ghost use Rattle.netcore.specs.Possible.{possible_steps};
ghost use Rattle.optplan_search.specs.Schedules.{word_of, IsAfterWords, Draws, IsSimulated, IsSimulationRefusal};

use crate::observer::{Observer, Tally};
use netcore::{World, WorldStep};
use owner::{OwnerFault, Space};
use packed::StateForm;
use packed_spread::Spread;
use rand_core::{Rng, SeedableRng};
use rand_xoshiro::Xoshiro256PlusPlus;
use std::alloc::Global;

/// Returns the step that the next output of the generator selects: of the steps that would change something, the one
/// whose number is the output modulo their number.
fn drawn<'a, S: Spread + Drop, F: StateForm + Drop>(
    world: &World<'a, S, F>,
    generator: &mut Xoshiro256PlusPlus,
) -> WorldStep
    requires { 0 < length (possible_steps S.owner world.now) }
    ensures step { (seed count : ℕ) → IsAfterWords seed count generator.old → Draws S.owner world.now (word_of seed count) result }
    ensures next { (seed count : ℕ) → IsAfterWords seed count generator.old → IsAfterWords seed (count + 1) generator.new }
{
    let word = generator.next_u64() as u128;
    world.possible_step(word % world.possible_count()).unwrap()
}

/// Returns the world after a run of random steps: each is, of the steps that would change something, in the world's
/// order, the one whose number is the next output of Xoshiro256++ (Blackman and Vigna 2021) from this seed modulo their
/// number. The run ends when the world's count is 0, after `steps` steps, or before a step that asks an owner for more
/// nodes than its limit allows. Fails with `TotalTooLarge` if a step does (the contract states this of some world, not
/// of the one before the step), or if allocation fails. Reports progress to the observer.
pub fn simulated<'a, S: Spread + Drop, O: Observer, F: StateForm + Drop>(
    alloc: Global,
    space: &'a Space<'a, S>,
    owners: usize,
    seed: u64,
    steps: u64,
    observer: &O,
) -> Result<World<'a, S, F>, OwnerFault>
    requires owners { 0 < owners }
    requires fits { F.Fits (ranges space.now.task) }
    ensures run { IfOk result (IsSimulated S.owner space.now owners seed steps) }
    ensures refused { IfErr result (IsSimulationRefusal S.owner space.now owners seed) }
{
    let mut world = World::start(alloc, space, owners)?;
    let mut generator = Xoshiro256PlusPlus::seed_from_u64(seed);
    let mut tally = Tally::new();
    for _ in 0..steps {
        world.recall(); // each owner has a queue, a bound and a flag
        if world.count() == 0 {
            return Ok(world);
        }
        let step = drawn(&world, &mut generator);
        match world.step(step) {
            Ok(_) => tally.count(step, world.owners(), observer),
            Err(OwnerFault::LimitReached) => return Ok(world),
            Err(OwnerFault::TotalTooLarge) => return Err(OwnerFault::TotalTooLarge),
            Err(OwnerFault::OutOfMemory) => return Err(OwnerFault::OutOfMemory),
        }
    }
    world.recall(); // each owner has a queue, a bound and a flag
    Ok(world)
}
