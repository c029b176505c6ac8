//! The hash of a state.

ghost use Rattle.std.specs.Prelude.{◌≡◌, ◌<◌, ◌^◌};
ghost use Rattle.checker_states.specs.Hashes as spec;

use slots::home_of;
use std::alloc::{AllocError, Global};

/// 2^64 divided by the golden ratio: the step between the numbers that are scrambled.
const STEP: u64 = 11_400_714_819_323_198_485;

/// 2^32, the factor between the upper and the lower half of a hash.
const HALF: u64 = 4_294_967_296;

/// The number of adjacent home slots over which states that differ only in their last variables are spread: 16 slots
/// are two cache lines of most processors. With more of them, runs of taken slots grow longer.
const NEAR_SLOTS: u64 = 16;

/// Returns a pseudorandom number (splitmix64: Steele, Lea and Flood 2014, Fast splittable pseudorandom number
/// generators).
fn scrambled(number: u64) -> u64 {
    let first = (number ^ (number >> 30)).wrapping_mul(13_787_848_793_156_543_929);
    let second = (first ^ (first >> 27)).wrapping_mul(10_723_151_780_598_845_931);
    second ^ (second >> 31)
}

/// Returns the multiplier of a variable, one increment of which moves the home slot by `stride` slots; the lower half
/// of the multiplier is random.
fn near_multiplier(stride: u64, slots: usize, random: u64) -> u64
    requires { 0 < slots }
{
    let one_slot = HALF / slots as u64;
    stride
        .wrapping_mul(one_slot)
        .wrapping_mul(HALF)
        .wrapping_add(random % HALF)
}

/// Returns a multiplier for each variable, from the greatest value of each. No answer depends on the choice.
///
/// A state's home slot is random except for its last variables, as many as have at most `NEAR_SLOTS` combinations of
/// values: these number adjacent home slots. Closed states are in lexicographic order, so that neighbours mostly differ
/// only in the last variables, and so do their successors under one operator: their slots are adjacent, and mostly in
/// the cache.
pub(crate) fn multipliers(
    alloc: Global,
    greatest: &[u32],
    slots: usize,
) -> Result<Vec<u64>, AllocError>
    requires { 0 < slots }
{
    let mut multipliers = Vec::with_capacity(alloc, greatest.len())?;
    let mut number: u64 = 0;
    let mut stride: u64 = 1;
    for value in greatest.iter().rev() {
        number = number.wrapping_add(STEP);
        let random = scrambled(number);
        let next = stride.saturating_mul(u64::from(*value) + 1);
        if next <= NEAR_SLOTS {
            multipliers.push(near_multiplier(stride, slots, random))?;
        } else {
            multipliers.push(random | 1)?;
        }
        stride = next;
    }
    multipliers.reverse();
    Ok(multipliers)
}

/// Returns the hash with one more value.
#[tactic(auto, unfolding(crate::specs::Hashes::mixed))]
fn mixed(hash: u64, multiplier: u64, value: u32) -> u64
    ensures { result ≡ spec.mixed hash multiplier value }
{
    hash.wrapping_add(multiplier.wrapping_mul(u64::from(value)))
}

/// Returns the hash of a state: the sum of its values, each times the multiplier of its variable. The products do not
/// depend on one another, so that a processor computes several at a time.
pub(crate) fn hash_of(multipliers: &[u64], state: &[u32]) -> u64
    ensures { result ≡ spec.hash_of multipliers.now state.now }
{
    let count = state.len().min(multipliers.len());
    let mut hash = 0;
    for variable in 0..count {
        hash = mixed(hash, multipliers[variable], state[variable]);
    }
    hash
}

/// Returns the part of the index, of `parts` parts, that holds the states with this hash. The upper half of the hash
/// selects the part as `home_of` selects a slot, so that adjacent home slots are mostly in one part.
pub(crate) fn part_of(hash: u64, parts: usize) -> usize
    requires some { 0 < parts }
    requires few { parts < 2 ^ 32 }
    ensures value { result ≡ spec.part_of hash parts }
    ensures below { result < parts }
{
    home_of((hash / HALF) as u32, parts)
}

/// Returns the number that determines the home slot of this hash within its part: the fraction that remains of the
/// upper half of the hash after the part has been selected.
#[tactic(auto, unfolding(crate::specs::Hashes::number_of))]
pub(crate) fn number_of(hash: u64, parts: usize) -> u32
    requires { parts < 2 ^ 32 }
    ensures { result ≡ spec.number_of hash parts }
{
    (hash / HALF * parts as u64 % HALF) as u32
}

/// Returns the tag of a state with this hash: its lower 16 bits.
#[tactic(auto, unfolding(crate::specs::Hashes::tag_of))]
pub(crate) fn tag_of(hash: u64) -> u16
    ensures { result ≡ spec.tag_of hash }
{
    (hash % 65_536) as u16
}
