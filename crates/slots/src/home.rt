//! The home slot of a hash.

ghost use Rattle.std.specs.Prelude.{◌≡◌, ◌<◌, ◌^◌};
ghost use Rattle.slots.specs.Slots as spec;

/// 2^32, by which a number of 32 bits is divided.
const HALF: u64 = 4_294_967_296;

/// Returns the home slot, at which a probe sequence starts: a 32-bit hash times the number of slots, divided by 2^32.
/// The numbers of hashes with a given home slot differ by at most one between slots, and a greater hash never has a
/// lesser home slot.
#[tactic(auto, unfolding(crate::specs::Slots::home_of))]
pub fn home_of(number: u32, slots: usize) -> usize
    requires some { 0 < slots }
    requires few { slots < 2 ^ 32 }
    ensures value { result ≡ spec.home_of number slots }
    ensures below { result < slots }
{
    (u64::from(number) * slots as u64 / HALF) as usize
}
