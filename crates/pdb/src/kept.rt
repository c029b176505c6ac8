//! Distances as numbers in memory. An infinite distance is a number above the greatest finite distance.

ghost use Rattle.std.specs.Prelude.{◌≡◌, map, IfOk};
ghost use Rattle.cert_value.specs.Kept.{kept_distance};

use cert_value::Values;
use cost::Dist;
use std::alloc::{AllocError, Global};

/// Returns the distance that a number is.
pub(crate) fn distance_of(number: u64) -> Dist
    ensures { result ≡ kept_distance number }
{
    Dist::fin(number).unwrap_or(Dist::inf())
}

/// Returns the distances that the numbers are.
pub(crate) fn as_distances(alloc: Global, numbers: &[u64]) -> Result<Values, AllocError>
    ensures { IfOk result (λ distances. distances ≡ map kept_distance numbers.now) }
{
    let mut distances = Values::new(alloc);
    for number in numbers {
        distances.push(distance_of(*number))?;
    }
    Ok(distances)
}

/// Returns a number that is the distance.
fn number_of(distance: Dist) -> u64
    ensures { kept_distance result ≡ distance }
{
    match distance.get() {
        Some(number) => number,
        None => u64::MAX,
    }
}

/// Returns numbers that are the distances.
pub(crate) fn as_numbers(alloc: Global, distances: &Values) -> Result<Vec<u64>, AllocError>
    ensures { IfOk result (λ numbers. map kept_distance numbers.items ≡ distances.now) }
{
    let mut numbers = Vec::with_capacity(alloc, distances.len())?;
    for state in 0..distances.len() {
        numbers.push(number_of(distances.get(state)))?;
    }
    Ok(numbers)
}
