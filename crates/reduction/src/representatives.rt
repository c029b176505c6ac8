//! The retained operators that represent the operators of a task.

ghost use Rattle.std.specs.Prelude.{◌≡◌, ℕ, ◌<◌, All, Contains, Some, IfSome, length, map, option_map, slice_get, slice_index, IfOk};

use std::alloc::{AllocError, Global};

/// Returns for each of the numbers its index among them, in a list with `count` elements.
pub(crate) fn places_of(
    alloc: Global,
    count: usize,
    numbers: &[usize],
) -> Result<Vec<usize>, AllocError>
    requires { All (λ n. n < count) numbers.now }
    ensures len { IfOk result (λ places. length places.items ≡ count) }
    ensures places { IfOk result (λ places. (n : ℕ) → Contains numbers.now n → slice_get numbers.now (slice_index places.items n) ≡ Some n) }
{
    let mut places = vec![in alloc; 0; count]?;
    for place in 0..numbers.len() {
        places[numbers[place]] = place;
    }
    Ok(places)
}

/// Returns for each operator the index of the best operator of its group. `places` has the index of each operator.
pub(crate) fn representatives_of(
    alloc: Global,
    groups: &[Option<usize>],
    best: &[usize],
    places: &[usize],
) -> Result<Vec<Option<usize>>, AllocError>
    requires groups { All (λ g. IfSome g (λ i. i < length best.now)) groups.now }
    requires best { All (λ o. o < length places.now) best.now }
    ensures { IfOk result (λ r. r.items ≡ map (option_map (λ g. slice_index places.now (slice_index best.now g))) groups.now) }
{
    let mut representatives = Vec::with_capacity(alloc, groups.len())?;
    for group in groups {
        match group {
            Some(group) => representatives.push(Some(places[best[*group]]))?,
            None => representatives.push(None)?,
        }
    }
    Ok(representatives)
}
