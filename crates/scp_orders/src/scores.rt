//! Scores by which abstractions are ordered for a state (Seipp, Keller and Helmert 2020).

ghost use Rattle.std.specs.Prelude.{◌≤◌};

/// A score of an abstraction for a state, from its distance `h` of the state under full costs and the costs that it
/// takes from other abstractions.
#[derive(Clone, Copy)]
pub(crate) enum Score {
    /// `h` / stolen costs
    Quotient,
    /// `h`
    Distance,
    /// `h`^2 / stolen costs
    SquareQuotient,
}

/// Returns the score that a candidate is made by: the three in turn.
pub(crate) fn score_of(candidate: usize) -> Score {
    match candidate % 3 {
        0 => Score::Quotient,
        1 => Score::Distance,
        _ => Score::SquareQuotient,
    }
}

/// Returns by how many bits distances of at most `most` are shifted to the right so that they have at most 32 bits.
pub(crate) fn excess_bits(most: u64) -> u32
    ensures { result ≤ 32 }
{
    32 - most.leading_zeros().min(32)
}

/// Returns the score of a distance as a fixed-point number with 64 bits after the point, so that scores are compared
/// as integers: two different quotients of numbers below 2^32 differ by more than 2^-64. A distance that is squared
/// first loses its last `excess` bits, which is nothing if all distances of the state are below 2^32.
pub(crate) fn score_value(score: Score, distance: u64, stolen: u64, excess: u32) -> u128
    requires { excess ≤ 32 }
{
    let stolen = u128::from(stolen.max(1));
    match score {
        Score::Quotient => (u128::from(distance) << 64) / stolen,
        Score::Distance => u128::from(distance) << 64,
        Score::SquareQuotient => {
            let short = distance >> excess;
            (u128::from(short.saturating_mul(short)) << 64) / stolen
        }
    }
}
