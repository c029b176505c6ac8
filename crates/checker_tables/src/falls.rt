//! The consistency test of one operator's transitions, source by source.

ghost use Rattle.std.specs.Prelude.{◌≡◌, ℕ, ◌^◌, ◌≤◌, ◌∷◌, [], length};
ghost use Rattle.cost.specs.Distances.{Finite, ◌+ᵈ◌, is_at_most};
ghost use Rattle.checker_tables.specs.Moves.{StaysBelow, IsLeast};
ghost use Rattle.checker_tables.specs.TableFaults.{is_fall_within};

use crate::moves::FreeDigit;
use cert_value::Values;
use cost::Dist;

/// Returns whether `value` exceeds `next` by at most `share`.
fn is_within(value: Dist, share: u64, next: Dist) -> bool
    ensures { result ≡ is_at_most value (Finite share +ᵈ next) }
{
    match (value.get(), next.get()) {
        (_, None) => true,
        (None, Some(_)) => false,
        (Some(value), Some(next)) => value.saturating_sub(share) <= next,
    }
}

/// The consistency test of transitions: the value of the source exceeds that of the target by at most the share.
#[derive(Clone, Copy)]
pub(crate) struct FallTest<'a> {
    /// The values of the sources.
    pub(crate) values: &'a Values,
    /// The values of the targets.
    pub(crate) nexts: &'a Values,
    pub(crate) share: u64,
    ghost few_values: { length values.now ≤ 2 ^ 24 },
    ghost few_nexts: { length nexts.now ≤ 2 ^ 24 },
}

impl FallTest<'_> {
    /// Returns the first abstract state below `limit` from which a transition over this one free digit fails the test,
    /// or `limit`.
    fn least_in_run(&self, digit: FreeDigit, source: usize, target: usize, limit: usize) -> usize
        requires { StaysBelow (digit ∷ []) source target (length self.now.values.now) (length self.now.nexts.now) }
        ensures { IsLeast (is_fall_within self.now.values.now self.now.nexts.now self.now.share) (digit ∷ []) source target limit result }
    {
        for value in 0..digit.range {
            let state = source + value * digit.source;
            if state >= limit {
                return limit;
            }
            let next = target + value * digit.target;
            if !is_within(self.values.get(state), self.share, self.nexts.get(next)) {
                return state;
            }
        }
        limit
    }

    /// Returns the first abstract state below `limit` from which a transition over the free digits fails the test, or
    /// `limit`.
    pub(crate) fn least(
        &self,
        free: &[FreeDigit],
        source: usize,
        target: usize,
        limit: usize,
    ) -> usize
        requires { StaysBelow free.now source target (length self.now.values.now) (length self.now.nexts.now) }
        ensures { IsLeast (is_fall_within self.now.values.now self.now.nexts.now self.now.share) free.now source target limit result }
    {
        let Some((digit, rest)) = free.split_first() else {
            return self.least_in_run(FreeDigit::ONCE, source, target, limit);
        };
        if rest.is_empty() {
            return self.least_in_run(*digit, source, target, limit);
        }
        let mut least = limit;
        for value in 0..digit.range {
            let first = source + value * digit.source;
            if first >= least {
                return least;
            }
            least = self.least(rest, first, target + value * digit.target, least);
        }
        least
    }
}
