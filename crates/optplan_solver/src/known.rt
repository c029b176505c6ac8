//! What several searches for a task know together.

ghost use Rattle.std.specs.Prelude.{◌≡◌};
ghost use Rattle.optplan_solver.specs.Stages.{cheaper, better, better_known, with_known};

use optplan_search::{Answer, Found, FoundPlan, SoFar};

/// Returns the cheaper of two plans, if there are any; the first if they cost the same.
fn cheaper(first: Option<FoundPlan>, second: Option<FoundPlan>) -> Option<FoundPlan>
    ensures { result ≡ cheaper first second }
{
    match (first, second) {
        (None, second) => second,
        (Some(first), None) => Some(first),
        (Some(first), Some(second)) => {
            if second.cost < first.cost {
                Some(second)
            } else {
                Some(first)
            }
        }
    }
}

/// Returns the greater of the bounds of two searches with the certificate of it, if there is one, and the cheaper of
/// their plans. If the bounds are equal, the certificate is that of the earlier search, which has smaller tables.
fn better(earlier: SoFar<FoundPlan>, now: SoFar<FoundPlan>) -> SoFar<FoundPlan>
    ensures { result ≡ better earlier now }
{
    let best = cheaper(earlier.best, now.best);
    let (bound, certificate) = if earlier.bound < now.bound {
        (now.bound, now.certificate)
    } else {
        (earlier.bound, earlier.certificate)
    };
    SoFar {
        bound,
        best,
        certificate,
    }
}

/// Returns what earlier searches and another one know together, if any of them knows anything.
pub(crate) fn better_known(
    earlier: Option<SoFar<FoundPlan>>,
    now: Option<SoFar<FoundPlan>>,
) -> Option<SoFar<FoundPlan>>
    ensures { result ≡ better_known earlier now }
{
    match (earlier, now) {
        (None, now) => now,
        (Some(earlier), None) => Some(earlier),
        (Some(earlier), Some(now)) => Some(better(earlier, now)),
    }
}

/// Returns the finding of the last search, with what the earlier ones know if it was stopped.
pub(crate) fn with_known(earlier: Option<SoFar<FoundPlan>>, found: Found) -> Found
    ensures { result ≡ with_known earlier found }
{
    match (earlier, found) {
        (Some(earlier), Answer::Limit(now)) => Answer::Limit(better(earlier, now)),
        (_, found) => found,
    }
}
