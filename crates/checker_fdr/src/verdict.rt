//! The verdict on a certificate.

use checker_clauses::Violation;
use cost::Dist;
use std::fmt;

/// The verdict on a certificate for a finite-domain task. Its text is `accepted N`, `accepted unsolvable`, or
/// `rejected` with the clause and the first place at fault.
#[derive(Clone, Copy, Debug, PartialEq, Eq)]
pub enum Verdict {
    /// Every plan costs at least this much. If it is infinite, there is no plan.
    Accepted(Dist),
    /// This is the first violation of the certificate.
    Rejected(Violation),
}

impl fmt::Display for Verdict {
    ghost use Rattle.std.specs.Prelude.{Some};
    ghost use Rattle.checker_fdr.specs.Verdicts.{verdict_text};

    ghost output = { λ v. Some (verdict_text v) };

    fn fmt<W: fmt::Write>(&self, f: &mut fmt::Formatter<W>) -> fmt::Result {
        match self {
            Verdict::Accepted(bound) => match bound.get() {
                Some(number) => write!(f, "accepted {number}"),
                None => write!(f, "accepted unsolvable"),
            },
            Verdict::Rejected(violation) => write!(f, "rejected {violation}"),
        }
    }
}
