//! The verdict on a plan and a certificate.

ghost use Rattle.std.specs.Prelude.{◌≡◌, ◌≢◌};
ghost use Rattle.optplan_optimal.specs.Statuses.{verdict_status};

use checker::PlanningViolation;
use optplan_replies::Status;
use std::fmt;

/// The verdict on the texts of a plan and of a certificate for a planning task.
#[derive(Debug, Drop)]
pub enum OptimalityVerdict {
    /// The plan is valid at this cost, and the certificate is accepted for this cost: no valid plan is cheaper.
    Optimal(u64),
    /// The plan is valid at this cost, and the certificate is accepted for a lesser bound.
    Gap {
        cost: u64,
        bound: u64,
    },
    /// The plan is valid at this cost, and this is the first violation of the certificate.
    CertificateRejected {
        cost: u64,
        violation: PlanningViolation,
    },
    /// The plan is not valid. The text says why, as `validate::verdict_line` does, without its line feed. The
    /// certificate is not judged.
    PlanRejected(String),
    /// The plan's text claims that there is no valid plan, and the certificate is accepted for the infinite bound.
    Unsolvable,
    /// The plan's text claims that there is no valid plan, and the certificate is accepted for this bound only.
    AtLeast(u64),
    /// The plan's text claims that there is no valid plan, and this is the first violation of the certificate.
    ClaimRejected(PlanningViolation),
}

impl OptimalityVerdict {
    /// Returns the exit status of a command with this verdict: `Done` if the plan is optimal, `Unsolvable` if there is
    /// no valid plan, else `Rejected`.
    pub fn status(&self) -> Status
        ensures status { result ≡ verdict_status self.now }
        ensures judged { result ≢ Status.DeviceFailed }
    {
        match self {
            OptimalityVerdict::Optimal(_) => Status::Done,
            OptimalityVerdict::Unsolvable => Status::Unsolvable,
            OptimalityVerdict::Gap { .. }
            | OptimalityVerdict::CertificateRejected { .. }
            | OptimalityVerdict::PlanRejected(_)
            | OptimalityVerdict::AtLeast(_)
            | OptimalityVerdict::ClaimRejected(_) => Status::Rejected,
        }
    }
}

/// Writes the verdict's line, without a line feed.
impl fmt::Display for OptimalityVerdict {
    ghost use Rattle.std.specs.Prelude.{Some};
    ghost use Rattle.optplan_optimal.specs.Lines.{verdict_text};

    ghost output = { λ v. Some (verdict_text v) };

    fn fmt<W: fmt::Write>(&self, f: &mut fmt::Formatter<W>) -> fmt::Result {
        match self {
            OptimalityVerdict::Optimal(cost) => write!(f, "optimal {cost}"),
            OptimalityVerdict::Gap { cost, bound } => write!(f, "valid {cost}, at least {bound}"),
            OptimalityVerdict::CertificateRejected { cost, violation } => {
                write!(f, "valid {cost}, rejected {violation}")
            }
            OptimalityVerdict::PlanRejected(line) => {
                let line = line.as_str();
                write!(f, "{line}")
            }
            OptimalityVerdict::Unsolvable => write!(f, "unsolvable"),
            OptimalityVerdict::AtLeast(bound) => write!(f, "at least {bound}"),
            OptimalityVerdict::ClaimRejected(violation) => write!(f, "rejected {violation}"),
        }
    }
}
