//! The verdict on a certificate for a planning task.

use checker_clauses::Violation;
use cost::Dist;
use std::fmt;

/// A violation of a clause by a certificate for a planning task: the clause, and the first place at fault. An atom is
/// given by its names with blanks between them, in parentheses. Its text is `C1 atom (at a)`, `C2 var 0`,
/// `C2 atom (at a)`, `C3 column 0 op 1`, and so on.
#[derive(Debug, Drop)]
pub enum PlanningViolation {
    /// C1: the listed atom is not an atom of the task or is listed before; or the atom is missing from the list,
    /// although it is initially true, a goal, or added by an action over the listed atoms.
    Atom(String),
    /// C2: the variable has an atom that it must not have, or its atoms are not a mutex group of the kind that it
    /// states.
    Variable(usize),
    /// C2: the listed atom is not constant, and in no variable.
    Uncovered(String),
    /// C0 and C3 to C8: a violation for the finite-domain task over the listed atoms and the variables.
    Task(Violation),
}

impl fmt::Display for PlanningViolation {
    ghost use Rattle.std.specs.Prelude.{Some};
    ghost use Rattle.checker.specs.Judgements.{violation_text};

    ghost output = { λ v. Some (violation_text v) };

    fn fmt<W: fmt::Write>(&self, f: &mut fmt::Formatter<W>) -> fmt::Result {
        match self {
            PlanningViolation::Atom(atom) => {
                let atom = atom.as_str();
                write!(f, "C1 atom {atom}")
            }
            PlanningViolation::Variable(variable) => write!(f, "C2 var {variable}"),
            PlanningViolation::Uncovered(atom) => {
                let atom = atom.as_str();
                write!(f, "C2 atom {atom}")
            }
            PlanningViolation::Task(violation) => write!(f, "{violation}"),
        }
    }
}

/// The verdict on a certificate for a planning task. Its text is `accepted N`, `accepted unsolvable`, or `rejected`
/// with the clause and the first place at fault.
#[derive(Debug, Drop)]
pub enum PlanningVerdict {
    /// Every valid plan costs at least this much. If it is infinite, there is no valid plan.
    Accepted(Dist),
    /// This is the first violation of the certificate.
    Rejected(PlanningViolation),
}

impl fmt::Display for PlanningVerdict {
    ghost use Rattle.std.specs.Prelude.{Some};
    ghost use Rattle.checker.specs.Judgements.{verdict_text};

    ghost output = { λ v. Some (verdict_text v) };

    fn fmt<W: fmt::Write>(&self, f: &mut fmt::Formatter<W>) -> fmt::Result {
        match self {
            PlanningVerdict::Accepted(bound) => match bound.get() {
                Some(number) => write!(f, "accepted {number}"),
                None => write!(f, "accepted unsolvable"),
            },
            PlanningVerdict::Rejected(violation) => write!(f, "rejected {violation}"),
        }
    }
}
