//! Faults as they are printed.

ghost use Rattle.std.specs.Prelude.{◌≡◌};
ghost use Rattle.optplan_replies.specs.declared.fault.Fault.TheVariants.{OutOfMemory};
ghost use Rattle.optplan_replies.specs.Faults.{fault_status, fault_of_sas, fault_of_cert, fault_of_check};
ghost use Rattle.optplan_replies.specs.Words.{file_text, table_text};

use crate::status::Status;
use cert_text::CertFault;
use checker::CheckFault;
use fdr::TaskLimit;
use pddl::PddlFault;
use pddl_syntax::{Fault as TextFault, FaultKind, LimitedTable, PlanningFile};
use sasfile::SasFault;
use sexp::SexpFault;
use std::alloc::{AllocError, AllocFailed};
use std::fmt;
use validate::PlanFault;

/// A file, by the word that a printed fault uses for it.
#[derive(Clone, Copy, Debug, PartialEq, Eq)]
pub enum FileWord {
    Domain,
    Problem,
    Plan,
    Sas,
    Cert,
    Output,
}

/// The reason why the program has no answer.
#[derive(Debug, Drop)]
pub enum Fault {
    /// Allocation failed.
    OutOfMemory,
    /// F70: the file cannot be read.
    CannotRead(FileWord),
    /// F71: the file, or standard output, cannot be written.
    CannotWrite(FileWord),
    /// F1 to F19: the text of the domain or of the problem is refused, with the word that F11 prints.
    Task(PddlFault, Option<String>),
    /// F1 to F5, F25, F26: the plan's text is refused.
    Plan(PlanFault),
    /// F18 and F40 to F46: the text of a finite-domain task is refused.
    Sas(SasFault),
    /// F50 to F57: the text of a certificate is refused.
    Cert(CertFault),
    /// F20: a planning task has more atoms or ground actions than the limits allow.
    GroundLimit,
    /// F18: a planning task's translation has more variables, values of a variable or operators than the limits allow.
    TaskTooLarge(TaskLimit),
    /// F60: a path would have a cost, or a number of steps, above 2^62.
    TotalTooLarge,
}

impl From<AllocError> for Fault {
    ghost from_gives = { λ _ e. e ≡ OutOfMemory };

    fn from(_e: AllocError) -> Fault {
        Fault::OutOfMemory
    }
}

impl<T: Drop> From<AllocFailed<T>> for Fault {
    ghost from_gives = { λ _ e. e ≡ OutOfMemory };

    fn from(_e: AllocFailed<T>) -> Fault {
        Fault::OutOfMemory
    }
}

impl From<SasFault> for Fault {
    ghost from_gives = { λ fault e. e ≡ fault_of_sas fault };

    fn from(fault: SasFault) -> Fault {
        match fault {
            SasFault::OutOfMemory => Fault::OutOfMemory,
            SasFault::Limit(_)
            | SasFault::Version(_)
            | SasFault::Expected(_)
            | SasFault::Range(_)
            | SasFault::Axioms(_)
            | SasFault::ConditionalEffect(_)
            | SasFault::Truncated
            | SasFault::Trailing(_) => Fault::Sas(fault),
        }
    }
}

impl From<CertFault> for Fault {
    ghost from_gives = { λ fault e. e ≡ fault_of_cert fault };

    fn from(fault: CertFault) -> Fault {
        match fault {
            CertFault::OutOfMemory => Fault::OutOfMemory,
            CertFault::Header
            | CertFault::Expected(_)
            | CertFault::Number(_)
            | CertFault::Truncated
            | CertFault::Trailing(_)
            | CertFault::Order(_)
            | CertFault::Classes(_)
            | CertFault::TooLong => Fault::Cert(fault),
        }
    }
}

impl From<CheckFault> for Fault {
    ghost from_gives = { λ fault e. e ≡ fault_of_check fault };

    fn from(fault: CheckFault) -> Fault {
        match fault {
            CheckFault::OutOfMemory => Fault::OutOfMemory,
            CheckFault::Sas(fault) => Fault::from(fault),
            CheckFault::Cert(fault) => Fault::from(fault),
        }
    }
}

impl Fault {
    /// Returns the exit status: `OutOfMemory` if allocation failed, `DeviceFailed` for a file that cannot be read or
    /// written, and `Refused` for a text or a task that is refused.
    pub fn status(&self) -> Status
        ensures { result ≡ fault_status self.now }
    {
        match self {
            Fault::OutOfMemory => Status::OutOfMemory,
            Fault::CannotRead(_) | Fault::CannotWrite(_) => Status::DeviceFailed,
            Fault::Task(_, _) | Fault::Plan(_) => Status::Refused,
            Fault::Sas(_) | Fault::Cert(_) => Status::Refused,
            Fault::GroundLimit | Fault::TaskTooLarge(_) | Fault::TotalTooLarge => Status::Refused,
        }
    }
}

impl FileWord {
    fn as_str(self) -> &'static str
        ensures { result.now ≡ file_text self }
    {
        match self {
            FileWord::Domain => "domain",
            FileWord::Problem => "problem",
            FileWord::Plan => "plan",
            FileWord::Sas => "sas",
            FileWord::Cert => "cert",
            FileWord::Output => "output",
        }
    }
}

/// Returns the word for a file of a planning task.
fn file_word(file: PlanningFile) -> FileWord
    ensures domain { file ≡ PlanningFile.Domain → result ≡ FileWord.Domain }
    ensures problem { file ≡ PlanningFile.Problem → result ≡ FileWord.Problem }
{
    match file {
        PlanningFile::Domain => FileWord::Domain,
        PlanningFile::Problem => FileWord::Problem,
    }
}

fn table_word(table: LimitedTable) -> &'static str
    ensures { result.now ≡ table_text table }
{
    match table {
        LimitedTable::Objects => "objects",
        LimitedTable::Predicates => "predicates",
        LimitedTable::Functions => "functions",
        LimitedTable::Schemas => "schemas",
        LimitedTable::Arguments => "arguments",
        LimitedTable::Literals => "literals",
        LimitedTable::Increases => "increases",
        LimitedTable::Init => "init",
    }
}

/// Writes the number, name, file and byte offset of a fault of a tree.
fn write_tree_fault<W: fmt::Write>(
    f: &mut fmt::Formatter<W>,
    fault: SexpFault,
    file: FileWord,
) -> fmt::Result {
    let file = file.as_str();
    match fault {
        SexpFault::OutOfMemory => write!(f, "out of memory"),
        SexpFault::NotAscii(at) => write!(f, "F1 NotAscii {file} {at}"),
        SexpFault::Unclosed(at) => write!(f, "F2 Unclosed {file} {at}"),
        SexpFault::StrayClose(at) => write!(f, "F3 StrayClose {file} {at}"),
        SexpFault::TooDeep(at) => write!(f, "F4 TooDeep {file} {at}"),
        SexpFault::TooLong => write!(f, "F5 TooLong {file}"),
        SexpFault::Empty => write!(f, "F6 Empty {file}"),
        SexpFault::Trailing(at) => write!(f, "F7 Trailing {file} {at}"),
    }
}

/// Writes the number, name, word, file and byte offset of a fault of a planning text.
fn write_text_fault<W: fmt::Write>(
    f: &mut fmt::Formatter<W>,
    fault: TextFault,
    file: FileWord,
    word: &str,
) -> fmt::Result {
    let file = file.as_str();
    let at = fault.at;
    match fault.kind {
        FaultKind::Shape => write!(f, "F10 Shape {file} {at}"),
        FaultKind::Unsupported => write!(f, "F11 Unsupported {word} {file} {at}"),
        FaultKind::UnknownName => write!(f, "F12 UnknownName {file} {at}"),
        FaultKind::Arity => write!(f, "F13 Arity {file} {at}"),
        FaultKind::TwiceDeclared => write!(f, "F14 TwiceDeclared {file} {at}"),
        FaultKind::TypeCycle => write!(f, "F15 TypeCycle {file} {at}"),
        FaultKind::NotWhole => write!(f, "F16 NotWhole {file} {at}"),
        FaultKind::CostRange => write!(f, "F17 CostRange {file} {at}"),
        FaultKind::Limit(table) => {
            let table = table_word(table);
            write!(f, "F18 Limit {table} {file} {at}")
        }
        FaultKind::GoalBothWays => write!(f, "F19 GoalBothWays {file} {at}"),
    }
}

/// Writes the fault's line, without the program's name and the line feed.
impl fmt::Display for Fault {
    fn fmt<W: fmt::Write>(&self, f: &mut fmt::Formatter<W>) -> fmt::Result {
        match self {
            Fault::OutOfMemory
            | Fault::Task(PddlFault::OutOfMemory, _)
            | Fault::Plan(PlanFault::OutOfMemory) => { write!(f, "out of memory") }
            Fault::CannotRead(file) => {
                let file = file.as_str();
                write!(f, "F70 CannotRead {file}")
            }
            Fault::CannotWrite(file) => {
                let file = file.as_str();
                write!(f, "F71 CannotWrite {file}")
            }
            Fault::Task(PddlFault::Tree(file, fault), _) => {
                write_tree_fault(f, *fault, file_word(*file))
            }
            Fault::Task(PddlFault::Section(file, fault), word) => {
                let word = match word {
                    Some(word) => word.as_str(),
                    None => "",
                };
                write_text_fault(f, *fault, file_word(*file), word)
            }
            Fault::Plan(PlanFault::Tree(fault)) => write_tree_fault(f, *fault, FileWord::Plan),
            Fault::Plan(PlanFault::PlanShape(at)) => write!(f, "F25 PlanShape plan {at}"),
            Fault::Plan(PlanFault::PlanLimit) => write!(f, "F26 PlanLimit plan"),
            Fault::Sas(fault) => write!(f, "{fault}"),
            Fault::Cert(fault) => write!(f, "{fault}"),
            Fault::GroundLimit => write!(f, "F20 GroundLimit"),
            Fault::TaskTooLarge(table) => write!(f, "F18 Limit {table}"),
            Fault::TotalTooLarge => write!(f, "F60 TotalTooLarge"),
        }
    }
}
