//! The spots of faults, and their files.

ghost use Rattle.std.specs.Prelude.{◌≡◌};
ghost use Rattle.optplan_explain.specs.Spots.{tree_spot, task_spot, plan_spot, sas_spot, cert_spot, file_word, in_file, source_of, spot_of};

use crate::source::{Source, Sources};
use crate::spot::Spot;
use cert_text::CertFault;
use optplan_replies::{Fault, FileWord};
use pddl::PddlFault;
use pddl_syntax::PlanningFile;
use sasfile::SasFault;
use sexp::SexpFault;
use validate::PlanFault;

/// Returns the spot of a fault of a tree.
fn tree_spot(fault: SexpFault) -> Option<Spot>
    ensures { result ≡ tree_spot fault }
{
    match fault {
        SexpFault::NotAscii(at)
        | SexpFault::Unclosed(at)
        | SexpFault::StrayClose(at)
        | SexpFault::TooDeep(at)
        | SexpFault::Trailing(at) => Some(Spot::Byte(at)),
        SexpFault::Empty => Some(Spot::End),
        SexpFault::OutOfMemory | SexpFault::TooLong => None,
    }
}

/// Returns the word for a file of a planning task.
pub(crate) fn file_word(file: PlanningFile) -> FileWord
    ensures { result ≡ file_word file }
{
    match file {
        PlanningFile::Domain => FileWord::Domain,
        PlanningFile::Problem => FileWord::Problem,
    }
}

/// Returns the file's word with the spot, if there is one.
fn in_file(file: FileWord, spot: Option<Spot>) -> Option<(FileWord, Spot)>
    ensures { result ≡ in_file file spot }
{
    match spot {
        Some(spot) => Some((file, spot)),
        None => None,
    }
}

/// Returns the file of a fault of a planning task, and its spot.
fn task_spot(fault: PddlFault) -> Option<(FileWord, Spot)>
    ensures { result ≡ task_spot fault }
{
    match fault {
        PddlFault::OutOfMemory => None,
        PddlFault::Tree(file, fault) => in_file(file_word(file), tree_spot(fault)),
        PddlFault::Section(file, fault) => Some((file_word(file), Spot::Byte(fault.at))),
    }
}

/// Returns the spot of a fault of a plan's text. F26 is at the start of the text.
fn plan_spot(fault: PlanFault) -> Option<Spot>
    ensures { result ≡ plan_spot fault }
{
    match fault {
        PlanFault::OutOfMemory => None,
        PlanFault::Tree(fault) => tree_spot(fault),
        PlanFault::PlanShape(at) => Some(Spot::Byte(at)),
        PlanFault::PlanLimit => Some(Spot::Byte(0)),
    }
}

/// Returns the spot of a fault of the text of a finite-domain task.
fn sas_spot(fault: SasFault) -> Option<Spot>
    ensures { result ≡ sas_spot fault }
{
    match fault {
        SasFault::OutOfMemory | SasFault::Limit(_) => None,
        SasFault::Version(line)
        | SasFault::Expected(line)
        | SasFault::Range(line)
        | SasFault::Axioms(line)
        | SasFault::ConditionalEffect(line)
        | SasFault::Trailing(line) => Some(Spot::Line(line)),
        SasFault::Truncated => Some(Spot::LastLine),
    }
}

/// Returns the spot of a fault of a certificate's text.
fn cert_spot(fault: CertFault) -> Option<Spot>
    ensures { result ≡ cert_spot fault }
{
    match fault {
        CertFault::OutOfMemory | CertFault::TooLong => None,
        CertFault::Header => Some(Spot::Line(1)),
        CertFault::Expected(line)
        | CertFault::Number(line)
        | CertFault::Trailing(line)
        | CertFault::Order(line)
        | CertFault::Classes(line) => Some(Spot::Line(line)),
        CertFault::Truncated => Some(Spot::LastLine),
    }
}

/// Returns the file of a fault, and its spot; `None` if it is at no byte and in no line of a text.
pub(crate) fn spot_of(fault: &Fault) -> Option<(FileWord, Spot)>
    ensures { result ≡ spot_of fault.now }
{
    match fault {
        Fault::Task(fault, _) => task_spot(*fault),
        Fault::Plan(fault) => in_file(FileWord::Plan, plan_spot(*fault)),
        Fault::Sas(fault) => in_file(FileWord::Sas, sas_spot(*fault)),
        Fault::Cert(fault) => in_file(FileWord::Cert, cert_spot(*fault)),
        Fault::OutOfMemory
        | Fault::CannotRead(_)
        | Fault::CannotWrite(_)
        | Fault::GroundLimit
        | Fault::TaskTooLarge(_)
        | Fault::TotalTooLarge => None,
    }
}

/// Returns the file that a word names, if it was read.
pub(crate) fn source_of<'a>(sources: &Sources<'a>, file: FileWord) -> Option<Source<'a>>
    ensures { result ≡ source_of sources.now file }
{
    match file {
        FileWord::Domain => sources.domain,
        FileWord::Problem => sources.problem,
        FileWord::Plan => sources.plan,
        FileWord::Sas => sources.sas,
        FileWord::Cert => sources.cert,
        FileWord::Output => None,
    }
}
