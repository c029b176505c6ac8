//! What is said of each kind of fault.

ghost use Rattle.optplan_explain.specs.Places.{IsInLine};

use cert_text::CertFault;
use pddl_syntax::{FaultKind, LimitedTable};
use sasfile::SasFault;
use sexp::SexpFault;

/// Returns the sentence for a fault of a tree.
pub(crate) fn tree_words(fault: SexpFault) -> &'static str
    ensures { IsInLine result.now }
{
    match fault {
        SexpFault::OutOfMemory => "out of memory",
        SexpFault::NotAscii(_) => "this byte is allowed only in a comment",
        SexpFault::Unclosed(_) => "this parenthesis is never closed",
        SexpFault::StrayClose(_) => "this parenthesis closes nothing",
        SexpFault::TooDeep(_) => "this parenthesis opens one level more than 200",
        SexpFault::TooLong => "the text is longer than 16777216 bytes",
        SexpFault::Empty => "the text ends without an expression",
        SexpFault::Trailing(_) => "this follows the end of the one expression",
    }
}

/// Returns the sentence for a fault of the text of a finite-domain task.
pub(crate) fn sas_words(fault: SasFault) -> &'static str
    ensures { IsInLine result.now }
{
    match fault {
        SasFault::OutOfMemory => "out of memory",
        SasFault::Limit(_) => "the task is larger than the limits allow",
        SasFault::Version(_) => "this is not version 3",
        SasFault::Expected(_) => "this line does not have the required form",
        SasFault::Range(_) => "a number is out of range, or names a variable a second time",
        SasFault::Axioms(_) => "axioms are not supported",
        SasFault::ConditionalEffect(_) => "conditional effects are not supported",
        SasFault::Truncated => "the text ends before its last line",
        SasFault::Trailing(_) => "this line follows the end of the task",
    }
}

/// Returns the sentence for a fault of a certificate's text.
pub(crate) fn cert_words(fault: CertFault) -> &'static str
    ensures { IsInLine result.now }
{
    match fault {
        CertFault::OutOfMemory => "out of memory",
        CertFault::Header => "this is not the first line of a certificate of a known version",
        CertFault::Expected(_) => "another keyword, separator or number of words is required",
        CertFault::Number(_) => "a word is no number, or one above its limit",
        CertFault::Truncated => "a line is missing, or has no line feed",
        CertFault::Trailing(_) => "this follows the last line",
        CertFault::Order(_) => "numbers have to increase and do not",
        CertFault::Classes(_) =>
            "the classes are not numbered in the order of their first occurrences",
        CertFault::TooLong => "the text is longer than 1073741824 bytes",
    }
}

/// Returns what follows the first item past the limit of a table.
fn limit_words(table: LimitedTable) -> &'static str
    ensures { IsInLine result.now }
{
    match table {
        LimitedTable::Objects => " is past the limit of 4096 objects, constants among them",
        LimitedTable::Predicates => " is past the limit of 512 predicates",
        LimitedTable::Functions => " is past the limit of 512 functions",
        LimitedTable::Schemas => " is past the limit of 512 actions",
        LimitedTable::Arguments => " is past the limit of 16 parameters or arguments",
        LimitedTable::Literals => " is past the limit of 256 literals of an action",
        LimitedTable::Increases => " is past the limit of 16 increases of an action",
        LimitedTable::Init => " is past the limit of 1000000 items of :init",
    }
}

/// Returns what follows a name at fault.
pub(crate) fn after_name(kind: FaultKind) -> &'static str
    ensures { IsInLine result.now }
{
    match kind {
        FaultKind::Shape => " is not allowed here",
        FaultKind::Unsupported => " is not supported",
        FaultKind::UnknownName => " is not declared",
        FaultKind::Arity => " has another number of arguments than it is declared with",
        FaultKind::TwiceDeclared => " is declared twice",
        FaultKind::TypeCycle => " lies on a cycle of supertypes",
        FaultKind::NotWhole => " is not a whole number",
        FaultKind::CostRange => " is not a cost from 0 to 2147483647",
        FaultKind::Limit(table) => limit_words(table),
        FaultKind::GoalBothWays => " follows its negation in the goal",
    }
}

/// Returns what follows `this list` at fault.
pub(crate) fn after_list(kind: FaultKind) -> &'static str
    ensures { IsInLine result.now }
{
    match kind {
        FaultKind::Shape => " is not allowed here, has another form than required, or lacks a part",
        FaultKind::TwiceDeclared => " is declared or stated a second time",
        FaultKind::CostRange => " has increases whose sum may be above 2147483647",
        _ => after_name(kind),
    }
}
