//! Faults of planning texts, with the word that they print.

ghost use Rattle.std.specs.Prelude.{◌≡◌, IfOk, string_bytes};
ghost use Rattle.pddl.specs.Texts.{IsTaskRefusal};
ghost use Rattle.optplan_replies.specs.Words.{first_word, word_at, text_of};
ghost use Rattle.optplan_replies.specs.Reports.{IsTaskReport};

use crate::fault::Fault;
use pddl::PddlFault;
use pddl_syntax::{Fault as TextFault, FaultKind, PlanningFile};
use sexp::{ByteKind, kind_of};
use std::alloc::{AllocError, Global};

/// Returns the word at the start of a text, in lower case; empty if the text does not start with one.
fn first_word(alloc: Global, text: &[u8]) -> Result<String, AllocError>
    ensures { IfOk result (λ word. string_bytes word ≡ first_word text.now) }
{
    let mut word = String::new(alloc);
    for byte in text {
        let byte = *byte;
        if kind_of(byte) != ByteKind::Letter {
            return Ok(word);
        }
        word.push(byte.to_ascii_lowercase() as char)?;
    }
    Ok(word)
}

/// Returns the word that starts at byte `at` of a text, in lower case; empty if there is none.
fn word_at(alloc: Global, text: &[u8], at: usize) -> Result<String, AllocError>
    ensures { IfOk result (λ word. string_bytes word ≡ word_at text.now at) }
{
    match text.get(at..) {
        Some(rest) => first_word(alloc, rest),
        None => Ok(String::new(alloc)),
    }
}

/// Returns the text of a file.
fn text_of<'a>(file: PlanningFile, domain: &'a [u8], problem: &'a [u8]) -> &'a [u8]
    ensures { result.now ≡ text_of file domain.now problem.now }
{
    match file {
        PlanningFile::Domain => domain,
        PlanningFile::Problem => problem,
    }
}

/// Converts the fault of the texts into the program's, with the word that it prints, if it has one; `OutOfMemory` if
/// allocation fails.
pub fn task_fault(alloc: Global, fault: PddlFault, domain: &[u8], problem: &[u8]) -> Fault
    ensures { IsTaskRefusal domain.now problem.now fault → IsTaskReport domain.now problem.now result }
{
    match fault {
        PddlFault::OutOfMemory => Fault::OutOfMemory,
        PddlFault::Tree(_, _) => Fault::Task(fault, None),
        PddlFault::Section(
            file,
            TextFault {
                kind: FaultKind::Unsupported,
                at,
            },
        ) => {
            match word_at(alloc, text_of(file, domain, problem), at) {
                Ok(word) => Fault::Task(fault, Some(word)),
                Err(_) => Fault::OutOfMemory,
            }
        }
        PddlFault::Section(_, _) => Fault::Task(fault, None),
    }
}
