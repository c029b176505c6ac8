//! Sentences that say what is wrong at a fault.

ghost use Rattle.std.specs.Prelude.{IfOk, string_bytes};
ghost use Rattle.optplan_explain.specs.Places.{IsInLine};

use crate::around::{is_outside, role_of};
use crate::place::split;
use crate::quoting::{append, before_name, plain, quoted};
use crate::tokens::name_at;
use crate::wording::{after_list, after_name, cert_words, sas_words, tree_words};
use optplan_replies::Fault;
use pddl::PddlFault;
use pddl_syntax::{Fault as TextFault, FaultKind, PlanningFile};
use std::alloc::{AllocError, Global};
use validate::PlanFault;

/// Returns the sentence for a fault at a list.
fn list_sentence(
    alloc: Global,
    file: PlanningFile,
    fault: TextFault,
    front: &[u8],
) -> Result<String, AllocError>
    ensures { IfOk result (λ sentence. IsInLine (string_bytes sentence)) }
{
    if fault.kind == FaultKind::Shape && file == PlanningFile::Problem && is_outside(front) {
        return plain(
            alloc,
            "this problem lacks a part: its `:goal` may be missing or misspelt",
        );
    }
    let mut sentence = plain(alloc, "this list")?;
    append(&mut sentence, after_list(fault.kind))?;
    Ok(sentence)
}

/// Returns the sentence for a fault of the text of a planning task.
fn text_sentence(
    alloc: Global,
    file: PlanningFile,
    fault: TextFault,
    text: &[u8],
) -> Result<String, AllocError>
    ensures { IfOk result (λ sentence. IsInLine (string_bytes sentence)) }
{
    let (front, _) = split(text, fault.at);
    let name = name_at(text, fault.at, fault.kind == FaultKind::Arity);
    if name.is_empty() {
        return list_sentence(alloc, file, fault, front);
    }
    if fault.kind == FaultKind::UnknownName {
        return quoted(
            alloc,
            before_name(role_of(front, name)),
            name,
            after_name(fault.kind),
        );
    }
    quoted(alloc, "", name, after_name(fault.kind))
}

/// Returns the sentence for F25.
fn step_sentence(alloc: Global, at: usize, text: &[u8]) -> Result<String, AllocError>
    ensures { IfOk result (λ sentence. IsInLine (string_bytes sentence)) }
{
    let name = name_at(text, at, false);
    if name.is_empty() {
        plain(
            alloc,
            "this list is no step: a step is a name and its arguments, without lists",
        )
    } else {
        quoted(
            alloc,
            "",
            name,
            " is outside of the lists that are the steps",
        )
    }
}

/// Returns the sentence for a fault, whose text this is.
pub(crate) fn sentence_of(alloc: Global, fault: &Fault, text: &[u8]) -> Result<String, AllocError>
    ensures { IfOk result (λ sentence. IsInLine (string_bytes sentence)) }
{
    match fault {
        Fault::Task(PddlFault::Tree(_, fault), _) => plain(alloc, tree_words(*fault)),
        Fault::Task(PddlFault::Section(file, fault), _) => text_sentence(
            alloc, *file, *fault, text,
        ),
        Fault::Plan(PlanFault::Tree(fault)) => plain(alloc, tree_words(*fault)),
        Fault::Plan(PlanFault::PlanShape(at)) => step_sentence(alloc, *at, text),
        Fault::Plan(PlanFault::PlanLimit) => plain(alloc, "the plan has more than 1048576 steps"),
        Fault::Sas(fault) => plain(alloc, sas_words(*fault)),
        Fault::Cert(fault) => plain(alloc, cert_words(*fault)),
        _ => plain(alloc, "this fault is in no text"),
    }
}
