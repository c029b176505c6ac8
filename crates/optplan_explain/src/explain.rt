//! Explanations of faults.

ghost use Rattle.std.specs.Prelude.{◌≡◌, ◌⊎◌, IfOk, option_map, string_bytes};
ghost use Rattle.optplan_replies.specs.declared.fault.Fault.TheVariants.{OutOfMemory};
ghost use Rattle.optplan_explain.specs.Explanations.{IsExplanation, IsExplained};
ghost use Rattle.optplan_explain.specs.Files.{files_of};

use crate::faults::{file_word, source_of, spot_of};
use crate::layout::at_spot;
use crate::nearest::nearest_in;
use crate::sentence::sentence_of;
use crate::source::Sources;
use crate::tokens::name_at;
use optplan_replies::{Fault, Refusal};
use pddl::PddlFault;
use pddl_syntax::{Fault as TextFault, FaultKind, PlanningFile};
use std::alloc::{AllocError, Global};

/// Returns the declared name that is nearest to the name at a byte offset of a file of a planning task.
fn nearest_at<'a>(
    alloc: Global,
    sources: &Sources<'a>,
    file: PlanningFile,
    at: usize,
) -> Result<Option<&'a [u8]>, AllocError> {
    let Some(source) = source_of(sources, file_word(file)) else {
        return Ok(None);
    };
    let name = name_at(source.text, at, false);
    let mut nearest = None;
    if let Some(domain) = sources.domain {
        nearest = nearest_in(alloc, name, nearest, domain.text)?;
    }
    if file == PlanningFile::Problem {
        nearest = nearest_in(alloc, name, nearest, source.text)?;
    }
    Ok(nearest.map(|nearest| nearest.name))
}

/// Returns the declared name that is nearest to the one that F12 is about; `None` if none is near, and for other
/// faults.
fn nearest_of<'a>(
    alloc: Global,
    fault: &Fault,
    sources: &Sources<'a>,
) -> Result<Option<&'a [u8]>, AllocError> {
    match fault {
        Fault::Task(
            PddlFault::Section(
                file,
                TextFault {
                    kind: FaultKind::UnknownName,
                    at,
                },
            ),
            _,
        ) => nearest_at(alloc, sources, *file, *at),
        _ => Ok(None),
    }
}

/// Returns the explanation of a fault: its line and column, what is wrong there, and that line. Returns `None` if the
/// fault is at no byte and in no line of a text, or the text was not read.
///
/// Takes time linear in the texts, and copies only what is shown.
#[tactic(auto, using(crate::proofs::Explained::explaining))]
pub fn explanation(
    alloc: Global,
    fault: &Fault,
    sources: &Sources<'_>,
) -> Result<Option<String>, AllocError>
    ensures { IfOk result (λ e. IsExplanation fault.now (files_of sources.now) (option_map string_bytes e)) }
{
    let Some((file, spot)) = spot_of(fault) else {
        return Ok(None);
    };
    let Some(source) = source_of(sources, file) else {
        return Ok(None);
    };
    let sentence = sentence_of(alloc, fault, source.text)?;
    let nearest = nearest_of(alloc, fault, sources)?;
    let text = at_spot(alloc, source, spot, sentence.as_str(), nearest)?;
    Ok(Some(text))
}

/// Returns the refusal with this fault, and with its explanation if that is requested. If there is no memory for the
/// explanation, it is the refusal for `OutOfMemory`, as `report` reports if there is none for the fault's line.
#[tactic(auto, using(crate::proofs::Explained::choosing))]
pub fn refusal_with(alloc: Global, fault: Fault, explains: bool, sources: &Sources<'_>) -> Refusal
    ensures fault { (result.fault ≡ fault) ⊎ (result.fault ≡ OutOfMemory) }
    ensures explained { IsExplained explains (files_of sources.now) result.fault (option_map string_bytes result.explanation) }
{
    if !explains {
        return Refusal::from(fault);
    }
    match explanation(alloc, &fault, sources) {
        Ok(explanation) => Refusal { fault, explanation },
        Err(_) => Refusal::from(Fault::OutOfMemory),
    }
}
