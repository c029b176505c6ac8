//! What an explanation consists of.

ghost use Rattle.std.specs.Prelude.{◌≡◌, ◌++◌, Some, IfOk, OnOk, map, option_map, string_bytes};
ghost use Rattle.optplan_explain.specs.Layouts.{heading, hint, IsByteExplanation, IsLineExplanation, IsExplanationAt};
ghost use Rattle.optplan_explain.specs.Places.{IsInLine};
ghost use Rattle.optplan_explain.specs.Shown.{printable};

use crate::place::{Place, place_of};
use crate::shown::{push_line, push_part, push_shown};
use crate::source::Source;
use crate::spot::Spot;
use std::alloc::{AllocError, Global};

/// Appends the line that states a name.
fn push_name(out: &mut String, name: &[u8]) -> Result<(), AllocError>
    ensures { OnOk result (string_bytes out.new ≡ string_bytes out.old ++ hint (Some (map printable name.now))) }
{
    out.push_str("nearest declared name: ")?;
    push_shown(out, name)?;
    out.push_str("\n")?;
    Ok(())
}

/// Appends the line that states the nearest declared name, if there is one.
#[tactic(auto, using(crate::proofs::Appends::appending))]
fn push_hint(out: &mut String, nearest: Option<&[u8]>) -> Result<(), AllocError>
    ensures { OnOk result (string_bytes out.new ≡ string_bytes out.old ++ hint (option_map (λ name. map printable name.now) nearest.entry)) }
{
    match nearest {
        Some(name) => push_name(out, name),
        None => Ok(()),
    }
}

/// Returns the first line of the explanation of a fault in this line and column.
#[tactic(auto, using(crate::proofs::Appends::appending), unfolding(crate::specs::Layouts::heading))]
fn heading(alloc: Global, path: &str, place: Place, sentence: &str) -> Result<String, AllocError>
    ensures { IfOk result (λ line. string_bytes line ≡ heading path.now place.line place.column sentence.now) }
{
    let Place { line, column } = place;
    let line = format!(in alloc; "{path}:{line}:{column}: {sentence}\n")?;
    Ok(line)
}

/// Returns the explanation of a fault at a byte offset.
fn at_byte(
    alloc: Global,
    source: Source<'_>,
    at: usize,
    sentence: &str,
    nearest: Option<&[u8]>,
) -> Result<String, AllocError>
    requires { IsInLine sentence.now }
    ensures { IfOk result (λ e. IsByteExplanation source.entry.path.now source.entry.text.now at (string_bytes e)) }
{
    let mut out = heading(alloc, source.path, place_of(source.text, at), sentence)?;
    push_part(&mut out, source.text, at)?;
    push_hint(&mut out, nearest)?;
    Ok(out)
}

/// Returns the explanation of a fault in a line, counted from 1.
fn at_line(
    alloc: Global,
    source: Source<'_>,
    line: usize,
    sentence: &str,
) -> Result<String, AllocError>
    requires { IsInLine sentence.now }
    ensures { IfOk result (λ e. IsLineExplanation source.entry.path.now source.entry.text.now line (string_bytes e)) }
{
    let Source { path, text } = source;
    let mut out = format!(in alloc; "{path}:{line}: {sentence}\n")?;
    push_line(&mut out, text, line)?;
    Ok(out)
}

/// Returns the explanation of a fault at a spot of a text.
pub(crate) fn at_spot(
    alloc: Global,
    source: Source<'_>,
    spot: Spot,
    sentence: &str,
    nearest: Option<&[u8]>,
) -> Result<String, AllocError>
    requires { IsInLine sentence.now }
    ensures { IfOk result (λ e. IsExplanationAt source.entry.path.now source.entry.text.now spot (string_bytes e)) }
{
    let end = source.text.len();
    match spot {
        Spot::Byte(at) => at_byte(alloc, source, at, sentence, nearest),
        Spot::End => at_byte(alloc, source, end, sentence, nearest),
        Spot::Line(line) => at_line(alloc, source, line, sentence),
        Spot::LastLine => {
            let line = place_of(source.text, end).line;
            at_line(alloc, source, line, sentence)
        }
    }
}
