//! Sentences with a name in them.

ghost use Rattle.std.specs.Prelude.{IfOk, OnOk, string_bytes};
ghost use Rattle.optplan_explain.specs.Places.{IsInLine};

use crate::around::Role;
use crate::shown::push_shown;
use std::alloc::{AllocError, Global};

/// At most this many bytes of a name are quoted.
const MAX_NAME: usize = 60;

/// Returns a sentence without a name.
pub(crate) fn plain(alloc: Global, words: &str) -> Result<String, AllocError>
    requires { IsInLine words.now }
    ensures { IfOk result (λ sentence. IsInLine (string_bytes sentence)) }
{
    String::from_str(alloc, words)
}

/// Appends words to a sentence.
#[tactic(auto, using(crate::proofs::InLine::joined))]
pub(crate) fn append(sentence: &mut String, words: &str) -> Result<(), AllocError>
    requires so_far { IsInLine (string_bytes sentence.old) }
    requires words { IsInLine words.now }
    ensures { OnOk result (IsInLine (string_bytes sentence.new)) }
{
    sentence.push_str(words)
}

/// Appends the first 60 bytes of a name to a sentence.
#[tactic(auto, using(crate::proofs::InLine::joined_shown))]
fn append_name(sentence: &mut String, name: &[u8]) -> Result<(), AllocError>
    requires { IsInLine (string_bytes sentence.old) }
    ensures { OnOk result (IsInLine (string_bytes sentence.new)) }
{
    push_shown(sentence, &name[..name.len().min(MAX_NAME)])
}

/// Returns a sentence with a name in quotes, which is cut after 60 bytes.
pub(crate) fn quoted(
    alloc: Global,
    before: &str,
    name: &[u8],
    after: &str,
) -> Result<String, AllocError>
    requires before { IsInLine before.now }
    requires after { IsInLine after.now }
    ensures { IfOk result (λ sentence. IsInLine (string_bytes sentence)) }
{
    let mut sentence = plain(alloc, before)?;
    append(&mut sentence, "`")?;
    append_name(&mut sentence, name)?;
    append(
        &mut sentence,
        if name.len() > MAX_NAME { "..`" } else { "`" },
    )?;
    append(&mut sentence, after)?;
    Ok(sentence)
}

/// Returns what precedes a name that is not declared.
pub(crate) fn before_name(role: Role) -> &'static str
    ensures { IsInLine result.now }
{
    match role {
        Role::Variable => "the variable ",
        Role::Type => "the type ",
        Role::Function => "the function ",
        Role::Predicate => "the predicate ",
        Role::Object => "the object ",
    }
}
