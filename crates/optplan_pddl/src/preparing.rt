//! Preparation of a planning task for a search, from its texts.

ghost use Rattle.std.specs.Prelude.{◌≡◌, ℕ, List, IfOk, IfErr};
ghost use Rattle.std.specs.Option.{option_map};
ghost use Rattle.std.specs.Bool.{then_some};
ghost use Rattle.cert_value.specs.Views.{kind_of};
ghost use Rattle.pddl_task.specs.Planning.{IsPlanningTask};
ghost use Rattle.pddl.specs.Texts.{SpellTask};
ghost use Rattle.translate.specs.Translated.{IsReadTask, IsTranslation};
ghost use Rattle.optplan_pddl.specs.Kinds.{translation_kind};
ghost use Rattle.optplan_pddl.specs.Prepared.{IsPrepared};
ghost use Rattle.optplan_pddl.specs.Answers.{IsPrepareRefusal};

use crate::fault::PrepareFault;
use crate::kind::translation_kind;
use cert_value::CertificateKind;
use pddl::read_task;
use pddl_task::Task;
use std::alloc::{AllocError, Global};
use translate::{Translated, translate};

/// A planning task that was read from its texts and translated: it can be searched. It has the kind of the certificate
/// to make, if one is made.
#[derive(Drop)]
pub struct Prepared {
    pub(crate) translated: Translated,
    pub(crate) wanted: Option<CertificateKind>,
}

/// Returns the kind of certificates for a translated task, if a certificate is wanted.
fn wanted_kind(
    alloc: Global,
    task: &Task,
    translated: &Translated,
    certificate: bool,
) -> Result<Option<CertificateKind>, AllocError>
    requires { IsTranslation task.now translated.now }
    ensures { IfOk result (λ wanted. option_map kind_of wanted ≡ then_some certificate (translation_kind task.now translated.now)) }
{
    if certificate {
        Ok(Some(translation_kind(alloc, task, translated)?))
    } else {
        Ok(None)
    }
}

/// Returns the task's translation, with the kind of certificates for it if a certificate is wanted. Fails if the task
/// or its translation exceeds a limit, or if allocation fails.
fn prepare_task(alloc: Global, task: &Task, certificate: bool) -> Result<Prepared, PrepareFault>
    requires read { IsReadTask task.now }
    requires well { IsPlanningTask task.now }
    ensures prepared { (domain problem : List ℕ) → SpellTask domain problem task.now → IfOk result (IsPrepared certificate domain problem) }
    ensures refused { (domain problem : List ℕ) → SpellTask domain problem task.now → IfErr result (IsPrepareRefusal domain problem) }
{
    let translated = translate(alloc, task)?;
    let wanted = wanted_kind(alloc, task, &translated, certificate)?;
    Ok(Prepared { translated, wanted })
}

/// Returns the translation of the task that the texts spell, with the kind of certificates for it if a certificate is
/// wanted. Fails with the first fault of the texts, if the task or its translation exceeds a limit, or if allocation
/// fails.
pub fn prepare(
    alloc: Global,
    domain: &[u8],
    problem: &[u8],
    certificate: bool,
) -> Result<Prepared, PrepareFault>
    ensures prepared { IfOk result (IsPrepared certificate domain.now problem.now) }
    ensures refused { IfErr result (IsPrepareRefusal domain.now problem.now) }
{
    let task = read_task(alloc, domain, problem)?;
    prepare_task(alloc, &task, certificate)
}
