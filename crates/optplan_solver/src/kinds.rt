//! Copies of the kind of a certificate.

ghost use Rattle.std.specs.Prelude.{◌≡◌, map, IfOk};
ghost use Rattle.std.specs.Option.{option_map};
ghost use Rattle.cert_value.specs.Views.{variable_of, kind_of};
ghost use Rattle.optplan_search.specs.Findings.{plain};

use cert_value::{AtomParts, AtomVariable, CertificateKind};
use std::alloc::{AllocError, Global};

/// Returns a copy of the variables.
fn copied_variables(
    alloc: Global,
    variables: &[AtomVariable],
) -> Result<Vec<AtomVariable>, AllocError>
    ensures { IfOk result (λ copies. map variable_of copies.items ≡ map variable_of variables.now) }
{
    let mut copies = Vec::with_capacity(alloc, variables.len())?;
    for variable in variables {
        copies.push(AtomVariable {
            has_none_value: variable.has_none_value,
            atoms: Vec::from_slice(alloc, &variable.atoms)?,
        })?;
    }
    Ok(copies)
}

/// Returns a copy of the kind.
fn copied_kind(alloc: Global, kind: &CertificateKind) -> Result<CertificateKind, AllocError>
    ensures { IfOk result (λ copy. kind_of copy ≡ kind_of kind.now) }
{
    match kind {
        CertificateKind::Sas => Ok(CertificateKind::Sas),
        CertificateKind::Pddl(parts) => Ok(CertificateKind::Pddl(AtomParts {
            atoms: parts.atoms.clone()?,
            variables: copied_variables(alloc, &parts.variables)?,
        })),
    }
}

/// Returns a copy of the kind, if there is one.
pub(crate) fn copied_wanted(
    alloc: Global,
    wanted: &Option<CertificateKind>,
) -> Result<Option<CertificateKind>, AllocError>
    ensures { IfOk result (λ copy. option_map plain copy ≡ option_map plain wanted.now) }
{
    match wanted {
        Some(kind) => Ok(Some(copied_kind(alloc, kind)?)),
        None => Ok(None),
    }
}
