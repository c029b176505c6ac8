//! The kind of certificates for a translated planning task.

ghost use Rattle.std.specs.Prelude.{◌≡◌, ◌<◌, ◌^◌, [], map, slice_index_or, All, IfOk};
ghost use Rattle.pddl_names.specs.Names.{texts_of};
ghost use Rattle.translate.specs.Translated.{IsTranslation};
ghost use Rattle.cert_value.specs.Views.{atom_of, variable_of, kind_of};
ghost use Rattle.checker.specs.Naming.{words_of};
ghost use Rattle.optplan_pddl.specs.Kinds.{listing, translation_kind};

use cert_value::{AtomParts, AtomVariable, CertificateKind, short_numbers};
use pddl_task::{GroundAtom, Task, Vocabulary};
use std::alloc::{AllocError, Global};
use translate::{ListedVariable, Translated};

/// Returns the parts of an atom's name: its predicate's name, and the names of its objects.
fn words_of(alloc: Global, names: &Vocabulary, atom: &GroundAtom) -> Result<Vec<String>, AllocError>
    ensures { IfOk result (λ words. texts_of words.items ≡ words_of names.now atom.now) }
{
    let mut words = Vec::new(alloc);
    words.push(String::from_str(alloc, names.predicates.name_or_empty(atom.predicate))?)?;
    for object in atom.objects.as_slice() {
        words.push(String::from_str(alloc, names.objects.name_or_empty(*object))?)?;
    }
    Ok(words)
}

/// Returns the parts of each atom's name.
fn words_of_all(
    alloc: Global,
    names: &Vocabulary,
    atoms: &[GroundAtom],
) -> Result<Vec<Vec<String>>, AllocError>
    ensures { IfOk result (λ words. map atom_of words.items ≡ map (words_of names.now) atoms.now) }
{
    let mut words = Vec::new(alloc);
    for atom in atoms {
        words.push(words_of(alloc, names, atom)?)?;
    }
    Ok(words)
}

/// Returns the variables as they are stored in a certificate.
fn certificate_variables(
    alloc: Global,
    variables: &[ListedVariable],
) -> Result<Vec<AtomVariable>, AllocError>
    requires { All (λ v. All (λ p. p < 2 ^ 32) v.places) variables.now }
    ensures { IfOk result (λ kept. map variable_of kept.items ≡ map listing variables.now) }
{
    let mut kept = Vec::new(alloc);
    for variable in variables {
        kept.push(AtomVariable {
            has_none_value: variable.has_none,
            atoms: short_numbers(alloc, &variable.places)?,
        })?;
    }
    Ok(kept)
}

/// Returns the kind of certificates for a translated task: its atoms, by their names, and its variables.
pub fn translation_kind(
    alloc: Global,
    task: &Task,
    translated: &Translated,
) -> Result<CertificateKind, AllocError>
    requires { IsTranslation task.now translated.now }
    ensures { IfOk result (λ kind. kind_of kind ≡ translation_kind task.now translated.now) }
{
    let atoms = words_of_all(alloc, &task.vocabulary, translated.atoms().as_slice())?;
    let variables = certificate_variables(alloc, translated.variables())?;
    Ok(CertificateKind::Pddl(AtomParts { atoms, variables }))
}
