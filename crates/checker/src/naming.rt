//! The atoms that a certificate lists by name.

ghost use Rattle.std.specs.Prelude.{◌≡◌, ◌++◌, ◌∷◌, [], map, slice_index_or, IfOk, OnOk, string_bytes};
ghost use Rattle.std.specs.List.{flat_map};
ghost use Rattle.pddl_names.specs.Names.{texts_of, number_of};
ghost use Rattle.cert_text.specs.Pieces.{joined};
ghost use Rattle.cert_value.specs.Views.{atom_of, variable_of};
ghost use Rattle.checker.specs.Naming.{named, listed, words_text, words_of};

use cert_value::AtomVariable;
use pddl_names::Names;
use pddl_task::{GroundAtom, Vocabulary};
use smallvec::SmallVec;
use std::alloc::{AllocError, Global};
use translate::ListedVariable;

/// Returns the numbers of the objects with these names. A name of no object gets the number after all of them.
fn object_numbers(
    alloc: Global,
    names: &Names,
    words: &[String],
) -> Result<SmallVec<usize, 4>, AllocError>
    ensures { IfOk result (λ numbers. numbers.items ≡ map (λ w. number_of names.now (string_bytes w)) words.now) }
{
    let mut numbers = SmallVec::new(alloc);
    for word in words {
        numbers.push(names.number_of(word.as_str()))?;
    }
    Ok(numbers)
}

/// Returns the atom with this predicate and these objects, given by their names.
#[tactic(auto, using(crate::proofs::Lists::map_map))]
fn named_by(
    alloc: Global,
    names: &Vocabulary,
    predicate: &str,
    objects: &[String],
) -> Result<GroundAtom, AllocError>
    ensures { IfOk result (λ p. p ≡ named names.now (predicate.now ∷ texts_of objects.now)) }
{
    let number = names.predicates.number_of(predicate);
    let objects = object_numbers(alloc, &names.objects, objects)?;
    Ok(GroundAtom::new(number, objects))
}

/// Returns the atom that the names denote: the predicate's, then those of its objects.
#[tactic(auto, using(crate::proofs::Lists::map_map))]
fn named_atom(alloc: Global, names: &Vocabulary, words: &[String]) -> Result<GroundAtom, AllocError>
    ensures { IfOk result (λ p. p ≡ named names.now (texts_of words.now)) }
{
    match words {
        [] => Ok(GroundAtom::new(names.predicates.len(), SmallVec::new(alloc))),
        [predicate, objects @ ..] => named_by(alloc, names, predicate.as_str(), objects),
    }
}

/// Returns the atoms that a certificate lists by names. Names that do not denote an atom result in one that the task
/// does not have.
pub(crate) fn named_atoms(
    alloc: Global,
    names: &Vocabulary,
    words: &[Vec<String>],
) -> Result<Vec<GroundAtom>, AllocError>
    ensures { IfOk result (λ atoms. atoms.items ≡ map (λ w. named names.now (atom_of w)) words.now) }
{
    let mut atoms = Vec::new(alloc);
    for words in words {
        atoms.push(named_atom(alloc, names, words)?)?;
    }
    Ok(atoms)
}

fn places_of(alloc: Global, numbers: &[u32]) -> Result<Vec<usize>, AllocError>
    ensures { IfOk result (λ places. places.items ≡ numbers.now) }
{
    let mut places = Vec::new(alloc);
    for number in numbers {
        places.push(*number as usize)?;
    }
    Ok(places)
}

/// Returns the variables of a certificate.
pub(crate) fn listed_variables(
    alloc: Global,
    variables: &[AtomVariable],
) -> Result<Vec<ListedVariable>, AllocError>
    ensures { IfOk result (λ vs. vs.items ≡ map (λ v. listed (variable_of v)) variables.now) }
{
    let mut listed = Vec::new(alloc);
    for variable in variables {
        listed.push(ListedVariable {
            places: places_of(alloc, &variable.atoms)?,
            has_none: variable.has_none_value,
        })?;
    }
    Ok(listed)
}

/// Appends names to a text, each after a blank.
fn push_words(text: &mut String, words: &[String]) -> Result<(), AllocError>
    ensures { OnOk result (string_bytes text.new ≡ string_bytes text.old ++ flat_map (λ w. 32 ∷ string_bytes w) words.now) }
{
    for word in words {
        text.push(' ')?;
        text.push_str(word.as_str())?;
    }
    Ok(())
}

/// Appends names to a text, with blanks between them.
#[tactic(auto, using(crate::proofs::Lists::appending))]
fn push_joined(text: &mut String, words: &[String]) -> Result<(), AllocError>
    ensures { OnOk result (string_bytes text.new ≡ string_bytes text.old ++ joined 32 (texts_of words.now)) }
{
    match words {
        [] => Ok(()),
        [first, others @ ..] => {
            text.push_str(first.as_str())?;
            push_words(text, others)
        }
    }
}

/// Returns names with blanks between them, in parentheses.
#[tactic(auto, using(crate::proofs::Lists::appending))]
pub(crate) fn words_text(alloc: Global, words: &[String]) -> Result<String, AllocError>
    ensures { IfOk result (λ text. string_bytes text ≡ words_text (texts_of words.now)) }
{
    let mut text = String::from_str(alloc, "(")?;
    push_joined(&mut text, words)?;
    text.push(')')?;
    Ok(text)
}

/// Appends the names of objects to a text, each after a blank.
fn push_objects(text: &mut String, names: &Names, objects: &[usize]) -> Result<(), AllocError>
    ensures { OnOk result (string_bytes text.new ≡ string_bytes text.old
        ++ flat_map (λ o. 32 ∷ slice_index_or names.now o []) objects.now) }
{
    for object in objects {
        text.push(' ')?;
        text.push_str(names.name_or_empty(*object))?;
    }
    Ok(())
}

/// Returns the names of an atom of the task, in the form of `words_text`.
#[tactic(auto, using(crate::proofs::Lists::appending))]
pub(crate) fn atom_text(
    alloc: Global,
    names: &Vocabulary,
    atom: &GroundAtom,
) -> Result<String, AllocError>
    ensures { IfOk result (λ text. string_bytes text ≡ words_text (words_of names.now atom.now)) }
{
    let mut text = String::from_str(alloc, "(")?;
    text.push_str(names.predicates.name_or_empty(atom.predicate))?;
    push_objects(&mut text, &names.objects, &atom.objects)?;
    text.push(')')?;
    Ok(text)
}
