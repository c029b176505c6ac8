//! Names of values and operators.

ghost use Rattle.std.specs.Prelude.{◌≡◌, ◌<◌, ◌++◌, All, [], length, map, slice_index_or, string_bytes, codes, IfOk, OnOk};
ghost use Rattle.std.specs.List.{flat_map};
ghost use Rattle.fdr.specs.Tasks.{names_in};
ghost use Rattle.mutex_index.specs.Places.{atoms_at};
ghost use Rattle.translate_theory.specs.Names.{joined, object_name, atom_text, atom_names, none_name, action_name};
ghost use Rattle.translate_theory.specs.Translations.{value_names_of};
ghost use Rattle.translate_theory.specs.Variables.{variable_at, variables_at};

use ground_atoms::Atoms;
use pddl_task::{GroundAction, GroundAtom, Vocabulary};
use std::alloc::{AllocError, Global};
use translate_theory::ListedVariable;

/// Appends the name of each object to the text, after `before`.
fn push_each(
    text: &mut String,
    vocabulary: &Vocabulary,
    before: &str,
    objects: &[usize],
) -> Result<(), AllocError>
    ensures { OnOk result (string_bytes text.new ≡
        string_bytes text.old ++ flat_map (λ o. before.now ++ object_name vocabulary.now o) objects.now) }
{
    for object in objects {
        text.push_str(before)?;
        text.push_str(vocabulary.objects.name_or_empty(*object))?;
    }
    Ok(())
}

/// Appends the names of the objects to the text, with a comma and a blank between each two.
fn push_objects(
    text: &mut String,
    vocabulary: &Vocabulary,
    objects: &[usize],
) -> Result<(), AllocError>
    ensures { OnOk result (string_bytes text.new ≡
        string_bytes text.old ++ joined (codes ", ") (map (object_name vocabulary.now) objects.now)) }
{
    if let Some((first, others)) = objects.split_first() {
        text.push_str(vocabulary.objects.name_or_empty(*first))?;
        push_each(text, vocabulary, ", ", others)?;
    }
    Ok(())
}

/// Appends the name of the predicate to the text, with the names of the objects in parentheses.
fn push_atom(
    text: &mut String,
    vocabulary: &Vocabulary,
    atom: &GroundAtom,
) -> Result<(), AllocError>
    ensures { OnOk result (string_bytes text.new ≡ string_bytes text.old ++ atom_text vocabulary.now atom.now) }
{
    text.push_str(vocabulary.predicates.name_or_empty(atom.predicate))?;
    text.push_str("(")?;
    push_objects(text, vocabulary, &atom.objects)?;
    text.push_str(")")?;
    Ok(())
}

/// Returns `word` followed by the text of the atom.
fn atom_name(
    alloc: Global,
    word: &str,
    vocabulary: &Vocabulary,
    atom: &GroundAtom,
) -> Result<String, AllocError>
    ensures { IfOk result (λ text. string_bytes text ≡ word.now ++ atom_text vocabulary.now atom.now) }
{
    let mut text = String::from_str(alloc, word)?;
    push_atom(&mut text, vocabulary, atom)?;
    Ok(text)
}

/// Returns the names of the values of the atoms at these indices.
fn place_names(
    alloc: Global,
    vocabulary: &Vocabulary,
    atoms: &Atoms,
    places: &[usize],
) -> Result<Vec<String>, AllocError>
    ensures { IfOk result (λ texts. map string_bytes texts.items ≡ atom_names vocabulary.now (atoms_at atoms.now places.now)) }
{
    let mut texts = Vec::new(alloc);
    for place in places {
        if let Some(atom) = atoms.get(*place) {
            texts.push(atom_name(alloc, "Atom ", vocabulary, atom)?)?;
        }
    }
    Ok(texts)
}

/// Returns the name of the value at which none of the atoms at these indices is true.
fn none_name(
    alloc: Global,
    vocabulary: &Vocabulary,
    atoms: &Atoms,
    places: &[usize],
) -> Result<String, AllocError>
    requires { All (λ p. p < length atoms.now) places.now }
    ensures { IfOk result (λ text. string_bytes text ≡ none_name vocabulary.now (atoms_at atoms.now places.now)) }
{
    if places.len() != 1 {
        return String::from_str(alloc, "<none of those>");
    }
    atom_name(
        alloc,
        "NegatedAtom ",
        vocabulary,
        &atoms.as_slice()[places[0]],
    )
}

/// Returns the names of the values of a variable.
fn variable_names(
    alloc: Global,
    vocabulary: &Vocabulary,
    atoms: &Atoms,
    variable: &ListedVariable,
) -> Result<Vec<String>, AllocError>
    requires { All (λ p. p < length atoms.now) variable.now.places }
    ensures { IfOk result (λ texts. map string_bytes texts.items
        ≡ value_names_of vocabulary.now (variable_at atoms.now variable.now)) }
{
    let mut texts = place_names(alloc, vocabulary, atoms, &variable.places)?;
    if variable.has_none {
        texts.push(none_name(alloc, vocabulary, atoms, &variable.places)?)?;
    }
    Ok(texts)
}

/// Returns for each variable the names of its values, in their order: those of its atoms, and that of the none value if
/// it has one (Helmert 2006).
pub fn value_names(
    alloc: Global,
    vocabulary: &Vocabulary,
    atoms: &Atoms,
    variables: &[ListedVariable],
) -> Result<Vec<Vec<String>>, AllocError>
    requires { All (λ v. All (λ p. p < length atoms.now) v.places) variables.now }
    ensures { IfOk result (λ names. names_in names.items
        ≡ map (value_names_of vocabulary.now) (variables_at atoms.now variables.now)) }
{
    let mut names = Vec::new(alloc);
    for variable in variables {
        names.push(variable_names(alloc, vocabulary, atoms, variable)?)?;
    }
    Ok(names)
}

/// Returns the name of the operator of an action: the name of the schema, followed by the name of each object after a
/// blank.
pub fn action_name(
    alloc: Global,
    vocabulary: &Vocabulary,
    action: &GroundAction,
) -> Result<String, AllocError>
    ensures { IfOk result (λ text. string_bytes text ≡ action_name vocabulary.now action.now) }
{
    let mut text = String::from_str(alloc, vocabulary.schemas.name_or_empty(action.schema))?;
    push_each(&mut text, vocabulary, " ", &action.objects)?;
    Ok(text)
}
