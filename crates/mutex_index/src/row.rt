//! Rows of the indices of atoms.

ghost use Rattle.std.specs.Prelude.{◌≡◌, ◌++◌, [], position, not, if◌then◌else◌, IfOk, OnOk};
ghost use Rattle.std.specs.List.{cons_option};
ghost use Rattle.pddl_task.specs.Atoms.{same_atom, contains};
ghost use Rattle.mutex_index.specs.Places.{places_of, literal_places, removed_places};

use ground_atoms::Atoms;
use index_rows::Row;
use pddl_task::{GroundAtom, GroundLiteral};
use std::alloc::{AllocError, Global};

/// Appends the number, if there is one.
fn push_some(row: &mut Row, number: Option<usize>) -> Result<(), AllocError>
    ensures { OnOk result (row.new ≡ row.old ++ cons_option number []) }
{
    if let Some(number) = number {
        row.push(number)?;
    }
    Ok(())
}

/// Returns the indices of those atoms that are in the list.
pub(crate) fn row_of_atoms(
    alloc: Global,
    atoms: &Atoms,
    more: &[GroundAtom],
) -> Result<Row, AllocError>
    ensures { IfOk result (λ row. row ≡ places_of atoms.now more.now) }
{
    let mut row = Row::new(alloc);
    for atom in more {
        push_some(&mut row, atoms.place_of(atom))?;
    }
    Ok(row)
}

/// Returns the indices of the atoms of the literals with this sign.
pub(crate) fn row_of_literals(
    alloc: Global,
    atoms: &Atoms,
    sign: bool,
    literals: &[GroundLiteral],
) -> Result<Row, AllocError>
    ensures { IfOk result (λ row. row ≡ literal_places atoms.now sign literals.now) }
{
    let mut row = Row::new(alloc);
    for literal in literals {
        push_some(&mut row, place_of_literal(atoms, sign, literal))?;
    }
    Ok(row)
}

/// Returns the indices of those deleted atoms that are not added too.
pub(crate) fn row_of_removed(
    alloc: Global,
    atoms: &Atoms,
    adds: &[GroundAtom],
    deletes: &[GroundAtom],
) -> Result<Row, AllocError>
    ensures { IfOk result (λ row. row ≡ removed_places atoms.now adds.now deletes.now) }
{
    let mut row = Row::new(alloc);
    for atom in deletes {
        push_some(&mut row, place_of_removed(atoms, adds, atom))?;
    }
    Ok(row)
}

/// Returns the index of the literal's atom, if the literal has this sign and the atom is in the list.
fn place_of_literal(atoms: &Atoms, sign: bool, literal: &GroundLiteral) -> Option<usize>
    ensures { result ≡ (if (if literal.now.positive then sign else not sign)
        then position (same_atom literal.now.atom) atoms.now else None) }
{
    if literal.positive == sign {
        atoms.place_of(&literal.atom)
    } else {
        None
    }
}

fn is_among(atoms: &[GroundAtom], atom: &GroundAtom) -> bool
    ensures { result ≡ contains atoms.now atom.now }
{
    atoms.iter().any(|other| atom == other)
}

/// Returns the index of a deleted atom, if it is in the list and is not added too.
fn place_of_removed(atoms: &Atoms, adds: &[GroundAtom], atom: &GroundAtom) -> Option<usize>
    ensures { result ≡ (if contains adds.now atom.now then None else position (same_atom atom.now) atoms.now) }
{
    if is_among(adds, atom) {
        None
    } else {
        atoms.place_of(atom)
    }
}
