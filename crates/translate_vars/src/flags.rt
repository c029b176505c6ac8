//! Properties of listed atoms, by their indices.

ghost use Rattle.std.specs.Prelude.{◌≡◌, ◌==◌, ◌||◌, ℕ, ◌<◌, length, IfOk};
ghost use Rattle.pddl_task.specs.Atoms.{Atom, contains, wants};
ghost use Rattle.mutex_index.specs.Groups.{is_constant, is_excluded};
ghost use Rattle.index_rows.specs.Numbers.{has};
ghost use Rattle.translate_vars.specs.Flags.{flag_at, Tell};

use ground_atoms::Atoms;
use mutex::ActionIndex;
use pddl_task::GroundLiteral;
use std::alloc::{AllocError, Global};

/// For each listed atom, by its index: whether it is constant, whether its negation is a precondition or a goal, and
/// whether it is a goal.
#[derive(Drop)]
pub(crate) struct AtomFlags {
    pub(crate) constant: Vec<bool>,
    pub(crate) excluded: Vec<bool>,
    pub(crate) goal: Vec<bool>,
}

impl AtomFlags {
    ghost use Rattle.translate_vars.specs.Flags.{AreFlags};

    pub(crate) fn new(alloc: Global, index: &ActionIndex) -> Result<AtomFlags, AllocError>
        ensures { IfOk result (λ flags. AreFlags index.now flags) }
    {
        Ok(AtomFlags {
            constant: constant_flags(alloc, index)?,
            excluded: excluded_flags(alloc, index)?,
            goal: goal_flags(alloc, index.atoms(), &index.task().goal)?,
        })
    }
}

/// Returns the flag at index `place`: false past the end.
pub(crate) fn flag(flags: &[bool], place: usize) -> bool
    ensures { result ≡ flag_at flags.now place }
{
    flags.get(place).copied().unwrap_or(false)
}

/// Sets the flag at index `place`, if there is one.
fn mark_one(flags: &mut [bool], place: usize)
    ensures { (k : ℕ) → k < length flags.old → flag_at flags.new k ≡ (flag_at flags.old k || place == k) }
{
    if place < flags.len() {
        flags[place] = true;
    }
}

/// Sets the flags at the indices `places`.
pub(crate) fn mark(flags: &mut [bool], places: &[usize])
    ensures { (k : ℕ) → k < length flags.old → flag_at flags.new k ≡ (flag_at flags.old k || has places.now k) }
{
    for place in places {
        mark_one(flags, *place);
    }
}

fn constant_flags(alloc: Global, index: &ActionIndex) -> Result<Vec<bool>, AllocError>
    ensures { IfOk result (λ flags. Tell index.now.atoms (is_constant index.now.task index.now.actions) flags.items) }
{
    let mut flags = Vec::new(alloc);
    for place in 0..index.atoms().len() {
        flags.push(index.is_constant(place))?;
    }
    Ok(flags)
}

fn excluded_flags(alloc: Global, index: &ActionIndex) -> Result<Vec<bool>, AllocError>
    ensures { IfOk result (λ flags. Tell index.now.atoms (is_excluded index.now.task index.now.actions) flags.items) }
{
    let mut flags = Vec::new(alloc);
    for place in 0..index.atoms().len() {
        flags.push(index.is_excluded(place))?;
    }
    Ok(flags)
}

/// Returns the atoms of the positive literals.
fn wanted_atoms(alloc: Global, literals: &[GroundLiteral]) -> Result<Atoms, AllocError>
    ensures { IfOk result (λ atoms. (p : Atom) → contains atoms p ≡ wants literals.now p) }
{
    let mut atoms = Atoms::new(alloc);
    for literal in literals {
        if literal.positive {
            atoms.push(literal.atom.try_clone(alloc)?)?;
        }
    }
    Ok(atoms)
}

fn goal_flags(alloc: Global, atoms: &Atoms, goal: &[GroundLiteral]) -> Result<Vec<bool>, AllocError>
    ensures { IfOk result (λ flags. Tell atoms.now (wants goal.now) flags.items) }
{
    let goals = wanted_atoms(alloc, goal)?;
    let mut flags = Vec::new(alloc);
    for atom in atoms.as_slice() {
        flags.push(goals.contains(atom))?;
    }
    Ok(flags)
}
