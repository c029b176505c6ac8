//! Writing mutex groups: the atoms of a variable, if there are at least two.
#![tactic(auto, using(crate::proofs::Appends::appending))]

ghost use Rattle.std.specs.Prelude.{◌≡◌, ◌++◌, ◌∷◌, OnOk, count_by, decimal, length, map, nat_le};
ghost use Rattle.std.specs.List.{flat_map, range_with_len};
ghost use Rattle.sasfile_writer.specs.Written.{text_of_lines, pair_line, group_lines, groups_of};

use crate::lines::{push_line, push_number_line, push_pair_line};
use std::alloc::AllocError;

/// Appends a line for each of the first `size` values of a variable.
fn push_atoms(out: &mut Vec<u8>, variable: usize, size: usize) -> Result<(), AllocError>
    ensures { OnOk result (out.new.items ≡ out.old.items ++ text_of_lines (map (pair_line variable) (range_with_len 0 size))) }
{
    for value in 0..size {
        push_pair_line(out, variable as u64, value as u64)?;
    }
    Ok(())
}

fn push_group(out: &mut Vec<u8>, variable: usize, size: usize) -> Result<(), AllocError>
    ensures { OnOk result (out.new.items ≡ out.old.items ++ text_of_lines (group_lines variable size)) }
{
    push_line(out, b"begin_mutex_group")?;
    push_number_line(out, size as u64)?;
    push_atoms(out, variable, size)?;
    push_line(out, b"end_mutex_group")
}

/// Returns whether a variable with this number of atoms is written as a mutex group.
fn are_several(size: usize) -> bool
    ensures { result ≡ nat_le 2 size }
{
    size >= 2
}

fn push_groups(out: &mut Vec<u8>, sizes: &[usize]) -> Result<(), AllocError>
    ensures { OnOk result (out.new.items ≡ out.old.items
        ++ text_of_lines (flat_map (λ e. group_lines e.0 e.1) (groups_of sizes.now))) }
{
    for (variable, size) in sizes.iter().enumerate() {
        if are_several(*size) {
            push_group(out, variable, *size)?;
        }
    }
    Ok(())
}

/// Returns the number of variables that have at least two atoms.
fn group_count(sizes: &[usize]) -> usize
    ensures { result ≡ count_by (nat_le 2) sizes.now }
{
    sizes.iter().filter(|size| are_several(**size)).count()
}

/// Appends the number of mutex groups, and each of them.
pub(crate) fn push_group_list(out: &mut Vec<u8>, sizes: &[usize]) -> Result<(), AllocError>
    ensures { OnOk result (out.new.items ≡ out.old.items
        ++ text_of_lines (decimal (length (groups_of sizes.now))
        ∷ flat_map (λ e. group_lines e.0 e.1) (groups_of sizes.now))) }
{
    push_number_line(out, group_count(sizes) as u64)?;
    push_groups(out, sizes)
}
