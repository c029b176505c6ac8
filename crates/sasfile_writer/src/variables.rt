//! Writing variables, with the names of their values.
#![tactic(auto, using(crate::proofs::Appends::appending))]

ghost use Rattle.std.specs.Prelude.{◌≡◌, ◌++◌, ◌∷◌, OnOk, decimal, length, map};
ghost use Rattle.std.specs.List.{flat_map, enumerate_from};
ghost use Rattle.std.specs.String.{string_bytes};
ghost use Rattle.fdr.specs.Tasks.{names_in};
ghost use Rattle.sasfile_writer.specs.Written.{text_of_lines, variable_lines};

use crate::lines::{push_line, push_number_line};
use std::alloc::AllocError;

/// Appends a line for each name.
fn push_names(out: &mut Vec<u8>, names: &[String]) -> Result<(), AllocError>
    ensures { OnOk result (out.new.items ≡ out.old.items ++ text_of_lines (map string_bytes names.now)) }
{
    for name in names {
        push_line(out, name.as_bytes())?;
    }
    Ok(())
}

/// Appends a variable with the axiom layer -1, whose name is `var` and its number.
fn push_variable(out: &mut Vec<u8>, number: usize, names: &[String]) -> Result<(), AllocError>
    ensures { OnOk result (out.new.items ≡ out.old.items
        ++ text_of_lines (variable_lines number (map string_bytes names.now))) }
{
    out.extend_from_slice(b"begin_variable\nvar")?;
    push_number_line(out, number as u64)?;
    push_line(out, b"-1")?;
    push_number_line(out, names.len() as u64)?;
    push_names(out, names)?;
    push_line(out, b"end_variable")
}

fn push_variables(out: &mut Vec<u8>, value_names: &[Vec<String>]) -> Result<(), AllocError>
    ensures { OnOk result (out.new.items ≡ out.old.items
        ++ text_of_lines (flat_map (λ e. variable_lines e.0 e.1) (enumerate_from 0 (names_in value_names.now)))) }
{
    for (number, names) in value_names.iter().enumerate() {
        push_variable(out, number, names)?;
    }
    Ok(())
}

/// Appends the number of variables, and each of them.
pub(crate) fn push_variable_list(
    out: &mut Vec<u8>,
    value_names: &[Vec<String>],
) -> Result<(), AllocError>
    ensures { OnOk result (out.new.items ≡ out.old.items
        ++ text_of_lines (decimal (length (names_in value_names.now))
        ∷ flat_map (λ e. variable_lines e.0 e.1) (enumerate_from 0 (names_in value_names.now)))) }
{
    push_number_line(out, value_names.len() as u64)?;
    push_variables(out, value_names)
}
