//! Writing lines, each with its line feed.
#![tactic(auto, using(crate::proofs::Appends::appending))]

ghost use Rattle.std.specs.Prelude.{◌≡◌, ◌++◌, ◌∷◌, [], OnOk, decimal};
ghost use Rattle.sasfile_writer.specs.Written.{text_of_lines, pair_line};

use itoa::Buffer;
use std::alloc::AllocError;

/// Appends a number in decimal.
pub(crate) fn push_number(out: &mut Vec<u8>, number: u64) -> Result<(), AllocError>
    ensures { OnOk result (out.new.items ≡ out.old.items ++ decimal number) }
{
    let mut buffer = Buffer::new();
    out.extend_from_slice(buffer.format(number).as_bytes())
}

/// Appends a line of these bytes.
pub(crate) fn push_line(out: &mut Vec<u8>, line: &[u8]) -> Result<(), AllocError>
    ensures { OnOk result (out.new.items ≡ out.old.items ++ text_of_lines (line.now ∷ [])) }
{
    out.extend_from_slice(line)?;
    out.push(b'\n')?;
    Ok(())
}

/// Appends a line of one number.
pub(crate) fn push_number_line(out: &mut Vec<u8>, number: u64) -> Result<(), AllocError>
    ensures { OnOk result (out.new.items ≡ out.old.items ++ text_of_lines (decimal number ∷ [])) }
{
    push_number(out, number)?;
    out.push(b'\n')?;
    Ok(())
}

/// Appends a line of two numbers.
pub(crate) fn push_pair_line(out: &mut Vec<u8>, first: u64, second: u64) -> Result<(), AllocError>
    ensures { OnOk result (out.new.items ≡ out.old.items ++ text_of_lines (pair_line first second ∷ [])) }
{
    push_number(out, first)?;
    out.push(b' ')?;
    push_number_line(out, second)
}
