//! The lines of a text.

ghost use Rattle.std.specs.Prelude.{◌+◌, ◌<◌, ◌^◌, length};

use crate::fault::SasFault;
use crate::pieces::{first_piece, trimmed};

/// The lines of a text that remain to be read.
#[derive(Clone, Copy)]
pub(crate) struct Lines<'a> {
    /// The number of the next line.
    pub number: usize,
    /// The bytes from that line to the end of the text.
    pub rest: &'a [u8],
    ghost from_one: { 0 < number },
    ghost room: { number + length rest.now < 2 ^ 64 },
}

impl<'a> Lines<'a> {
    ghost use Rattle.std.specs.Prelude.{◌≡◌, IfOk, IfErr};
    ghost use Rattle.sasfile_reader.specs.Lines as spec;
    ghost use Rattle.sasfile_reader.specs.Reading.{Gives, line_at};
    ghost use Rattle.sasfile_reader.specs.Remains.{remaining};

    /// Returns all lines of a text.
    pub fn new(text: &'a [u8]) -> Lines<'a>
        ensures { remaining result ≡ record { number = 1; lines = spec.lines text.now } }
    {
        Lines {
            number: 1,
            rest: text,
        }
    }

    /// Returns the next line, without the blanks and carriage returns at its end, and the lines after it. Fails with
    /// `Truncated` if no line remains.
    pub fn first(self) -> Result<(&'a [u8], Lines<'a>), SasFault>
        ensures next { IfOk result (λ x. x.1.number ≡ self.entry.number + 1) }
        ensures shorter { IfOk result (λ x. length x.1.rest.now < length self.entry.rest.now) }
        ensures none { IfErr result (λ e. e ≡ SasFault.Truncated) }
        ensures line { Gives (λ x. (x.0.now, remaining x.1)) result (line_at (remaining self.entry)) }
    {
        if self.rest.is_empty() {
            return Err(SasFault::Truncated);
        }
        let (line, rest) = first_piece(self.rest, b'\n');
        Ok((
            trimmed(line),
            Lines {
                number: self.number + 1,
                rest,
            },
        ))
    }
}
