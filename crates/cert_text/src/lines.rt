//! The lines of a text.

ghost use Rattle.std.specs.Prelude.{◌+◌, ◌<◌, ◌^◌, length};

use crate::fault::CertFault;
use crate::words::piece_length;

/// The lines of a text that remain to be read.
#[derive(Clone, Copy)]
pub(crate) struct Lines<'a> {
    /// The number of the next line.
    pub number: usize,
    /// The bytes from that line to the end of the text.
    pub rest: &'a [u8],
    ghost room: { number + length rest.now < 2 ^ 64 },
}

impl<'a> Lines<'a> {
    ghost use Rattle.std.specs.Prelude.{◌≡◌, ◌≤◌};
    ghost use Rattle.cert_text.specs.Pieces.{pieces};
    ghost use Rattle.cert_text.specs.Reading.{Gives, line_at, is_nothing};
    ghost use Rattle.cert_text.specs.Cursors.{remaining};

    /// Returns all lines of a text.
    pub fn new(text: &'a [u8]) -> Lines<'a>
        requires { length text.now ≤ 2 ^ 30 }
        ensures { remaining result ≡ record { number = 1; lines = pieces 10 text.now } }
    {
        Lines {
            number: 1,
            rest: text,
        }
    }

    /// Returns the next line without its line feed, and the lines after it. Fails with `Truncated` if no line feed
    /// remains.
    #[tactic(auto, unfolding(crate::specs::Reading::line_at))]
    pub fn first(self) -> Result<(&'a [u8], Lines<'a>), CertFault>
        ensures { Gives (λ x. (x.0.now, remaining x.1)) result (line_at (remaining self.entry)) }
    {
        let (line, behind) = self.rest.split_at(piece_length(self.rest, b'\n'));
        match behind {
            [] => Err(CertFault::Truncated),
            [_, rest @ ..] => Ok((
                line,
                Lines {
                    number: self.number + 1,
                    rest,
                },
            )),
        }
    }

    /// Returns whether no byte remains.
    pub fn is_empty(self) -> bool
        ensures { result ≡ is_nothing (pieces 10 self.entry.rest.now) }
    {
        self.rest.is_empty()
    }
}
