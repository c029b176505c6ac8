//! Numbers as words spell them.

ghost use Rattle.std.specs.Prelude.{◌≡◌, option_map};
ghost use Rattle.sasfile_reader.specs.Reading as reading;
ghost use Rattle.sasfile_reader.specs.Lines.{is_digit, minus};

/// A whole number. A magnitude greater than 2^64 - 1 is stored as 2^64 - 1, which is past every limit and past the
/// number of lines of every text.
#[derive(Clone, Copy, Debug, PartialEq, Eq)]
pub enum Number {
    Natural(u64),
    /// Minus this number, which is not 0.
    Negative(u64),
}

fn is_digit(byte: u8) -> bool
    ensures { result ≡ is_digit byte }
{
    b'0' <= byte && byte <= b'9'
}

/// Returns the number that one or more digits spell, capped at 2^64 - 1, or `None` if the bytes are not digits.
fn digits_of(digits: &[u8]) -> Option<u64>
    ensures { result ≡ reading.digits digits.now }
{
    if digits.is_empty() {
        return None;
    }
    let mut value = 0u64;
    for digit in digits {
        if !is_digit(*digit) {
            return None;
        }
        value = value
            .saturating_mul(10)
            .saturating_add(u64::from(*digit - b'0'));
    }
    Some(value)
}

/// Returns minus the number.
fn negated(value: u64) -> Number
    ensures { result ≡ minus value }
{
    if value == 0 {
        Number::Natural(0)
    } else {
        Number::Negative(value)
    }
}

/// Returns the number that a word spells, or `None` if it spells none.
#[tactic(auto, unfolding(crate::specs::Reading::number))]
pub(crate) fn number_of(word: &[u8]) -> Option<Number>
    ensures { result ≡ reading.number word.now }
{
    match word {
        [] => None,
        [b'-', digits @ ..] => match digits_of(digits) {
            Some(value) => Some(negated(value)),
            None => None,
        },
        [_, ..] => match digits_of(word) {
            Some(value) => Some(Number::Natural(value)),
            None => None,
        },
    }
}
