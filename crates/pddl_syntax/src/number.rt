//! Words that are read as numbers.

ghost use Rattle.std.specs.Prelude.{◌≡◌, ◌==◌, ◌≤◌};
ghost use Rattle.std.specs.List.{list_all};
ghost use Rattle.pddl_syntax.specs.Numbers.{is_digit, in_range, after_point, after_digits, unsigned, number_of};

/// The greatest number of a text, 2^31 - 1.
const MAX_NUMBER: u64 = 2_147_483_647;

/// The meaning of a word that is read as a number.
#[derive(Clone, Copy, Debug, PartialEq, Eq)]
pub enum Number {
    /// A whole number from 0 to 2,147,483,647. It may be written with a point and zeros.
    Whole(u64),
    /// A number without a sign whose digits after the point are not all zeros.
    Fraction,
    /// A whole number above 2,147,483,647, or any whole number with a minus sign.
    OutOfRange,
    /// Any other word, including a fraction with a minus sign.
    NoNumber,
}

fn in_range(n: u64) -> Number
    ensures { result ≡ in_range n }
{
    if n <= MAX_NUMBER {
        Number::Whole(n)
    } else {
        Number::OutOfRange
    }
}

fn are_zeros(bytes: &[u8]) -> bool
    ensures { result ≡ list_all (λ b. b == 48) bytes.now }
{
    bytes.iter().all(|b| *b == b'0')
}

fn is_digit(b: u8) -> bool
    ensures { result ≡ is_digit b }
{
    b >= b'0' && b <= b'9'
}

fn are_digits(bytes: &[u8]) -> bool
    ensures { result ≡ list_all is_digit bytes.now }
{
    bytes.iter().all(|b| is_digit(*b))
}

fn after_point(n: u64, bytes: &[u8]) -> Number
    ensures { result ≡ after_point n bytes.now }
{
    match bytes {
        [] => Number::NoNumber,
        _ if are_zeros(bytes) => in_range(n),
        _ if are_digits(bytes) => Number::Fraction,
        _ => Number::NoNumber,
    }
}

fn after_digits(digits: u64, bytes: &[u8]) -> Number
    requires { digits ≤ 9 }
    ensures { result ≡ after_digits digits bytes.now }
{
    let mut n = digits;
    for (i, b) in bytes.iter().enumerate() {
        let b = *b;
        if is_digit(b) {
            // All numbers above the limit have the same result, so no further digit is added.
            if n <= MAX_NUMBER {
                n = n * 10 + u64::from(b - b'0');
            }
        } else if b == b'.' {
            return after_point(n, &bytes[i + 1..]);
        } else {
            return Number::NoNumber;
        }
    }
    in_range(n)
}

fn unsigned(bytes: &[u8]) -> Number
    ensures { result ≡ unsigned bytes.now }
{
    match bytes {
        [b @ b'0'..=b'9', rest @ ..] => after_digits(u64::from(*b - b'0'), rest),
        _ => Number::NoNumber,
    }
}

/// Returns the meaning of a word that is read as a number. Takes time linear in its length.
pub fn number_of(word: &str) -> Number
    ensures { result ≡ number_of word.now }
{
    match word.as_bytes() {
        [b'-', rest @ ..] => match unsigned(rest) {
            Number::Whole(_) | Number::OutOfRange => Number::OutOfRange,
            Number::Fraction | Number::NoNumber => Number::NoNumber,
        },
        bytes => unsigned(bytes),
    }
}
