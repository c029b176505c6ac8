//! Forms of lines.

ghost use Rattle.std.specs.Prelude.{◌≡◌, ◌^◌, ◌<◌, ◌≤◌, ◌+◌, option_map, min, IfOk};
ghost use Rattle.cert_text.specs.Pieces.{pieces};
ghost use Rattle.cert_text.specs.Reading.{Gives, number, agrees, has_width, counted_of, headed_of, sized_of, second_of, fixed_at, count_at};
ghost use Rattle.cert_text.specs.Cursors.{left, remaining, counted};

use crate::fault::CertFault;
use crate::lines::Lines;
use crate::numbers::{number_of, number_within};
use crate::words::Words;

/// The first word of a line, the count after it, and the words after the count.
#[derive(Clone, Copy)]
pub(crate) struct CountedLine<'a> {
    pub first: &'a [u8],
    pub count: &'a [u8],
    pub words: Words<'a>,
}

/// Reads a line that is exactly this text.
#[tactic(auto, unfolding(crate::specs::Reading::fixed_at))]
pub(crate) fn fixed_line<'a>(lines: Lines<'a>, text: &[u8]) -> Result<Lines<'a>, CertFault>
    ensures { Gives remaining result (fixed_at text.now (remaining lines.entry)) }
{
    let (line, rest) = lines.first()?;
    if line == text {
        Ok(rest)
    } else {
        Err(CertFault::Expected(lines.number))
    }
}

/// Returns the second word of line `number` of the text, which must consist of the keyword and one other word.
pub(crate) fn second_word<'a>(
    line: &'a [u8],
    keyword: &[u8],
    number: usize,
) -> Result<&'a [u8], CertFault>
    ensures { Gives (λ x. x.now) result (second_of number keyword.now (pieces 32 line.now)) }
{
    let Some((first, behind)) = Words::new(line).first() else {
        return Err(CertFault::Expected(number));
    };
    let Some((second, behind)) = behind.first() else {
        return Err(CertFault::Expected(number));
    };
    if behind.first().is_none() && first == keyword && !second.is_empty() {
        Ok(second)
    } else {
        Err(CertFault::Expected(number))
    }
}

/// Reads a line of the keyword and a number that is at least `least` and below `end`.
#[tactic(auto, unfolding(crate::specs::Reading::count_at))]
pub(crate) fn count_line<'a>(
    lines: Lines<'a>,
    keyword: &[u8],
    least: u64,
    end: u64,
) -> Result<(u64, Lines<'a>), CertFault>
    requires { end < 2 ^ 64 }
    ensures count { Gives (λ x. (x.0, remaining x.1)) result (count_at keyword.now least end (remaining lines.entry)) }
    ensures below { IfOk result (λ x. x.0 < end) }
{
    let (line, rest) = lines.first()?;
    let word = second_word(line, keyword, lines.number)?;
    match number_within(word, least, end) {
        Some(count) => Ok((count, rest)),
        None => Err(CertFault::Number(lines.number)),
    }
}

/// Returns whether the words after the first two are as many as the count states, or twice as many if `pairs` is set.
/// `words` is the number of words, or `None` if one of them is empty, which is refused. A count that is not a number is
/// accepted here.
fn count_agrees(pairs: bool, words: Option<usize>, count: &[u8]) -> bool
    ensures { result ≡ agrees pairs words (number count.now) }
{
    let Some(words) = words else {
        return false;
    };
    match number_of(count) {
        None => true,
        Some(count) if words < 2 => false,
        Some(count) => {
            let behind = words as u64 - 2;
            if pairs {
                behind % 2 == 0 && behind / 2 == count
            } else {
                behind == count
            }
        }
    }
}

/// Returns the parts of a line with a count, if it has as many words as the count states, or twice as many if `pairs`
/// is set. A count that is not a number is not compared.
pub(crate) fn counted_line(
    line: &[u8],
    pairs: bool,
    number: usize,
) -> Result<CountedLine<'_>, CertFault>
    ensures { Gives counted result (counted_of number pairs (pieces 32 line.now)) }
{
    let words = Words::new(line);
    let Some((first, behind)) = words.first() else {
        return Err(CertFault::Expected(number));
    };
    let Some((count, behind)) = behind.first() else {
        return Err(CertFault::Expected(number));
    };
    if count_agrees(pairs, words.filled(), count) {
        Ok(CountedLine {
            first,
            count,
            words: behind,
        })
    } else {
        Err(CertFault::Expected(number))
    }
}

/// Returns whether the words after the first are as many as it states. `words` is the number of words, or `None` if one
/// of them is empty, which is refused. A count that is not a number is accepted here.
fn size_agrees(words: Option<usize>, count: &[u8]) -> bool
    ensures { result ≡ has_width (number count.now) words }
{
    match (words, number_of(count)) {
        (None, _) => false,
        (Some(_), None) => true,
        (Some(words), Some(count)) => 0 < words && words as u64 - 1 == count,
    }
}

/// Returns the first word of a line and the words after it, if they are as many as the first word states. A count that
/// is not a number is not compared.
pub(crate) fn sized_line(line: &[u8], number: usize) -> Result<(&[u8], Words<'_>), CertFault>
    ensures { Gives (λ x. (x.0.now, left x.1)) result (sized_of number (pieces 32 line.now)) }
{
    let words = Words::new(line);
    let Some((count, behind)) = words.first() else {
        return Err(CertFault::Expected(number));
    };
    if size_agrees(words.filled(), count) {
        Ok((count, behind))
    } else {
        Err(CertFault::Expected(number))
    }
}

/// Returns the same as `counted_line`, if the first word is the keyword.
#[tactic(auto, unfolding(crate::specs::Reading::headed_of))]
pub(crate) fn headed_line<'a>(
    line: &'a [u8],
    keyword: &[u8],
    pairs: bool,
    number: usize,
) -> Result<CountedLine<'a>, CertFault>
    ensures { Gives counted result (headed_of number keyword.now pairs (pieces 32 line.now)) }
{
    let form = counted_line(line, pairs, number)?;
    if form.first == keyword {
        Ok(form)
    } else {
        Err(CertFault::Expected(number))
    }
}
