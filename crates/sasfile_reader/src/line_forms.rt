//! Lines of a given form.

ghost use Rattle.std.specs.Prelude.{◌≡◌, ◌+◌, IfOk};
ghost use Rattle.sasfile_reader.specs.Lines.{words, is_text_byte};
ghost use Rattle.sasfile_reader.specs.Reading.{Gives, alone, pair, keyword_at, text_at, number_at, count_at};
ghost use Rattle.std.specs.List.{list_all};
ghost use Rattle.sasfile_reader.specs.Remains.{remaining};

use crate::fault::SasFault;
use crate::lines::Lines;
use crate::number::{Number, number_of};
use crate::pieces::next_word;

/// Reads a line that is exactly this word.
#[tactic(auto, unfolding(crate::specs::Reading::keyword_at))]
pub(crate) fn keyword<'a>(lines: Lines<'a>, word: &[u8]) -> Result<Lines<'a>, SasFault>
    ensures next { IfOk result (λ x. x.number ≡ lines.entry.number + 1) }
    ensures line { Gives remaining result (keyword_at word.now (remaining lines.entry)) }
{
    let (line, rest) = lines.first()?;
    if line == word {
        Ok(rest)
    } else {
        Err(SasFault::Expected(lines.number))
    }
}

fn is_text(line: &[u8]) -> bool
    ensures { result ≡ list_all is_text_byte line.now }
{
    line.iter()
        .all(|byte| *byte == 9 || (32 <= *byte && *byte <= 126))
}

/// Reads a line with a name, or the name of a value.
#[tactic(auto, unfolding(crate::specs::Reading::text_at))]
pub(crate) fn text_line(lines: Lines<'_>) -> Result<(&str, Lines<'_>), SasFault>
    ensures next { IfOk result (λ x. x.1.number ≡ lines.entry.number + 1) }
    ensures line { Gives (λ x. (x.0.now, remaining x.1)) result (text_at (remaining lines.entry)) }
{
    let (line, rest) = lines.first()?;
    if !is_text(line) {
        return Err(SasFault::Expected(lines.number));
    }
    match str::from_utf8(line) {
        Ok(text) => Ok((text, rest)),
        Err(_) => Err(SasFault::Expected(lines.number)),
    }
}

/// Returns the number of a line that has exactly one word.
fn only_number(line: &[u8]) -> Option<Number>
    ensures { result ≡ alone (words line.now) }
{
    let (word, rest) = next_word(line)?;
    match next_word(rest) {
        None => number_of(word),
        Some(_) => None,
    }
}

/// Reads a line of one number.
#[tactic(auto, unfolding(crate::specs::Reading::number_at))]
pub(crate) fn number_line(lines: Lines<'_>) -> Result<(Number, Lines<'_>), SasFault>
    ensures next { IfOk result (λ x. x.1.number ≡ lines.entry.number + 1) }
    ensures line { Gives (λ x. (x.0, remaining x.1)) result (number_at (remaining lines.entry)) }
{
    let (line, rest) = lines.first()?;
    match only_number(line) {
        Some(number) => Ok((number, rest)),
        None => Err(SasFault::Expected(lines.number)),
    }
}

/// Reads a line of one number that is not negative.
#[tactic(auto, unfolding(crate::specs::Reading::count_at))]
pub(crate) fn count_line(lines: Lines<'_>) -> Result<(u64, Lines<'_>), SasFault>
    ensures next { IfOk result (λ x. x.1.number ≡ lines.entry.number + 1) }
    ensures line { Gives (λ x. (x.0, remaining x.1)) result (count_at (remaining lines.entry)) }
{
    let (number, rest) = number_line(lines)?;
    match number {
        Number::Natural(count) => Ok((count, rest)),
        Number::Negative(_) => Err(SasFault::Range(lines.number)),
    }
}

/// Returns the numbers of a line that has exactly two words.
pub(crate) fn two_numbers(line: &[u8]) -> Option<(Number, Number)>
    ensures { result ≡ pair (words line.now) }
{
    let (first, rest) = next_word(line)?;
    let (second, rest) = next_word(rest)?;
    match next_word(rest) {
        None => Some((number_of(first)?, number_of(second)?)),
        Some(_) => None,
    }
}
