//! The lines of atoms, variables, tables and states.

ghost use Rattle.std.specs.Prelude.{◌≡◌, ℕ, ◌<◌, ◌^◌, map, Ok, IfOk, IfSome};
ghost use Rattle.std.specs.List.{list_all};
ghost use Rattle.cert_text.specs.Pieces.{pieces};
ghost use Rattle.cert_text.specs.Reading.{Gives, is_printed, is_atom_word, atom_of, variable_of, classes_of, sharing_of, pattern_of, row_of, begins_with, is_domain, shares_of, values_of, entry_of, has_width};
ghost use Rattle.cert_text.specs.Cursors.{left, remaining};
ghost use Rattle.abstraction_domain.specs.Rows.{shares_class};
ghost use Rattle.cert_value.specs.Views as view;
ghost use Rattle.std.specs.String.{string_bytes};

use crate::fault::CertFault;
use crate::forms::{counted_line, headed_line, sized_line};
use crate::lines::Lines;
use crate::numbers::{
    distances, first_number, increases, number_within, operators_increase, read_numbers, shares,
};
use crate::words::Words;
use abstraction_domain::ClassRow;
use cert_value::{AtomVariable, Share, Values, Version};
use std::alloc::{AllocError, Global};

/// The end of the numbers of variables, operators and values, and of most counts: 2^32.
pub(crate) const SHORT: u64 = 1 << 32;

fn is_printed(word: &[u8]) -> bool
    ensures { result ≡ list_all is_printed word.now }
{
    word.iter().all(|byte| 33 <= *byte && *byte <= 126)
}

/// Returns whether the word may be part of an atom.
fn is_atom_word(word: &[u8]) -> bool
    ensures { result ≡ is_atom_word word.now }
{
    0 < word.len() && is_printed(word)
}

/// Returns the words of an atom. `number` is the number of their line.
#[tactic(auto, unfolding(crate::specs::Reading::atom_of))]
pub(crate) fn atom_words(
    alloc: Global,
    line: &[u8],
    number: usize,
) -> Result<Vec<String>, CertFault>
    ensures { Gives (λ v. view.atom_of v) result (atom_of number (pieces 32 line.now)) }
{
    let mut atom = Vec::new(alloc);
    let mut rest = Words::new(line);
    while let Some((word, behind)) = rest.first() {
        if !is_atom_word(word) {
            return Err(CertFault::Expected(number));
        }
        match str::from_utf8(word) {
            Ok(text) => atom.push(String::from_str(alloc, text)?)?,
            Err(_) => return Err(CertFault::Expected(number)),
        }
        rest = behind;
    }
    Ok(atom)
}

/// Returns a variable over atoms whose indices are below `atoms`. `number` is the number of the line.
#[tactic(auto, unfolding(crate::specs::Reading::variable_of))]
pub(crate) fn variable_line(
    alloc: Global,
    line: &[u8],
    atoms: u64,
    number: usize,
) -> Result<AtomVariable, CertFault>
    requires { atoms < 2 ^ 32 }
    ensures { Gives view.variable_of result (variable_of atoms number (pieces 32 line.now)) }
{
    let form = counted_line(line, false, number)?;
    let Some(flag) = number_within(form.first, 0, 2) else {
        return Err(CertFault::Number(number));
    };
    if number_within(form.count, 1, SHORT).is_none() {
        return Err(CertFault::Number(number));
    }
    let mut numbers = Vec::new(alloc);
    read_numbers(&mut numbers, form.words, atoms, number)?;
    if !increases(&numbers) {
        return Err(CertFault::Order(number));
    }
    Ok(AtomVariable {
        has_none_value: flag == 1,
        atoms: numbers,
    })
}

/// Returns the row of a variable, of which the line has the classes. `number` is the number of the line.
#[tactic(auto, using(crate::proofs::RowLaws::numbered_test, crate::proofs::RowLaws::misnumbered_test), unfolding(crate::specs::Reading::classes_of))]
fn classes_line(
    alloc: Global,
    line: &[u8],
    variable: usize,
    number: usize,
) -> Result<ClassRow, CertFault>
    ensures classes { Gives (λ r. r.classes) result (classes_of number (pieces 32 line.now)) }
    ensures variable { IfOk result (λ r. r.variable ≡ variable) }
{
    let (count, words) = sized_line(line, number)?;
    if number_within(count, 1, SHORT).is_none() {
        return Err(CertFault::Number(number));
    }
    let mut classes = Vec::new(alloc);
    read_numbers(&mut classes, words, SHORT, number)?;
    let Ok(row) = ClassRow::new(variable, classes) else {
        return Err(CertFault::Classes(number));
    };
    Ok(row)
}

/// Returns whether two values of the variable of a row share a class.
pub(crate) fn shares_class(row: &ClassRow) -> bool
    ensures { result ≡ shares_class row.now.classes }
{
    row.class_count() < row.classes().len()
}

/// Returns the row of a variable, of which the line has the classes. Two values must share a class if `must` is set.
/// `number` is the number of the line.
#[tactic(auto, unfolding(crate::specs::Reading::sharing_of))]
pub(crate) fn sharing_line(
    alloc: Global,
    line: &[u8],
    variable: usize,
    must: bool,
    number: usize,
) -> Result<ClassRow, CertFault>
    ensures classes { Gives (λ r. r.classes) result (sharing_of must number (pieces 32 line.now)) }
    ensures variable { IfOk result (λ r. r.variable ≡ variable) }
{
    let row = classes_line(alloc, line, variable, number)?;
    if must && !shares_class(&row) {
        return Err(CertFault::Classes(number));
    }
    Ok(row)
}

/// Returns the pattern of a table.
#[tactic(auto, unfolding(crate::specs::Reading::pattern_of))]
pub(crate) fn pattern_line(alloc: Global, line: &[u8], number: usize) -> Result<Vec<u32>, CertFault>
    ensures { Gives (λ v. v.items) result (pattern_of number (pieces 32 line.now)) }
{
    let form = headed_line(line, b"table", false, number)?;
    if number_within(form.count, 1, SHORT).is_none() {
        return Err(CertFault::Number(number));
    }
    let mut pattern = Vec::new(alloc);
    read_numbers(&mut pattern, form.words, SHORT, number)?;
    if increases(&pattern) {
        Ok(pattern)
    } else {
        Err(CertFault::Order(number))
    }
}

/// Returns whether the first word of the line is the keyword.
fn begins_with(line: &[u8], keyword: &[u8]) -> bool
    ensures { result ≡ begins_with keyword.now (pieces 32 line.now) }
{
    match Words::new(line).first() {
        Some((word, _)) => word == keyword,
        None => false,
    }
}

/// Returns whether the line is the first of a domain abstraction, which version 1 does not have.
pub(crate) fn is_domain(version: Version, line: &[u8]) -> bool
    ensures { result ≡ is_domain version (pieces 32 line.now) }
{
    match version {
        Version::One => false,
        Version::Two | Version::Three => begins_with(line, b"domain"),
    }
}

/// Returns the row of a variable that is at least `least`. `number` is the number of the line.
#[tactic(auto, using(crate::proofs::RowLaws::numbered_test, crate::proofs::RowLaws::misnumbered_test), unfolding(crate::specs::Reading::row_of))]
pub(crate) fn row_line(
    alloc: Global,
    line: &[u8],
    least: u64,
    number: usize,
) -> Result<ClassRow, CertFault>
    ensures row { Gives (λ r. r) result (row_of least number (pieces 32 line.now)) }
    ensures short { IfOk result (λ r. r.variable < 2 ^ 32) }
{
    let form = counted_line(line, false, number)?;
    let Some(variable) = number_within(form.first, 0, SHORT) else {
        return Err(CertFault::Number(number));
    };
    if number_within(form.count, 1, SHORT).is_none() {
        return Err(CertFault::Number(number));
    }
    let mut classes = Vec::new(alloc);
    read_numbers(&mut classes, form.words, SHORT, number)?;
    if variable < least {
        return Err(CertFault::Order(number));
    }
    match ClassRow::new(variable as usize, classes) {
        Ok(row) => Ok(row),
        Err(_) => Err(CertFault::Classes(number)),
    }
}

/// Returns the shares of a table.
#[tactic(auto, unfolding(crate::specs::Reading::shares_of))]
pub(crate) fn shares_line(
    alloc: Global,
    line: &[u8],
    number: usize,
) -> Result<Vec<Share>, CertFault>
    ensures { Gives (λ v. v.items) result (shares_of number (pieces 32 line.now)) }
{
    let form = headed_line(line, b"shares", true, number)?;
    if number_within(form.count, 0, SHORT).is_none() {
        return Err(CertFault::Number(number));
    }
    let shares = shares(alloc, form.words, number)?;
    if operators_increase(&shares) {
        Ok(shares)
    } else {
        Err(CertFault::Order(number))
    }
}

/// Returns the values of a table.
#[tactic(auto, unfolding(crate::specs::Reading::values_of))]
pub(crate) fn values_line(alloc: Global, line: &[u8], number: usize) -> Result<Values, CertFault>
    ensures { Gives (λ v. v) result (values_of number (pieces 32 line.now)) }
{
    let form = headed_line(line, b"values", false, number)?;
    if number_within(form.count, 0, (1 << 24) + 1).is_none() {
        return Err(CertFault::Number(number));
    }
    distances(alloc, form.words, (1 << 55) + 1, number)
}

/// Returns whether a line has a cost and as many values as the states before it. `words` is the number of words, or
/// `None` if one of them is empty.
fn fits_width(words: Option<usize>, width: Option<usize>) -> bool
    ensures { result ≡ has_width width words }
{
    match (words, width) {
        (None, _) => false,
        (Some(_), None) => true,
        (Some(words), Some(width)) => 0 < words && words - 1 == width,
    }
}

/// Returns the cost of a state, whose values replace the content of `state`, as `entry_line` does. Returns `None` if
/// the line has a fault, which is not determined, or if the cost is 2^60 or more. Each byte is read once.
#[tactic(auto, using(crate::proofs::PlainEntries::entry_is, crate::proofs::PlainEntries::one_more_word, crate::proofs::PlainEntries::one_more_number), unfolding(crate::specs::Reading::filled_behind, crate::specs::Reading::numbers_behind))]
fn plain_entry(
    line: &[u8],
    width: Option<usize>,
    state: &mut Vec<u32>,
) -> Result<Option<u64>, AllocError>
    ensures { IfOk result (λ found. IfSome found (λ cost. (number : ℕ) → entry_of width number (pieces 32 line.now) ≡ Ok (record { cost = cost; state = state.new.items }))) }
{
    state.clear();
    let Some((cost, behind)) = first_number(Words::new(line), 1 << 60) else {
        return Ok(None);
    };
    let mut rest = behind;
    while let Some((value, behind)) = first_number(rest, SHORT) {
        state.push(value as u32)?;
        rest = behind;
    }
    if rest.done && fits_width(Some(state.len() + 1), width) {
        Ok(Some(cost))
    } else {
        Ok(None)
    }
}

/// Returns the cost of a state. Its values replace the content of `state`.
#[tactic(auto, unfolding(crate::specs::Reading::entry_of))]
pub(crate) fn entry_line(
    line: &[u8],
    width: Option<usize>,
    number: usize,
    state: &mut Vec<u32>,
) -> Result<u64, CertFault>
    ensures { Gives (λ cost. record { cost = cost; state = state.new.items }) result (entry_of width number (pieces 32 line.now)) }
{
    if let Some(cost) = plain_entry(line, width, state)? {
        return Ok(cost);
    }
    let words = Words::new(line);
    if !fits_width(words.filled(), width) {
        return Err(CertFault::Expected(number));
    }
    let Some((word, behind)) = words.first() else {
        return Err(CertFault::Expected(number));
    };
    let Some(cost) = number_within(word, 0, (1 << 62) + 1) else {
        return Err(CertFault::Number(number));
    };
    read_numbers(state, behind, SHORT, number)?;
    Ok(cost)
}
