//! Numbers as words spell them.

ghost use Rattle.std.specs.Prelude.{◌≡◌, ◌∷◌, ◌++◌, [], ◌≤◌, ◌<◌, ◌^◌, ◌-◌, option_map, map, min, OnOk, IfSome};
ghost use Rattle.cert_text.specs.Reading.{Gives, numbered, digits_after, number, number_in, share_in, numbers_in, distance_in, distances_in, shares_in, increases_from, is_increasing};
ghost use Rattle.cert_text.specs.Cursors.{left};
ghost use Rattle.cert_text.specs.Leading.{BeginsWithNumber, IsFirstNumber};

use crate::fault::CertFault;
use crate::words::Words;
use cert_value::{Share, Values};
use cost::Dist;
use std::alloc::Global;

/// Returns the number that the digits spell, capped at 2^64 - 1, or `None` if one of them is no digit.
#[tactic(auto, using(crate::proofs::NumberLaws::digits_alike), unfolding(crate::specs::Reading::digits_after))]
fn digits_of(digits: &[u8]) -> Option<u64>
    ensures { result ≡ option_map (min (2 ^ 64 - 1)) (digits_after 0 digits.now) }
{
    let mut value = 0u64;
    for digit in digits {
        if *digit < b'0' || *digit > b'9' {
            return None;
        }
        value = value
            .saturating_mul(10)
            .saturating_add(u64::from(*digit - b'0'));
    }
    Some(value)
}

/// Returns the number that a word spells, in decimal without leading zeros. A number past 2^64 - 1 is replaced by that
/// one, which is past every limit and past the number of words of every line.
pub(crate) fn number_of(word: &[u8]) -> Option<u64>
    ensures { result ≡ option_map (min (2 ^ 64 - 1)) (number word.now) }
{
    match word {
        [] => None,
        [b'0', _, ..] => None,
        [_, ..] => digits_of(word),
    }
}

/// Returns the number that a word spells, if it is at least `least` and below `end`.
pub(crate) fn number_within(word: &[u8], least: u64, end: u64) -> Option<u64>
    requires { end < 2 ^ 64 }
    ensures value { result ≡ number_in least end word.now }
    ensures below { IfSome result (λ n. n < end) }
{
    match number_of(word) {
        Some(number) => {
            if least <= number && number < end {
                Some(number)
            } else {
                None
            }
        }
        None => None,
    }
}

/// Returns the number that the first digits of a text spell, in decimal without leading zeros, and the number of these
/// digits. Returns `None` if there are none, if the number has a leading zero, or if it is not below `end`.
#[tactic(auto, using(crate::proofs::LeadingNumbers::one_more_digit), unfolding(crate::specs::Reading::digits_after))]
fn leading_number(bytes: &[u8], end: u64) -> Option<(u64, usize)>
    requires some { 0 < end }
    requires few { end ≤ 2 ^ 60 }
    ensures { IfSome result (λ x. BeginsWithNumber end x.0 x.1 bytes.now) }
{
    let mut value = 0;
    let mut count = 0;
    while count < bytes.len() && b'0' <= bytes[count] && bytes[count] <= b'9' {
        value = value * 10 + u64::from(bytes[count] - b'0');
        if end <= value {
            return None;
        }
        count += 1;
    }
    if count == 0 || (1 < count && bytes[0] == b'0') {
        return None;
    }
    Some((value, count))
}

/// Returns the number that the next word spells, if it is below `end`, and the words after it. Returns `None` if no
/// word remains, or if the next one spells no such number. Each byte is read once.
pub(crate) fn first_number(words: Words<'_>, end: u64) -> Option<(u64, Words<'_>)>
    requires some { 0 < end }
    requires few { end ≤ 2 ^ 60 }
    ensures { IfSome result (λ x. IsFirstNumber end x.0 (left words.entry) (left x.1)) }
{
    if words.done {
        return None;
    }
    let (number, count) = leading_number(words.rest, end)?;
    let (_, behind) = words.rest.split_at(count);
    match behind {
        [] => Some((
            number,
            Words {
                rest: behind,
                done: true,
            },
        )),
        [separator, rest @ ..] => {
            if *separator == b' ' {
                Some((number, Words { rest, done: false }))
            } else {
                None
            }
        }
    }
}

/// Returns the distance that a word spells: `inf`, or a number below `end`.
#[tactic(auto, unfolding(crate::specs::Reading::distance_in))]
pub(crate) fn distance_within(word: &[u8], end: u64) -> Option<Dist>
    requires { end ≤ 2 ^ 63 }
    ensures { result ≡ distance_in end word.now }
{
    if word == b"inf".as_slice() {
        return Some(Dist::inf());
    }
    match number_within(word, 0, end) {
        Some(number) => Dist::fin(number),
        None => None,
    }
}

/// Replaces the content of `numbers` by the numbers of the words, each below `end`. `line` is the number of their line.
#[tactic(auto, unfolding(crate::specs::Reading::numbers_behind))]
pub(crate) fn read_numbers(
    numbers: &mut Vec<u32>,
    words: Words<'_>,
    end: u64,
    line: usize,
) -> Result<(), CertFault>
    requires { end ≤ 2 ^ 32 }
    ensures { Gives (λ _. numbers.new.items) result (numbered line (numbers_in end (left words.entry))) }
{
    numbers.clear();
    let mut rest = words;
    while let Some((word, behind)) = rest.first() {
        match number_within(word, 0, end) {
            Some(number) => numbers.push(number as u32)?,
            None => return Err(CertFault::Number(line)),
        }
        rest = behind;
    }
    Ok(())
}

/// Returns the distances of the words, each infinite or below `end`. `line` is the number of their line.
#[tactic(auto, unfolding(crate::specs::Reading::distances_behind))]
pub(crate) fn distances(
    alloc: Global,
    words: Words<'_>,
    end: u64,
    line: usize,
) -> Result<Values, CertFault>
    requires { end ≤ 2 ^ 63 }
    ensures { Gives (λ v. v) result (numbered line (distances_in end (left words.entry))) }
{
    let mut values = Values::new(alloc);
    let mut rest = words;
    while let Some((word, behind)) = rest.first() {
        match distance_within(word, end) {
            Some(value) => values.push(value)?,
            None => return Err(CertFault::Number(line)),
        }
        rest = behind;
    }
    Ok(values)
}

/// Returns the share that two words spell.
#[tactic(auto, unfolding(crate::specs::Reading::share_in))]
fn share_of(operator: &[u8], amount: &[u8]) -> Option<Share>
    ensures { result ≡ share_in operator.now amount.now }
{
    match (
        number_within(operator, 0, 1 << 32),
        number_within(amount, 1, 1 << 31),
    ) {
        (Some(operator), Some(amount)) => Some(Share {
            operator: operator as u32,
            amount: amount as u32,
        }),
        _ => None,
    }
}

/// Returns the shares that the words spell: alternately the number of an operator and its share.
#[tactic(auto, unfolding(crate::specs::Reading::shares_behind))]
pub(crate) fn shares(alloc: Global, words: Words<'_>, line: usize) -> Result<Vec<Share>, CertFault>
    ensures { Gives (λ v. v.items) result (numbered line (shares_in (left words.entry))) }
{
    let mut shares = Vec::new(alloc);
    let mut rest = words;
    while let Some((operator, behind)) = rest.first() {
        let Some((amount, behind)) = behind.first() else {
            return Err(CertFault::Number(line));
        };
        match share_of(operator, amount) {
            Some(share) => shares.push(share)?,
            None => return Err(CertFault::Number(line)),
        }
        rest = behind;
    }
    Ok(shares)
}

/// Returns whether the numbers are strictly increasing.
#[tactic(auto, unfolding(crate::specs::Reading::increases_from))]
pub(crate) fn increases(numbers: &[u32]) -> bool
    ensures { result ≡ is_increasing numbers.now }
{
    let mut least = 0u64;
    for number in numbers {
        if u64::from(*number) < least {
            return false;
        }
        least = u64::from(*number) + 1;
    }
    true
}

/// Returns whether the operators of the shares are strictly increasing.
#[tactic(auto, unfolding(crate::specs::Reading::increases_from))]
pub(crate) fn operators_increase(shares: &[Share]) -> bool
    ensures { result ≡ is_increasing (map (λ s. s.operator) shares.now) }
{
    let mut least = 0u64;
    for share in shares {
        if u64::from(share.operator) < least {
            return false;
        }
        least = u64::from(share.operator) + 1;
    }
    true
}
