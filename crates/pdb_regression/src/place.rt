//! The classes of operators, listed by a value that they require.

ghost use Rattle.std.specs.Prelude.{◌≡◌, true, [], ◌<◌, ◌≤◌, ◌^◌, All, IfOk, OnOk, IfSome, length, map, slice_index_or};
ghost use Rattle.abstraction.specs.Digits.{IsDigitBelow};
ghost use Rattle.pdb_regression.specs.Tables as spec;
ghost use Rattle.pdb_regression.specs.Tables.{IsAdded, IsKey, IsPositionIn, positions_of, IsAlong, AreIndexed};

use crate::rule::Rule;
use crate::word::is_plain;
use abstraction::Digit;
use std::alloc::{AllocError, Global};
use std::marker::Model;

/// The least range of a digit under whose values classes are listed. Lists under the values of a narrower digit would
/// still be long, so that searching them would cost more than it saves.
const LISTED_RANGE: usize = 4;

/// A digit of the pattern, and its number among the digits.
#[derive(Clone, Copy)]
pub(crate) struct Position {
    pub(crate) number: usize,
    pub(crate) digit: Digit,
}

/// A list of classes, by their numbers.
#[derive(Drop)]
struct ClassList {
    numbers: Vec<u32>,
}

impl Model for ClassList {
    ghost use Rattle.std.specs.Prelude.{List, ℕ};

    ghost Value = { List ℕ };

    ghost view = { λ l. l.numbers.items };
}

/// A digit of the pattern, and for each of its values the classes that are listed under it.
#[derive(Drop)]
pub(crate) struct Place {
    position: Position,
    lists: Vec<ClassList>,
}

impl Model for Place {
    ghost use Rattle.std.specs.Prelude.{◌≡◌, length, ◌^◌};
    ghost use Rattle.abstraction.specs.Digits.{IsDigitBelow};
    ghost use Rattle.pdb_regression.specs.Tables as spec;

    ghost Value = { spec.Place };

    ghost view = { λ p. record { position = p.position; lists = p.lists.items } };

    ghost invariant = { λ p. IsDigitBelow (2 ^ 24) p.position.digit × (length p.lists.items ≡ p.position.digit.range) };
}

/// The index of a `Place`, and a value at its digit.
#[derive(Clone, Copy)]
struct Key {
    place: usize,
    value: usize,
}

impl Place {
    /// Returns the `Place` of a digit, without classes.
    fn new(alloc: Global, position: Position) -> Result<Place, AllocError>
        requires { IsDigitBelow (2 ^ 24) position.digit }
        ensures { IfOk result (λ p. p.position ≡ position) }
    {
        let mut lists = Vec::new(alloc);
        for _ in 0..position.digit.range {
            lists.push(ClassList {
                numbers: Vec::new(alloc),
            })?;
        }
        Ok(Place { position, lists })
    }

    /// Returns the digit and its number.
    pub(crate) fn position(&self) -> Position
        ensures position { result ≡ self.now.position }
        ensures below { IsDigitBelow (2 ^ 24) result.digit }
    {
        self.position
    }

    /// Returns the classes listed under the value.
    pub(crate) fn classes(&self, value: usize) -> &[u32]
        requires { value < self.now.position.digit.range }
        ensures { result.now ≡ slice_index_or self.now.lists value [] }
    {
        &self.lists[value].numbers
    }

    /// Adds a class under a value.
    fn add(&mut self, value: usize, class: u32) -> Result<(), AllocError>
        requires { value < self.old.position.digit.range }
        ensures position { self.new.position ≡ self.old.position }
        ensures added { OnOk result (IsAdded self.old self.new value class) }
    {
        self.lists[value].numbers.push(class)?;
        Ok(())
    }
}

/// Returns a `Place`, without classes, for each of the digits under whose values classes are listed.
pub(crate) fn places_of(alloc: Global, digits: &[Digit]) -> Result<Vec<Place>, AllocError>
    requires { All (IsDigitBelow (2 ^ 24)) digits.now }
    ensures { IfOk result (λ v. All (IsPositionIn digits.now) (positions_of v.items)) }
{
    let mut places = Vec::new(alloc);
    for number in 0..digits.len() {
        let digit = digits[number];
        if digit.range >= LISTED_RANGE {
            places.push(Place::new(alloc, Position { number, digit })?)?;
        }
    }
    Ok(places)
}

/// Returns whether no classes are listed under values, and abstract states are their own words.
pub(crate) fn is_read_plainly(digits: &[Digit], places: &[Place]) -> bool
    requires { All (IsDigitBelow (2 ^ 24)) digits.now }
    ensures { result ≡ true → spec.IsReadPlainly digits.now places.now }
{
    places.is_empty() && is_plain(digits)
}

/// Returns the index `place` with the value that the class requires at the digit there, if it requires one.
fn key_at(places: &[Place], rule: &Rule, place: usize) -> Option<Key>
    requires positions { All (IsPositionIn (map (λ c. c.digit) rule.now)) (positions_of places.now) }
    requires place { place < length places.now }
    ensures at { IfSome result (λ key. key.place ≡ place) }
    ensures key { IfSome result (λ key. IsKey places.now rule.now key.place key.value) }
{
    let position = places[place].position();
    let value = rule.asked_of(position.number)?;
    Some(Key {
        place,
        value: value as usize,
    })
}

/// Returns whether the digit at index `place` is wider than that of the key, which is so if there is no key.
fn is_wider(places: &[Place], place: usize, key: Option<Key>) -> bool
    requires place { place < length places.now }
    requires key { IfSome key (λ key. key.place < length places.now) }
{
    match key {
        None => true,
        Some(key) => {
            places[key.place].position().digit.range < places[place].position().digit.range
        }
    }
}

/// Returns the key of the widest digit at which the class requires a value. The wider a digit, the more seldom an
/// abstract state has the value, and the more seldom the class is tested. Of equally wide digits it is the first.
fn key_of(places: &[Place], rule: &Rule) -> Option<Key>
    requires { All (IsPositionIn (map (λ c. c.digit) rule.now)) (positions_of places.now) }
    ensures { IfSome result (λ key. IsKey places.now rule.now key.place key.value) }
{
    let mut widest = None;
    for place in 0..places.len() {
        if is_wider(places, place, widest) {
            widest = key_at(places, rule, place).or(widest);
        }
    }
    widest
}

/// Adds each class under the value that it requires at the widest of the digits of `places` at which it requires one,
/// or else to `rest`.
pub(crate) fn add_classes(
    digits: &[Digit],
    places: &mut [Place],
    rest: &mut Vec<u32>,
    rules: &[Rule],
) -> Result<(), AllocError>
    requires positions { All (IsPositionIn digits.now) (positions_of places.old) }
    requires along { All (IsAlong digits.now) rules.now }
    requires few { length rules.now ≤ 4294967295 }
    ensures positions { positions_of places.new ≡ positions_of places.old }
    ensures indexed { OnOk result (AreIndexed rest.new.items places.new rules.now (length rules.now)) }
{
    for class in 0..rules.len() {
        match key_of(places, &rules[class]) {
            Some(key) => places[key.place].add(key.value, class as u32)?,
            None => rest.push(class as u32)?,
        }
    }
    Ok(())
}
