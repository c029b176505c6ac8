//! The changes of a class of operators as arithmetic on the numbers of abstract states.

ghost use Rattle.std.specs.Prelude.{◌≡◌, ℕ, ◌+◌, ◌++◌, ◌<◌, ◌≤◌, ◌==◌, true, ◌^◌, ◌⊎◌, ◌↔◌, All, Contains, length, slice_index_or, IfSome, IfOk, OnOk};
ghost use Rattle.std.specs.Int.RustNames.{bit_and};
ghost use Rattle.abstraction_groups.specs.declared.backward.Transition.{Transition};
ghost use Rattle.abstraction.specs.Digits.{IsDigitBelow};
ghost use Rattle.abstraction_groups.specs.Changes.{LeadsBy, IsFit, size_by};
ghost use Rattle.pdb_regression.specs.Changes.{asked};
ghost use Rattle.pdb_regression.specs.Rules as spec;
ghost use Rattle.pdb_regression.specs.Rules.{free_in, IsWith};
ghost use Rattle.pdb_regression.specs.Words as words;
ghost use Rattle.pdb_regression.specs.Words.{word_by};
ghost use Rattle.abstraction_groups.specs.Pairs.{IsRow};
ghost use Rattle.pdb_regression.specs.Tables.{no_change};

use crate::change::{mask_of, value_asked, value_put, value_taken, value_wanted};
use crate::word::room_of;
use abstraction::Digit;
use abstraction_groups::{DigitChange, Transition};
use std::alloc::{AllocError, Global};
use std::marker::Model;

/// The changes that the operators of a class make to the values of the pattern. In contracts its value is the list of
/// these changes.
///
/// The operators enter the abstract states whose word has the bits of `want` among those of `mask`, which are the bits
/// of the digits at which a value is required. The number of the abstract state that they come from is greater by
/// `taken` and less by `put`, and the free digits may have any value there.
#[derive(Drop)]
pub(crate) struct Rule {
    changes: Vec<DigitChange>,
    mask: u64,
    want: u64,
    put: usize,
    taken: usize,
    free: Vec<Digit>,
}

impl Model for Rule {
    ghost use Rattle.std.specs.Prelude.{◌≡◌, List};
    ghost use Rattle.abstraction_groups.specs.declared.change.DigitChange.{DigitChange};
    ghost use Rattle.pdb_regression.specs.Rules.{IsRule};

    ghost Value = { List DigitChange };

    ghost view = { λ r. r.changes.items };

    ghost invariant = { λ r. IsRule r.changes.items r.mask r.want r.put r.taken r.free.items };
}

/// Returns the bits of the digits at which a value is required.
fn mask_by(changes: &[DigitChange]) -> u64
    requires fit { All IsFit changes.now }
    requires small { size_by changes.now ≤ 2 ^ 24 }
    ensures { result ≡ words.mask_by changes.now }
{
    let [change, others @ ..] = changes else {
        return 0;
    };
    let room = room_of(change.digit.range);
    mask_of(change.change, room) + room * mask_by(others)
}

/// Returns the required values, each at the bits of its digit.
fn want_by(changes: &[DigitChange]) -> u64
    requires fit { All IsFit changes.now }
    requires small { size_by changes.now ≤ 2 ^ 24 }
    ensures { result ≡ words.want_by changes.now }
{
    let [change, others @ ..] = changes else {
        return 0;
    };
    let room = room_of(change.digit.range);
    u64::from(value_wanted(change.change)) + room * want_by(others)
}

/// Appends the digits that may have any value before.
fn add_free(changes: &[DigitChange], free: &mut Vec<Digit>) -> Result<(), AllocError>
    ensures { OnOk result (free.new.items ≡ free.old.items ++ free_in changes.now) }
{
    let [change, others @ ..] = changes else {
        return Ok(());
    };
    if change.change.sets_any_value() {
        free.push(change.digit)?;
    }
    add_free(others, free)
}

/// Returns what the effects add to the number of an abstract state.
fn put_by(changes: &[DigitChange]) -> usize
    requires fit { All IsFit changes.now }
    requires small { size_by changes.now ≤ 2 ^ 24 }
    ensures { result ≡ spec.put_by changes.now }
{
    let [change, others @ ..] = changes else {
        return 0;
    };
    value_put(change.change) as usize + change.digit.range * put_by(others)
}

/// Returns what the effects subtract from the number of an abstract state.
fn taken_by(changes: &[DigitChange]) -> usize
    requires fit { All IsFit changes.now }
    requires small { size_by changes.now ≤ 2 ^ 24 }
    ensures { result ≡ spec.taken_by changes.now }
{
    let [change, others @ ..] = changes else {
        return 0;
    };
    value_taken(change.change) as usize + change.digit.range * taken_by(others)
}

/// Appends a transition of the class for each choice of values of the free digits: from `source` plus each value times
/// its digit's weight.
fn add_sources(
    class: u32,
    source: usize,
    free: &[Digit],
    transitions: &mut Vec<Transition>,
) -> Result<(), AllocError>
    requires free { All (IsDigitBelow (2 ^ 24)) free.now }
    requires small { (m : ℕ) → IsWith free.now source m → m < 2 ^ 32 }
    ensures { OnOk result ((t : Transition) → Contains transitions.new.items t ↔
        (Contains transitions.old.items t ⊎ ((t.class ≡ class) × IsWith free.now source t.source))) }
{
    let [digit, others @ ..] = free else {
        transitions.push(Transition {
            class,
            source: source as u32,
        })?;
        return Ok(());
    };
    for value in 0..digit.range {
        add_sources(class, source + value * digit.weight, others, transitions)?;
    }
    Ok(())
}

impl Rule {
    /// Returns the rule of these changes.
    pub(crate) fn new(alloc: Global, changes: Vec<DigitChange>) -> Result<Rule, AllocError>
        requires { IsRow changes.items }
        ensures { IfOk result (λ r. r ≡ changes.items) }
    {
        let mask = mask_by(&changes);
        let want = want_by(&changes);
        let mut free = Vec::new(alloc);
        add_free(&changes, &mut free)?;
        let put = put_by(&changes);
        let taken = taken_by(&changes);
        Ok(Rule {
            changes,
            mask,
            want,
            put,
            taken,
            free,
        })
    }

    /// Returns the value that is required at the digit with this number, if there is one.
    pub(crate) fn asked_of(&self, digit: usize) -> Option<u32>
        requires { digit < length self.now }
        ensures asked { result ≡ asked (slice_index_or self.now digit no_change).change }
        ensures below { IfSome result (λ value. value < (slice_index_or self.now digit no_change).digit.range) }
    {
        value_asked(self.changes[digit].change)
    }

    /// Returns whether the abstract state with this word has the required values.
    fn enters(&self, word: u64) -> bool
        ensures { result ≡ (bit_and word (words.mask_by self.now) == words.want_by self.now) }
    {
        word & self.mask == self.want
    }

    /// Appends the transitions of the class into the abstract state, which has this word.
    pub(crate) fn add_transitions(
        &self,
        class: u32,
        abstract_state: usize,
        word: u64,
        transitions: &mut Vec<Transition>,
    ) -> Result<(), AllocError>
        requires state { abstract_state < size_by self.now }
        requires word { word ≡ word_by abstract_state self.now }
        ensures { OnOk result ((t : Transition) → Contains transitions.new.items t ↔
            (Contains transitions.old.items t ⊎ ((t.class ≡ class) × LeadsBy self.now t.source abstract_state))) }
    {
        if self.enters(word) {
            let source = abstract_state + self.taken - self.put;
            add_sources(class, source, &self.free, transitions)?;
        }
        Ok(())
    }
}
