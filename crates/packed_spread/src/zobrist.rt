//! Owners by a hash of the state.

ghost use Rattle.std.specs.Prelude.{◌≡◌, ℕ, ◌+◌, ◌<◌, true, length, slice_index, sum, All, IfOk};
ghost use Rattle.fdr.specs.Tasks as tasks;
ghost use Rattle.fdr.specs.Tasks.{are_distinct, with_values};
ghost use Rattle.packed_spread.specs.Projections.{projected_words};
ghost use Rattle.packed_spread.specs.Spreads as spec;

use crate::spread::Spread;
use crate::words::{projected_words_of, words_of};
use fdr::{Fact, FdrTask};
use std::alloc::{AllocError, Global};
use std::marker::Model;

/// The spread by which the owner of a state is the state's hash modulo the number of owners. The hash (Zobrist 1970) is
/// the exclusive or of one word for each variable's value in the state, and 0 for a task without variables. The words
/// are those of SplitMix64 (Steele, Lea and Flood 2014) from seed 1, in the order of variables and then of values. In
/// contracts its value is the task and the words.
#[derive(Drop)]
pub struct Zobrist<'a> {
    task: &'a FdrTask,
    words: Vec<u64>,
    firsts: Vec<usize>,
}

impl<'a> Model for Zobrist<'a> {
    ghost Value = { spec.Zobrist };

    ghost view = { λ z. record { task = z.task.now; words = z.words.items } };

    ghost invariant = { λ z.
        (length z.words.items ≡ sum (tasks.ranges z.task.now)) ×
        (z.firsts.items ≡ spec.firsts_of (tasks.ranges z.task.now)) };
}

/// Returns the hash of a state, from all words and the index of each variable's first word.
fn hash_of(words: &[u64], firsts: &[usize], state: &[u32]) -> u64
    requires long { length firsts.now ≡ length state.now }
    requires exist { (v : ℕ) → v < length firsts.now → slice_index firsts.now v + slice_index state.now v < length words.now }
    ensures { result ≡ spec.hash words.now firsts.now state.now }
{
    let mut hash = 0;
    for variable in 0..firsts.len() {
        hash ^= words[firsts[variable] + state[variable] as usize];
    }
    hash
}

/// Returns the hash of the state in which the variables of these facts have the facts' values, and all others their
/// value in `state`, whose hash is `hash`: the word of each changed variable's old value is exchanged for that of the
/// new one.
fn hash_after(words: &[u64], firsts: &[usize], state: &[u32], hash: u64, facts: &[Fact]) -> u64
    requires long { length firsts.now ≡ length state.now }
    requires hash { hash ≡ spec.hash words.now firsts.now state.now }
    requires exist { (v : ℕ) → v < length firsts.now → slice_index firsts.now v + slice_index state.now v < length words.now }
    requires facts { All (λ f. (f.variable < length firsts.now) × (slice_index firsts.now f.variable + f.value < length words.now)) facts.now }
    requires distinct { are_distinct facts.now ≡ true }
    ensures { result ≡ spec.hash words.now firsts.now (with_values facts.now state.now) }
{
    let mut changed = hash;
    for fact in facts {
        let first = firsts[fact.variable];
        let old = words[first + state[fact.variable] as usize];
        changed ^= old ^ words[first + fact.value as usize];
    }
    changed
}

impl<'a> Zobrist<'a> {
    /// Returns the spread for the task, with a word of 8 bytes for each value of each variable.
    pub fn new(alloc: Global, task: &'a FdrTask) -> Result<Zobrist<'a>, AllocError>
        ensures task { IfOk result (λ z. z.task ≡ task.now) }
        ensures words { IfOk result (λ z. z.words ≡ spec.splitmix_words 1 (sum (tasks.ranges task.now))) }
    {
        let made = words_of(alloc, task)?;
        Ok(Zobrist {
            task,
            words: made.words,
            firsts: made.firsts,
        })
    }

    /// Returns the spread for the task by a hash of only some variables: those that operators seldom change, as many as
    /// distinguish 2^20 states, or a quarter of all states if that is less. Most successors then have the owner of
    /// their parent, so that workers send one another few messages (Burns, Lemons, Ruml and Zhou 2010; Jinnai and
    /// Fukunaga 2017). The word of each value of another variable is 0.
    ///
    /// How often a variable changes is estimated: each operator that changes it counts as often as it applies if each
    /// variable has each of its values equally often.
    pub fn projected(alloc: Global, task: &'a FdrTask) -> Result<Zobrist<'a>, AllocError>
        ensures task { IfOk result (λ z. z.task ≡ task.now) }
        ensures words { IfOk result (λ z. z.words ≡ projected_words task.now) }
    {
        let made = projected_words_of(alloc, task)?;
        Ok(Zobrist {
            task,
            words: made.words,
            firsts: made.firsts,
        })
    }
}

impl<'a> Spread for Zobrist<'a> {
    ghost use Rattle.packed_spread.specs.Spreads.{zobrist_owner};
    ghost use Rattle.packed_spread.specs.OwnerLaws.{zobrist_owner_is_below};

    ghost ranges = { λ z. tasks.ranges z.task };

    ghost owner = { zobrist_owner };

    ghost state_hash = { λ z. spec.hash z.words (spec.firsts_of (tasks.ranges z.task)) };

    ghost is_below = { zobrist_owner_is_below };

    fn owner_of(&self, state: &[u32], owners: usize) -> usize {
        if owners == 1 {
            return 0; // every hash modulo 1
        }
        let hash = hash_of(&self.words, &self.firsts, state);
        (hash % owners as u64) as usize
    }

    fn hash_of(&self, state: &[u32]) -> u64 {
        hash_of(&self.words, &self.firsts, state)
    }

    fn owner_after(&self, state: &[u32], hash: u64, facts: &[Fact], owners: usize) -> usize {
        if owners == 1 {
            return 0; // every hash modulo 1
        }
        let changed = hash_after(&self.words, &self.firsts, state, hash, facts);
        (changed % owners as u64) as usize
    }
}
