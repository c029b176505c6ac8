//! The values of the states of a closed list.

ghost use Rattle.std.specs.Prelude.{◌≡◌, ◌<◌, ◌+◌, ◌*◌, ◌^◌, ◌≤◌, ◌++◌, [], ◌∷◌, length, take, drop, nat_eq, All, OnOk, OnErr, IfOk, MatchBool};
ghost use Rattle.std.specs.Cmp.Lexicographic.{pointwise};

use std::alloc::{AllocError, Global};
use std::marker::Model;

/// Numbers, of 2 bytes each as long as all are below 2^16, otherwise of 4.
#[derive(Drop)]
enum Kept {
    Short(Vec<u16>),
    Long(Vec<u32>),
}

/// The values of states, one state after another: 2 bytes each as long as all are below 2^16, otherwise 4. In contracts
/// its value is a list of numbers.
#[derive(Drop)]
pub(crate) struct Numbers {
    kept: Kept,
}

impl Model for Numbers {
    ghost use Rattle.std.specs.Prelude.{ℕ, List};
    ghost use Rattle.cert_value.specs.Kept.{numbers_in};

    ghost Value = { List ℕ };

    ghost view = { λ n. numbers_in n.kept };
}

/// Returns the numbers with 4 bytes each, as a certificate stores them.
pub fn short_numbers(alloc: Global, numbers: &[usize]) -> Result<Vec<u32>, AllocError>
    requires { All (λ n. n < 2 ^ 32) numbers.now }
    ensures { IfOk result (λ short. short.items ≡ numbers.now) }
{
    let mut short = Vec::with_capacity(alloc, numbers.len())?;
    for number in numbers {
        short.push(*number as u32)?;
    }
    Ok(short)
}

/// Returns the numbers followed by `more`, with 4 bytes each.
fn longer(alloc: Global, numbers: &[u16], more: &[u32]) -> Result<Vec<u32>, AllocError>
    ensures { IfOk result (λ all. all.items ≡ numbers.now ++ more.now) }
{
    let mut all = Vec::with_capacity(alloc, numbers.len() + more.len())?;
    for number in numbers {
        all.push(u32::from(*number))?;
    }
    all.extend_from_slice(more)?;
    Ok(all)
}

/// Returns whether all numbers are below 2^16. The loop has no early exit, so that it becomes vector code: with few
/// instructions for each state, the cache misses of successive states overlap.
fn are_short(numbers: &[u32]) -> bool
    ensures { MatchBool result (All (λ n. n < 2 ^ 16) numbers.now) (¬ All (λ n. n < 2 ^ 16) numbers.now) }
{
    let mut greatest = 0u32;
    for number in numbers {
        greatest = greatest.max(*number);
    }
    greatest <= u32::from(u16::MAX)
}

/// Appends numbers below 2^16. On failure the list is unchanged.
fn append_short(numbers: &mut Vec<u16>, more: &[u32]) -> Result<(), AllocError>
    requires { All (λ n. n < 2 ^ 16) more.now }
    ensures ok { OnOk result (numbers.new.items ≡ numbers.old.items ++ more.now) }
    ensures err { OnErr result (numbers.new.items ≡ numbers.old.items) }
{
    let before = numbers.len();
    numbers.resize(before + more.len(), 0)?;
    shorten(more, &mut numbers[before..]);
    Ok(())
}

/// Copies numbers below 2^16 into a buffer of the same length.
fn shorten(numbers: &[u32], into: &mut [u16])
    requires len { length numbers.now ≡ length into.old }
    requires short { All (λ n. n < 2 ^ 16) numbers.now }
    ensures { into.new ≡ numbers.now }
{
    for place in 0..into.len() {
        into[place] = numbers[place] as u16;
    }
}

impl Numbers {
    /// Returns an empty list.
    pub(crate) fn new(alloc: Global) -> Numbers
        ensures { result ≡ [] }
    {
        Numbers {
            kept: Kept::Short(Vec::new(alloc)),
        }
    }

    /// Returns an empty list with memory for `len` numbers below 2^16.
    pub(crate) fn with_capacity(alloc: Global, len: usize) -> Result<Numbers, AllocError>
        ensures { IfOk result (λ numbers. numbers ≡ []) }
    {
        let numbers = Vec::with_capacity(alloc, len)?;
        Ok(Numbers {
            kept: Kept::Short(numbers),
        })
    }

    /// Returns the length of the list.
    pub(crate) fn len(&self) -> usize
        ensures { result ≡ length self.now }
    {
        match &self.kept {
            Kept::Short(numbers) => numbers.len(),
            Kept::Long(numbers) => numbers.len(),
        }
    }

    /// Truncates the list to its first `len` numbers.
    pub(crate) fn truncate(&mut self, len: usize)
        ensures { self.new ≡ take len self.old }
    {
        match &mut self.kept {
            Kept::Short(numbers) => numbers.truncate(len),
            Kept::Long(numbers) => numbers.truncate(len),
        }
    }

    /// Appends numbers. On failure the list is unchanged.
    pub(crate) fn extend(&mut self, alloc: Global, more: &[u32]) -> Result<(), AllocError>
        ensures ok { OnOk result (self.new ≡ self.old ++ more.now) }
        ensures err { OnErr result (self.new ≡ self.old) }
    {
        match &mut self.kept {
            Kept::Short(numbers) => {
                if are_short(more) {
                    append_short(numbers, more)?;
                } else {
                    let all = longer(alloc, numbers, more)?;
                    self.kept = Kept::Long(all);
                }
            }
            Kept::Long(numbers) => numbers.extend_from_slice(more)?,
        }
        Ok(())
    }

    /// Copies the values of the state with this number. Each state has as many values as the buffer.
    pub(crate) fn copy(&self, state: usize, into: &mut [u32])
        requires { state * length into.old + length into.old ≤ length self.now }
        ensures copied { into.new ≡ take (length into.old) (drop (state * length into.old) self.now) }
        ensures len { length into.new ≡ length into.old }
    {
        let width = into.len();
        match &self.kept {
            Kept::Short(numbers) => {
                let start = state * width;
                copy_short(&numbers[start..start + width], into);
            }
            Kept::Long(numbers) => {
                let start = state * width;
                into.copy_from_slice(&numbers[start..start + width]);
            }
        }
    }

    /// Returns whether the state with this number has these values. Each state has as many values as there are here.
    pub(crate) fn is_at(&self, state: usize, values: &[u32]) -> bool
        requires { state * length values.now + length values.now ≤ length self.now }
        ensures { result ≡ pointwise nat_eq (take (length values.now) (drop (state * length values.now) self.now)) values.now }
    {
        let width = values.len();
        match &self.kept {
            Kept::Short(numbers) => {
                let start = state * width;
                are_same(&numbers[start..start + width], values)
            }
            Kept::Long(numbers) => {
                let start = state * width;
                &numbers[start..start + width] == values
            }
        }
    }
}

/// Copies numbers of 2 bytes into a buffer of the same length.
fn copy_short(numbers: &[u16], into: &mut [u32])
    requires { length numbers.now ≡ length into.old }
    ensures { into.new ≡ numbers.now }
{
    for place in 0..into.len() {
        into[place] = u32::from(numbers[place]);
    }
}

/// Returns whether two lists of the same length have the same numbers.
fn are_same(numbers: &[u16], others: &[u32]) -> bool
    requires { length numbers.now ≡ length others.now }
    ensures { result ≡ pointwise nat_eq numbers.now others.now }
{
    for place in 0..others.len() {
        if u32::from(numbers[place]) != others[place] {
            return false;
        }
    }
    true
}
