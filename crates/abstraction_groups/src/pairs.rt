//! The transitions of one group, listed.

ghost use Rattle.std.specs.Prelude.{◌≡◌, ℕ, ◌+◌, ◌*◌, ◌^◌, ◌<◌, ◌≤◌, ◌++◌, length, take, drop, map, Contains, OnOk};
ghost use Rattle.keyed_lists.specs.declared.lists.Keyed.{Keyed};
ghost use Rattle.abstraction_groups.specs.declared.backward.Transition.{Transition};
ghost use Rattle.abstraction_groups.specs.Changes.{at_digits};
ghost use Rattle.abstraction_groups.specs.Pairs as spec;
ghost use Rattle.abstraction_groups.specs.Pairs.{shifted, copies, group_entries, IsRow, AreSmall};

use crate::backward::Transition;
use crate::change::Change;
use abstraction::Digit;
use keyed_lists::Keyed;
use std::alloc::AllocError;

/// Appends copies of the `count` entries from index `first` on, with more added to source and target.
fn append_shifted(
    entries: &mut Vec<Keyed<Transition>>,
    first: usize,
    count: usize,
    source: u32,
    target: u32,
) -> Result<(), AllocError>
    requires within { first + count ≤ length entries.old.items }
    requires small { (e : Keyed Transition) → Contains (take count (drop first entries.old.items)) e →
        (e.item.source + source < 2 ^ 32) × (e.key + target < 2 ^ 32) }
    ensures { OnOk result (entries.new.items ≡
        entries.old.items ++ map (shifted source target) (take count (drop first entries.old.items))) }
{
    for index in first..first + count {
        let entry = entries[index];
        entries.push(Keyed {
            key: entry.key + target,
            item: Transition {
                class: entry.item.class,
                source: entry.item.source + source,
            },
        })?;
    }
    Ok(())
}

/// Replaces the entries from index `first` on by copies with each value of a digit with `range` values, of which the
/// source and the target have these multiples.
fn repeat(
    entries: &mut Vec<Keyed<Transition>>,
    first: usize,
    range: usize,
    source: usize,
    target: usize,
) -> Result<(), AllocError>
    requires first { first ≤ length entries.old.items }
    requires range { 0 < range }
    requires source { range * source ≤ 2 ^ 24 }
    requires target { range * target ≤ 2 ^ 24 }
    requires small { AreSmall range source target (drop first entries.old.items) }
    ensures { OnOk result (entries.new.items ≡
        take first entries.old.items ++ copies range source target (drop first entries.old.items)) }
{
    let count = entries.len() - first;
    for value in 1..range {
        let more_source = (value * source) as u32;
        let more_target = (value * target) as u32;
        append_shifted(entries, first, count, more_source, more_target)?;
    }
    Ok(())
}

/// Returns the transition of the group with the least source.
pub(crate) fn first_entry(digits: &[Digit], changes: &[Change], class: u32) -> Keyed<Transition>
    requires long { length changes.now ≡ length digits.now }
    requires row { IsRow (at_digits digits.now changes.now) }
    ensures { result ≡ spec.first_entry class (at_digits digits.now changes.now) }
{
    let mut source = 0;
    let mut target = 0;
    for place in 0..changes.len() {
        let weight = digits[place].weight;
        source += changes[place].least_before() as usize * weight;
        target += changes[place].least_after() as usize * weight;
    }
    Keyed {
        key: target as u32,
        item: Transition {
            class,
            source: source as u32,
        },
    }
}

/// Appends the transitions of a group with these changes, each with the abstract state that it enters as its key.
pub(crate) fn append_pairs(
    digits: &[Digit],
    changes: &[Change],
    class: u32,
    entries: &mut Vec<Keyed<Transition>>,
) -> Result<(), AllocError>
    requires long { length changes.now ≡ length digits.now }
    requires row { IsRow (at_digits digits.now changes.now) }
    ensures { OnOk result (entries.new.items ≡
        entries.old.items ++ group_entries class (at_digits digits.now changes.now)) }
{
    let first = entries.len();
    entries.push(first_entry(digits, changes, class))?;
    let mut place = changes.len();
    while place > 0 {
        place -= 1;
        let digit = digits[place];
        match changes[place] {
            Change::Kept => repeat(entries, first, digit.range, digit.weight, digit.weight)?,
            Change::Assigned(_) => repeat(entries, first, digit.range, digit.weight, 0)?,
            Change::Required(_) | Change::Moved { .. } => {}
        }
    }
    Ok(())
}
