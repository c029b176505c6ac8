//! Groups of operators that make the same changes.

ghost use Rattle.std.specs.Prelude.{◌≡◌, ◌==◌, ℕ, ◌+◌, ◌<◌, ◌≤◌, ◌^◌, ◌↔◌, [], ◌∷◌, ◌++◌, All, Contains, Some, length, slice_get, slice_index_or, IfOk, IfSome, IfNone, OnOk};
ghost use Rattle.std.specs.List.Sorted.{IsStrictlyIncreasing};
ghost use Rattle.abstraction_groups.specs.Changes as row;
ghost use Rattle.abstraction_groups.specs.Changes.{at_digits, with_row};
ghost use Rattle.abstraction_groups.specs.Factors as spec;
ghost use Rattle.abstraction_groups.specs.Factors.{digits_of, group_changes, groups_of, changes_of};
ghost use Rattle.abstraction_groups.specs.Pairs.{IsRow};
ghost use Rattle.abstraction_groups.specs.Collected.{AreAffecting, AreMembers, count_in};
ghost use Rattle.abstraction_groups.specs.Tables.{AreChained};

use crate::change::Change;
use crate::factored::FactoredAbstraction;
use crate::index::OperatorIndex;
use crate::read::read_changes;
use crate::table::ChangeTable;
use abstraction::{Abstraction, Digit};
use keyed_lists::{Keyed, Lists};
use std::alloc::{AllocError, Global};
use std::marker::Model;

/// The groups of a task's operators in an abstraction: operators that make the same changes to its abstract states are
/// one group. An operator that moves nothing, all of whose transitions are from an abstract state to itself, has no
/// group. The groups are numbered in the order of their first operators. In contracts its value is the abstraction.
#[derive(Drop)]
pub struct Groups<'a, A: FactoredAbstraction> {
    abstraction: &'a A,
    changes: Lists<Change>,
    operators: Lists<u32>,
    /// The number of transitions.
    count: u64,
}

impl<'a, A: FactoredAbstraction> Model for Groups<'a, A> {
    ghost use Rattle.std.specs.Prelude.{◌≡◌};
    ghost use Rattle.abstraction_groups.specs.Factors.{group_changes, transition_count};
    ghost use Rattle.abstraction_groups.specs.Collected.{AreGrouped};

    ghost Value = { A };

    ghost view = { λ g. g.abstraction.now };

    ghost invariant = { λ g.
        (g.changes ≡ group_changes (A.task g.abstraction.now) (A.factors g.abstraction.now)) ×
        AreGrouped (A.task g.abstraction.now) (A.factors g.abstraction.now) g.operators ×
        (g.count ≡ transition_count (A.task g.abstraction.now) (A.factors g.abstraction.now)) };
}

/// Returns the operators with an effect on one of the variables, by strictly increasing numbers.
fn affecting(
    alloc: Global,
    index: &OperatorIndex<'_>,
    variables: &[usize],
) -> Result<Vec<u32>, AllocError>
    requires { All (λ v. v < length index.now.value_names) variables.now }
    ensures { IfOk result (λ operators. AreAffecting index.now variables.now operators.items) }
{
    let mut operators = Vec::new(alloc);
    for variable in variables {
        operators.extend_from_slice(index.operators_of(*variable))?;
    }
    operators.sort_unstable();
    operators.dedup();
    Ok(operators)
}

/// Returns the number of pairs of abstract states of which the changes turn the first into the second.
fn pair_count(digits: &[Digit], changes: &[Change]) -> u64
    requires long { length changes.now ≡ length digits.now }
    requires is_row { IsRow (at_digits digits.now changes.now) }
    ensures value { result ≡ row.pair_count (at_digits digits.now changes.now) }
    ensures small { result ≤ 2 ^ 24 }
{
    let mut count = 1;
    for place in 0..changes.len() {
        count *= changes[place].choices(digits[place].range) as u64;
    }
    count
}

/// Returns whether some change turns some value into a different one.
fn moves(changes: &[Change]) -> bool
    ensures { result ≡ row.moves changes.now }
{
    changes.iter().any(|change| change.moves())
}

/// The groups of the first operators: their changes, an entry for each operator with a group, and the number of
/// transitions.
#[derive(Drop)]
struct Collected {
    table: ChangeTable,
    members: Vec<Keyed<u32>>,
    transition_count: u64,
}

impl Collected {
    /// Adds an operator to the group of its changes. On failure the groups are not specified.
    fn add(&mut self, digits: &[Digit], operator: u32, changes: &[Change]) -> Result<(), AllocError>
        requires chained { AreChained self.old.table.rows self.old.table.heads.items self.old.table.links.items }
        requires few { length self.old.table.rows < 4294967295 }
        requires long { length changes.now ≡ length digits.now }
        requires row { IsRow (at_digits digits.now changes.now) }
        requires count { self.old.transition_count ≡ count_in digits.now self.old.table.rows }
        requires room { self.old.transition_count + 2 ^ 24 < 2 ^ 64 }
        ensures chained { OnOk result (AreChained self.new.table.rows self.new.table.heads.items self.new.table.links.items) }
        ensures rows { OnOk result (self.new.table.rows ≡ with_row self.old.table.rows changes.now) }
        ensures member { OnOk result ((group : ℕ) × (slice_get self.new.table.rows group ≡ Some changes.now) ×
            (self.new.members.items ≡ self.old.members.items ++ record { key = group; item = operator } ∷ [])) }
        ensures count { OnOk result (self.new.transition_count ≡ count_in digits.now self.new.table.rows) }
    {
        let before = self.table.rows.len();
        let group = self.table.number_of(changes)?;
        let more = if group == before {
            pair_count(digits, changes)
        } else {
            0
        };
        self.transition_count += more;
        self.members.push(Keyed {
            key: group as u32,
            item: operator,
        })?;
        Ok(())
    }
}

/// Returns the groups of the operators, which must be those with an effect on the abstraction's variables, or `None` if
/// they have more than `limit` transitions.
fn collect<A: FactoredAbstraction>(
    alloc: Global,
    abstraction: &A,
    operators: &[u32],
    limit: u64,
) -> Result<Option<Collected>, AllocError>
    requires { AreAffecting (A.task abstraction.now) (A.factors abstraction.now).variables operators.now }
    ensures members { IfOk result (λ r. IfSome r (λ c.
        AreMembers (A.task abstraction.now) (A.factors abstraction.now) operators.now c.table.rows c.members.items)) }
    ensures count { IfOk result (λ r. IfSome r (λ c.
        c.transition_count ≡ count_in (digits_of (A.factors abstraction.now)) c.table.rows)) }
    ensures some { IfOk result (λ r. IfSome r (λ c. c.transition_count ≤ limit)) }
    ensures none { IfOk result (λ r. IfNone r
        (limit < spec.transition_count (A.task abstraction.now) (A.factors abstraction.now))) }
{
    // only for the proof: the task is well-formed and has fewer than 2^32 operators
    abstraction.task().recall();
    let digits = abstraction.digits();
    let mut changes = vec![in alloc; Change::Kept; digits.len()]?;
    let mut collected = Collected {
        table: ChangeTable::new(alloc, operators.len())?,
        members: Vec::new(alloc),
        transition_count: 0,
    };
    for operator in operators {
        let task = abstraction.task();
        read_changes(
            abstraction,
            &task.operators()[*operator as usize],
            &mut changes,
        );
        if moves(&changes) {
            collected.add(digits, *operator, &changes)?;
        }
        if collected.transition_count > limit {
            return Ok(None);
        }
    }
    Ok(Some(collected))
}

impl<'a, A: FactoredAbstraction> Groups<'a, A> {
    /// Returns the groups of the operators of the indexed task, which must be the task of the abstraction. Only
    /// operators with an effect on a variable of the abstraction are read, each once.
    pub fn new(
        alloc: Global,
        abstraction: &'a A,
        index: &OperatorIndex<'_>,
    ) -> Result<Groups<'a, A>, AllocError>
        requires { index.now ≡ A.task abstraction.now }
        ensures { IfOk result (λ g. g ≡ abstraction.now) }
    {
        // only for the proof: with fewer than 2^32 operators there are fewer than 2^64 transitions
        abstraction.task().recall();
        match Groups::within(alloc, abstraction, index, u64::MAX)? {
            Some(groups) => Ok(groups),
            None => unreachable!(),
        }
    }

    /// Returns the groups as `new` does, or `None` if they have more than `limit` transitions. It stops at the first
    /// operator with which there are more.
    pub fn within(
        alloc: Global,
        abstraction: &'a A,
        index: &OperatorIndex<'_>,
        limit: u64,
    ) -> Result<Option<Groups<'a, A>>, AllocError>
        requires { index.now ≡ A.task abstraction.now }
        ensures groups { IfOk result (λ r. IfSome r (λ g. g ≡ abstraction.now)) }
        ensures some { IfOk result (λ r. IfSome r (λ g. spec.transition_count (A.task abstraction.now) (A.factors abstraction.now) ≤ limit)) }
        ensures none { IfOk result (λ r. IfNone r (limit < spec.transition_count (A.task abstraction.now) (A.factors abstraction.now))) }
    {
        let operators = affecting(alloc, index, abstraction.variables())?;
        match collect(alloc, abstraction, &operators, limit)? {
            None => Ok(None),
            Some(collected) => {
                let Collected {
                    table,
                    members,
                    transition_count,
                } = collected;
                let changes = table.into_rows();
                let operators = Lists::new(alloc, changes.len(), &members)?;
                Ok(Some(Groups {
                    abstraction,
                    changes,
                    operators,
                    count: transition_count,
                }))
            }
        }
    }

    /// Returns the abstraction.
    pub fn abstraction(&self) -> &'a A
        ensures { result.now ≡ self.now }
    {
        self.abstraction
    }

    /// Returns the number of groups.
    pub fn len(&self) -> usize
        ensures { result ≡ (groups_of (A.task self.now) (A.factors self.now)).count }
    {
        self.changes.len()
    }

    /// Returns whether there are no groups.
    pub fn is_empty(&self) -> bool
        ensures { result ≡ ((groups_of (A.task self.now) (A.factors self.now)).count == 0) }
    {
        self.changes.is_empty()
    }

    /// Returns the number of transitions, one of all operators of a group counted once: for each group the number of
    /// pairs of abstract states that it connects.
    pub fn transition_count(&self) -> u64
        ensures { result ≡ spec.transition_count (A.task self.now) (A.factors self.now) }
    {
        self.count
    }

    /// Returns the changes that the operators of a group make, one for each digit of the abstraction.
    pub fn changes_of(&self, group: usize) -> &[Change]
        requires { group < (groups_of (A.task self.now) (A.factors self.now)).count }
        ensures { result.now ≡ slice_index_or (group_changes (A.task self.now) (A.factors self.now)) group [] }
    {
        self.changes.get(group)
    }

    /// Returns the operators of a group, by strictly increasing numbers.
    pub fn operators_of(&self, group: usize) -> &[u32]
        requires { group < (groups_of (A.task self.now) (A.factors self.now)).count }
        ensures increasing { IsStrictlyIncreasing result.now }
        ensures operators { (o : ℕ) → Contains result.now o ↔ ((groups_of (A.task self.now) (A.factors self.now)).class o ≡ Some group) }
    {
        self.operators.get(group)
    }

    /// Returns the abstract state that the operators of a group reach from an abstract state, or `None` if they have no
    /// transition there.
    pub fn target(&self, group: usize, abstract_state: usize) -> Option<usize>
        requires group { group < (groups_of (A.task self.now) (A.factors self.now)).count }
        requires state { abstract_state < (A.abstraction self.now).size }
        ensures { (o : ℕ) → (groups_of (A.task self.now) (A.factors self.now)).class o ≡ Some group →
            result ≡ (A.abstraction self.now).transition abstract_state o }
    {
        match self.operators.get(group) {
            [operator, ..] => self
                .abstraction
                .transition(abstract_state, *operator as usize),
            [] => None,
        }
    }
}
