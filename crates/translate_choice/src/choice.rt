//! The choice of variables.

ghost use Rattle.std.specs.Prelude.{◌≡◌, ◌+◌, ◌<◌, [], All, IfOk, IfSome, IfNone, OnOk, length};
ghost use Rattle.translate_theory.specs.Translations.{AreVariables};
ghost use Rattle.translate_theory.specs.Variables.{IsPlaced, variables_at};
ghost use Rattle.mutex.specs.Proposals.{IsProposal};
ghost use Rattle.mutex_index.specs.Places.{Indexed};
ghost use Rattle.std.specs.List.Sorted.{IsNonDecreasingBy};
ghost use Rattle.translate_choice.specs.Choices.{least_place, IsNext, IsChoice, AddsVariable, AddsSingles, is_left, IsDoneBelow};
ghost use Rattle.translate_choice.specs.Greedy.{left_of, left_by, AreQueued, IsFound, NoneFits, AreTakenAfter, AreChosen};

use crate::flags::{is_set, set};
use crate::groups_at::GroupsAt;
use crate::offers::Offers;
use crate::queue::Queue;
use mutex::{ActionIndex, Groups};
use std::alloc::{AllocError, Global};
use translate_theory::ListedVariable;

/// For each atom, by its index, whether it is taken, and the variables that have taken the atoms.
#[derive(Drop)]
struct Choice {
    taken: Vec<bool>,
    variables: Vec<ListedVariable>,
}

impl Choice {
    /// Returns a choice without variables, over `count` atoms.
    fn new(alloc: Global, count: usize) -> Result<Choice, AllocError>
        ensures choice { IfOk result (λ choice. (index : Indexed) → length index.atoms ≡ count → IsChoice index choice) }
        ensures empty { IfOk result (λ choice. choice.variables.items ≡ []) }
    {
        Ok(Choice {
            taken: vec![in alloc; false; count]?,
            variables: Vec::new(alloc),
        })
    }

    /// Adds a variable and marks its atoms as taken.
    fn add(&mut self, variable: ListedVariable) -> Result<(), AllocError>
        ensures { OnOk result (AddsVariable self.old self.new variable) }
    {
        set(&mut self.taken, &variable.places);
        self.variables.push(variable)?;
        Ok(())
    }
}

/// Returns the variable of the group with the most untaken atoms among the groups whose untaken atoms are fit (of
/// several the earliest), or `None` if there is none. The candidates up to that of the group are removed from the
/// queue.
fn next_variable(
    alloc: Global,
    offers: &Offers<'_>,
    taken: &[bool],
    queue: &mut Queue,
) -> Result<Option<ListedVariable>, AllocError>
    requires { AreQueued offers.now.index.now offers.now.groups.now taken.now queue.old }
    ensures found { IfOk result (λ next. IfSome next (IsFound offers.now.index.now offers.now.groups.now taken.now queue.new)) }
    ensures fit { IfOk result (λ next. IfSome next (IsNext offers.now.index.now taken.now)) }
    ensures none { IfOk result (λ next. IfNone next (NoneFits offers.now.index.now offers.now.groups.now (left_of taken.now))) }
{
    while let Some(candidate) = queue.pop() {
        let places = offers.rest(alloc, candidate.group.0, taken)?;
        if places.len() == candidate.size && offers.is_fit(&places) {
            return Ok(Some(offers.variable(places)));
        }
    }
    Ok(None)
}

/// Takes groups as long as the untaken atoms of one are fit.
fn take_groups(alloc: Global, offers: &Offers<'_>, choice: &mut Choice) -> Result<(), AllocError>
    requires choice { IsChoice offers.now.index.now choice.old }
    requires empty { choice.old.variables.items ≡ [] }
    ensures choice { OnOk result (IsChoice offers.now.index.now choice.new) }
    ensures in_turn { OnOk result (AreTakenAfter offers.now.index.now offers.now.groups.now [] choice.new.variables.items) }
    ensures none_left { OnOk result (NoneFits offers.now.index.now offers.now.groups.now (left_by choice.new.variables.items)) }
{
    let groups_at = GroupsAt::new(alloc, choice.taken.len(), offers.groups())?;
    let mut queue = offers.queue_all(alloc, &choice.taken)?;
    // Each iteration but the last takes at least two atoms, so there are at most as many iterations as atoms.
    for _turn in 0..choice.taken.len() {
        match next_variable(alloc, offers, &choice.taken, &mut queue)? {
            Some(variable) => {
                let groups = groups_at.groups_with(alloc, &variable.places)?;
                choice.add(variable)?;
                offers.queue_each(&mut queue, &groups, &choice.taken)?;
            }
            None => return Ok(()),
        }
    }
    Ok(())
}

/// Returns whether the atom is neither taken nor constant.
fn is_left(index: &ActionIndex<'_>, taken: &[bool], place: usize) -> bool
    requires { place < length index.now.atoms }
    ensures { result ≡ is_left index.now taken.now place }
{
    !is_set(taken, place) && !index.is_constant(place)
}

/// Takes the atom as a variable of its own, unless it is taken or constant.
fn take_atom(
    alloc: Global,
    index: &ActionIndex<'_>,
    place: usize,
    choice: &mut Choice,
) -> Result<(), AllocError>
    requires within { place < length index.now.atoms }
    requires choice { IsChoice index.now choice.old }
    ensures choice { OnOk result (IsChoice index.now choice.new) }
    ensures done { OnOk result (IsDoneBelow index.now choice.old place → IsDoneBelow index.now choice.new (place + 1)) }
    ensures single { OnOk result (AddsSingles choice.old.variables.items choice.new.variables.items) }
{
    if !is_left(index, &choice.taken, place) {
        return Ok(());
    }
    let places = vec![in alloc; place]?;
    choice.add(ListedVariable {
        places,
        has_none: true,
    })
}

/// Takes each atom that is neither taken nor constant as a variable of its own.
fn take_atoms(alloc: Global, index: &ActionIndex<'_>, choice: &mut Choice) -> Result<(), AllocError>
    requires { IsChoice index.now choice.old }
    ensures choice { OnOk result (IsChoice index.now choice.new) }
    ensures done { OnOk result (IsDoneBelow index.now choice.new (length index.now.atoms)) }
    ensures single { OnOk result (AddsSingles choice.old.variables.items choice.new.variables.items) }
{
    for place in 0..index.atoms().as_slice().len() {
        take_atom(alloc, index, place, choice)?;
    }
    Ok(())
}

/// Returns the index of the first atom of the variable.
fn least_place(variable: &ListedVariable) -> usize
    ensures { result ≡ least_place variable.now }
{
    variable.places.first().copied().unwrap_or(0)
}

/// Chooses variables over the atoms of the index, in the order of their least atoms (Helmert 2009, the greedy choice of
/// mutex groups). The groups are considered without the atoms that are already taken. As long as some of them have at
/// least two atoms, at most one of them a goal, and are usable, the largest of these becomes a variable, and of several
/// the earliest. Each other atom that is not constant becomes a variable of its own. A variable has the none value
/// unless it has several atoms and they are a full group.
///
/// The groups must be those of the index's atoms, none of them constant or excluded, as `mutex::groups`
/// returns them. A group is examined again each time that it loses atoms.
pub fn choose_variables(
    alloc: Global,
    index: &ActionIndex<'_>,
    groups: &Groups,
) -> Result<Vec<ListedVariable>, AllocError>
    requires { All (IsProposal index.now) groups.now }
    ensures placed { IfOk result (λ variables. All (IsPlaced (length index.now.atoms)) variables.items) }
    ensures fit { IfOk result (λ variables.
        AreVariables index.now.task index.now.atoms index.now.actions (variables_at index.now.atoms variables.items)) }
    ensures ordered { IfOk result (λ variables. IsNonDecreasingBy least_place variables.items) }
    ensures chosen { IfOk result (λ variables. AreChosen index.now groups.now variables.items) }
{
    let mut choice = Choice::new(alloc, index.atoms().as_slice().len())?;
    let offers = Offers::new(alloc, index, groups)?;
    take_groups(alloc, &offers, &mut choice)?;
    take_atoms(alloc, index, &mut choice)?;
    let mut variables = choice.variables;
    variables.sort_unstable_by_key(least_place);
    Ok(variables)
}
