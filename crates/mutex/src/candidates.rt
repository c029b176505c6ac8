//! Candidates: lists of one to three parts of distinct predicates.

ghost use Rattle.std.specs.Prelude.{◌≡◌, ◌≤◌, ◌++◌, [], ◌∷◌, is_some, length, take, IfOk, OnOk};
ghost use Rattle.std.specs.List.{list_any, flat_map};
ghost use Rattle.mutex.specs.Candidates.{candidates_of, proposed_candidates, count_of_instances};
ghost use Rattle.mutex.specs.Steps.{is_below, extensions};

use crate::parts::{Part, bound_parts, fluent_flags, free_parts};
use pddl_task::Task;
use std::alloc::{AllocError, Global};
use std::marker::Model;

/// The greatest number of candidates that are proposed.
pub const MAX_CANDIDATES: usize = 4096;

/// A candidate for mutex groups: a list of one to three parts of distinct predicates, all of them with a bound argument
/// or all without. In contracts its value is the list of the parts.
#[derive(Drop)]
pub struct Candidate {
    parts: Vec<Part>,
}

impl Model for Candidate {
    ghost use Rattle.std.specs.Prelude.{List};
    ghost use Rattle.mutex.specs.declared.parts.Part.{Part};

    ghost Value = { List Part };

    ghost view = { λ c. c.parts.items };
}

impl Candidate {
    fn new(alloc: Global) -> Candidate
        ensures { result ≡ [] }
    {
        Candidate {
            parts: Vec::new(alloc),
        }
    }

    /// Returns the parts, in the order of their predicates.
    pub fn parts(&self) -> &[Part]
        ensures { result.now ≡ self.now }
    {
        self.parts.as_slice()
    }

    /// Returns whether one of the parts has an argument that is bound to the parameter.
    fn has_parameter(&self) -> bool
        ensures { result ≡ list_any (λ part. is_some part.position) self.now }
    {
        self.parts.iter().any(|part| part.position.is_some())
    }

    /// Returns the number of the candidate's instances.
    pub(crate) fn count_of_instances(&self, task: &Task) -> usize
        ensures { result ≡ count_of_instances task.now self.now }
    {
        if self.has_parameter() {
            task.object_types.len()
        } else {
            1
        }
    }

    /// Returns whether the predicate numbers of the parts are all below that of the other part.
    fn is_below(&self, other: Part) -> bool
        ensures { result ≡ is_below self.now other }
    {
        self.parts
            .iter()
            .all(|part| part.predicate < other.predicate)
    }

    /// Returns the list with one more part at its end.
    fn with(&self, alloc: Global, part: Part) -> Result<Candidate, AllocError>
        ensures { IfOk result (λ longer. longer ≡ self.now ++ part ∷ []) }
    {
        let mut parts = Vec::from_slice(alloc, self.parts.as_slice())?;
        parts.push(part)?;
        Ok(Candidate { parts })
    }
}

/// Appends the extensions of the candidate by one of the parts, until `longer` has `room` candidates.
fn extend_one(
    alloc: Global,
    parts: &[Part],
    candidate: &Candidate,
    room: usize,
    longer: &mut Vec<Candidate>,
) -> Result<(), AllocError>
    requires { length longer.old.items ≤ room }
    ensures { OnOk result (longer.new.items ≡ take room (longer.old.items ++ extensions parts.now candidate.now)) }
{
    for part in parts {
        if longer.len() < room && candidate.is_below(*part) {
            longer.push(candidate.with(alloc, *part)?)?;
        }
    }
    Ok(())
}

/// Returns the first `room` extensions of the candidates by one of the parts.
fn extended(
    alloc: Global,
    parts: &[Part],
    candidates: &[Candidate],
    room: usize,
) -> Result<Vec<Candidate>, AllocError>
    ensures { IfOk result (λ longer. longer.items ≡ take room (flat_map (extensions parts.now) candidates.now)) }
{
    let mut longer = Vec::new(alloc);
    for candidate in candidates {
        extend_one(alloc, parts, candidate, room, &mut longer)?;
    }
    Ok(longer)
}

/// Returns the first `room` candidates of one to three of the parts.
fn candidates_of(alloc: Global, parts: &[Part], room: usize) -> Result<Vec<Candidate>, AllocError>
    ensures { IfOk result (λ all. all.items ≡ take room (candidates_of parts.now)) }
{
    let none = vec![in alloc; Candidate::new(alloc)]?;
    let mut one = extended(alloc, parts, &none, room)?;
    let room = room.saturating_sub(one.len());
    let mut two = extended(alloc, parts, &one, room)?;
    let room = room.saturating_sub(two.len());
    let mut three = extended(alloc, parts, &two, room)?;
    two.append(&mut three)?;
    one.append(&mut two)?;
    Ok(one)
}

/// Returns the candidates for mutex groups that are proposed for the task: the first `MAX_CANDIDATES` of them.
///
/// A part is a predicate that occurs in an effect of a schema, either with one argument bound to the parameter, if it
/// has one or two arguments, or with no bound argument, if it has at most one. So at most one argument is not bound. A
/// candidate is one to three parts of distinct predicates, all of them with a bound argument or all without. Candidates
/// with a bound argument are first, then those with fewer parts; otherwise they are in the lexicographic order of their
/// parts, which are ordered by predicate and then by the position that is bound.
pub fn propose(alloc: Global, task: &Task) -> Result<Vec<Candidate>, AllocError>
    ensures { IfOk result (λ all. all.items ≡ proposed_candidates task.now) }
{
    let fluent = fluent_flags(alloc, task)?;
    let bound = bound_parts(alloc, task, &fluent)?;
    let mut all = candidates_of(alloc, &bound, MAX_CANDIDATES)?;
    let free = free_parts(alloc, task, &fluent)?;
    let room = MAX_CANDIDATES.saturating_sub(all.len());
    let mut rest = candidates_of(alloc, &free, room)?;
    all.append(&mut rest)?;
    Ok(all)
}
