//! Retained operators.

ghost use Rattle.std.specs.Prelude.{◌≡◌, ℕ, true, ◌↔◌, ◌<◌, All, Contains, length, map, slice_get, Some, IfOk, OnOk};
ghost use Rattle.std.specs.List.Sorted.{IsStrictlyIncreasing};
ghost use Rattle.fdr.specs.Tasks.{ranges, IsAssignment, IsOperator};
ghost use Rattle.reduction_classes.specs.Classes.{AreClassesFor};
ghost use Rattle.reduction_classes.specs.Reduced.{reduced_facts};
ghost use Rattle.reduction.specs.Facts.{Facts};
ghost use Rattle.reduction.specs.Asked.{ChangesClass, AreClassesBy};
ghost use Rattle.reduction.specs.Closing.{is_marked};
ghost use Rattle.reduction.specs.Images.{IsOrdered, IsImageOf};
ghost use Rattle.reduction.specs.Retained.{AreRetained, Covers, AreListedOnce};
ghost use Rattle.reduction.specs.Represented.{AreRepresented};
ghost use Rattle.reduction.specs.Groups.{AreGroups, AreGroupsOf};
ghost use Rattle.reduction.specs.Adding.{Adds, image_in, images_in};

use crate::ordering::in_walk_order;
use crate::representatives::{places_of, representatives_of};
use fdr::{Fact, FdrTask, Operator};
use indexmap::IndexSet;
use reduction_classes::Classes;
use std::alloc::{AllocError, Global};

/// The images of an operator's conditions and effects, each in the order of the variables.
#[derive(PartialEq, Eq, Hash, Drop)]
struct Images {
    precondition: Vec<Fact>,
    effect: Vec<Fact>,
}

/// Returns the images of the facts, in the order of the variables.
fn ordered_images(alloc: Global, classes: &Classes, facts: &[Fact]) -> Result<Vec<Fact>, AllocError>
    requires { IsAssignment (map length classes.now) facts.now }
    ensures { IfOk result (λ ordered. IsOrdered (reduced_facts classes.now facts.now) ordered.items) }
{
    let mut images = classes.facts(alloc, facts)?;
    images.sort_unstable_by_key(|fact| fact.variable);
    Ok(images)
}

/// Returns the images of an operator's conditions and effects.
fn images_of(alloc: Global, classes: &Classes, operator: &Operator) -> Result<Images, AllocError>
    requires { IsOperator (map length classes.now) operator.now }
    ensures { IfOk result (λ i. IsImageOf classes.now operator.now i.precondition.items i.effect.items) }
{
    Ok(Images {
        precondition: ordered_images(alloc, classes, &operator.precondition)?,
        effect: ordered_images(alloc, classes, &operator.effect)?,
    })
}

/// Groups of equal operators, in the order of their first operators.
#[derive(Drop)]
struct Groups {
    images: IndexSet<Images>,
    /// For each group the operator of the least cost, the first of these.
    best: Vec<usize>,
}

impl Groups {
    /// Adds the next operator to its group, and returns the group.
    fn add(&mut self, task: &FdrTask, images: Images, operator: usize) -> Result<usize, AllocError>
        requires { length self.old.best.items ≡ length self.old.images.keys }
        ensures group { IfOk result (λ group. slice_get (images_in self.new.images.keys) group ≡ Some (image_in images)) }
        ensures added { OnOk result (Adds task.now (images_in self.old.images.keys) (images_in self.new.images.keys)
            self.old.best.items self.new.best.items (image_in images) operator) }
    {
        let (group, is_new) = self.images.insert_full(images)?;
        if is_new {
            self.best.push(operator)?;
            return Ok(group);
        }
        let least = self.best[group];
        if task.cost(least).get() <= task.cost(operator).get() {
            return Ok(group);
        }
        self.best[group] = operator;
        Ok(group)
    }
}

/// Returns the groups of the operators that change a class, and for each operator its group. Equal operators are found
/// by hashing.
fn groups_of(
    alloc: Global,
    task: &FdrTask,
    classes: &Classes,
    changing: &[bool],
) -> Result<(Groups, Vec<Option<usize>>), AllocError>
    requires fit { AreClassesFor (ranges task.now) classes.now }
    requires len { length changing.now ≡ length task.now.operators }
    ensures groups { IfOk result (λ made. AreGroups task.now classes.now changing.now (length task.now.operators)
        (images_in made.0.images.keys) made.0.best.items) }
    ensures of_operators { IfOk result (λ made. AreGroupsOf task.now classes.now changing.now (length task.now.operators)
        (images_in made.0.images.keys) made.1.items) }
{
    // only for the proof: the task is well-formed
    task.recall();
    let images = IndexSet::new(alloc);
    let best = Vec::new(alloc);
    let mut groups = Groups { images, best };
    let operators = task.operators();
    let mut of_operators = Vec::with_capacity(alloc, operators.len())?;
    for number in 0..operators.len() {
        if !changing[number] {
            of_operators.push(None)?;
            continue;
        }
        let image = images_of(alloc, classes, &operators[number])?;
        let group = groups.add(task, image, number)?;
        of_operators.push(Some(group))?;
    }
    Ok((groups, of_operators))
}

/// Returns the numbers, which are below `count`, in increasing order.
fn in_order(alloc: Global, count: usize, numbers: &[usize]) -> Result<Vec<usize>, AllocError>
    requires { All (λ n. n < count) numbers.now }
    ensures increasing { IfOk result (λ ordered. IsStrictlyIncreasing ordered.items) }
    ensures same { IfOk result (λ ordered. (n : ℕ) → Contains ordered.items n ↔ Contains numbers.now n) }
{
    let mut is_listed = vec![in alloc; false; count]?;
    for number in numbers {
        is_listed[*number] = true;
    }
    let mut ordered = Vec::with_capacity(alloc, numbers.len())?;
    for candidate in 0..count {
        if !is_listed[candidate] {
            continue;
        }
        ordered.push(candidate)?;
    }
    Ok(ordered)
}

/// Returns the numbers of the retained operators, in the order of the reduced task's successor generator, and for each
/// operator of the task the index among them of the operator that represents it. `changing` says of each operator
/// whether it changes a class.
pub(crate) fn retained_of(
    alloc: Global,
    task: &FdrTask,
    classes: &Classes,
    changing: &[bool],
) -> Result<(Vec<usize>, Vec<Option<usize>>), AllocError>
    requires fit { AreClassesFor (ranges task.now) classes.now }
    requires len { length changing.now ≡ length task.now.operators }
    ensures once { IfOk result (λ made. AreListedOnce made.0.items) }
    ensures retained { IfOk result (λ made. (asked : Facts) →
        ((o : ℕ) → (is_marked changing.now o ≡ true) ↔ ChangesClass task.now asked o) →
        AreRetained task.now asked classes.now made.0.items) }
    ensures covers { IfOk result (λ made. (asked : Facts) →
        ((o : ℕ) → (is_marked changing.now o ≡ true) ↔ ChangesClass task.now asked o) →
        Covers task.now asked classes.now made.0.items) }
    ensures represented { IfOk result (λ made. (asked : Facts) → AreClassesBy (ranges task.now) asked classes.now →
        ((o : ℕ) → (is_marked changing.now o ≡ true) ↔ ChangesClass task.now asked o) →
        AreRepresented task.now classes.now made.0.items made.1.items) }
{
    // only for the proof: the task is well-formed and within the limits
    task.recall();
    let (groups, of_operators) = groups_of(alloc, task, classes, changing)?;
    let count = task.operator_count();
    // by number first: the order below is that of the numbers if preconditions are equal
    let ascending = in_order(alloc, count, &groups.best)?;
    let retained = in_walk_order(alloc, task, classes, &ascending)?;
    let places = places_of(alloc, count, &retained)?;
    let representatives = representatives_of(alloc, &of_operators, &groups.best, &places)?;
    Ok((retained, representatives))
}
