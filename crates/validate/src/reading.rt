//! Reading plans.

ghost use Rattle.std.specs.Prelude.{◌≡◌, ◌≤◌, ◌∷◌, [], ◌++◌, ℕ, List, Option, Some, None, map, length, IfOk, IfErr, option_to_list};
ghost use Rattle.std.specs.Option.{option_map};
ghost use Rattle.sexp.specs.Forms.{Forms, before, views};
ghost use Rattle.sexp.specs.Grammar.{SpellsAll};
ghost use Rattle.pddl_names.specs.Names.{texts_of};
ghost use Rattle.validate.specs.Steps.{Step as Words};
ghost use Rattle.validate.specs.PlanWords.{IsPlanWord, AreAll};
ghost use Rattle.validate.specs.PlanTexts.{SpellsPlan, IsPlanFault, GivesPlan, first_of_places, lists_in, list_faults, shape_faults, words_of, step_of, steps_of, with_step};

use crate::plan::{Plan, PlanFault, Step};
use sexp::{SexpFault, Tree, read_all};
use std::alloc::{AllocError, Global};

/// The greatest number of steps of a plan.
const MAX_STEPS: usize = 1_048_576;

// ---- expressions other than lists of words

#[tactic(auto, using(sexp::proofs::Walking::walking))]
fn list_at(tree: &Tree) -> Option<usize>
    ensures { (rest : Forms) → first_of_places (option_to_list result ++ lists_in rest) ≡ first_of_places (lists_in (before tree.now rest)) }
{
    match tree {
        Tree::Word { text: _, span: _ } => None,
        Tree::List { items: _, span } => Some(span.start),
    }
}

/// Returns the byte offset of the first list among these trees.
fn first_list(items: &[Tree]) -> Option<usize>
    ensures { result ≡ first_of_places (lists_in (views items.now)) }
{
    for tree in items {
        if let Some(at) = list_at(tree) {
            return Some(at);
        }
    }
    None
}

/// Returns the place of the first fault of the list at `at`: the list itself if it is empty, otherwise the first list
/// in it. Returns `None` if it is a list of words.
#[tactic(auto, using(sexp::proofs::Walking::walking, crate::proofs::PlanLaws::list_faults_filled))]
fn list_fault(items: &[Tree], at: usize) -> Option<usize>
    ensures { result ≡ first_of_places (list_faults at (views items.now)) }
{
    match items {
        [] => Some(at),
        [_, ..] => first_list(items),
    }
}

#[tactic(auto, using(sexp::proofs::Walking::walking))]
fn tree_fault(tree: &Tree) -> Option<usize>
    ensures { (rest : Forms) → first_of_places (option_to_list result ++ shape_faults rest) ≡ first_of_places (shape_faults (before tree.now rest)) }
{
    match tree {
        Tree::Word { text: _, span } => Some(span.start),
        Tree::List { items, span } => list_fault(items, span.start),
    }
}

/// Returns the place of the first fault of the trees, which must all be lists of words, or `None` if they are.
fn shape_fault(trees: &[Tree]) -> Option<usize>
    ensures { result ≡ first_of_places (shape_faults (views trees.now)) }
{
    for tree in trees {
        if let Some(at) = tree_fault(tree) {
            return Some(at);
        }
    }
    None
}

// ---- the steps

#[tactic(auto, using(sexp::proofs::Walking::walking, crate::proofs::PlanLaws::appending))]
fn push_word(alloc: Global, tree: &Tree, words: &mut Vec<String>) -> Result<(), AllocError>
    ensures { IfOk result (λ _. (rest : Forms) → texts_of words.old.items ++ words_of (before tree.now rest) ≡ texts_of words.new.items ++ words_of rest) }
{
    match tree {
        Tree::Word { text, span: _ } => {
            words.push(String::from_str(alloc, text.as_str())?)?;
            Ok(())
        }
        Tree::List { items: _, span: _ } => Ok(()),
    }
}

/// Returns the words among the trees.
fn words(alloc: Global, items: &[Tree]) -> Result<Vec<String>, AllocError>
    ensures { IfOk result (λ words. texts_of words.items ≡ words_of (views items.now)) }
{
    let mut words = Vec::new(alloc);
    for tree in items {
        push_word(alloc, tree, &mut words)?;
    }
    Ok(words)
}

/// Returns the step of a list whose first tree is `name`, or `None` if `name` is no word.
#[tactic(auto, using(sexp::proofs::Walking::walking))]
fn headed(alloc: Global, name: &Tree, arguments: &[Tree]) -> Result<Option<Step>, AllocError>
    requires { AreAll IsPlanWord (before name.now (views arguments.now)) }
    ensures { IfOk result (λ s. s ≡ step_of (before name.now (views arguments.now))) }
{
    match name {
        Tree::Word { text, span: _ } => {
            let name = String::from_str(alloc, text.as_str())?;
            let arguments = words(alloc, arguments)?;
            Ok(Step::new(name, arguments))
        }
        Tree::List { items: _, span: _ } => Ok(None),
    }
}

/// Returns the step of a list, or `None` if it does not begin with a word.
#[tactic(auto, using(sexp::proofs::Walking::walking))]
fn step(alloc: Global, items: &[Tree]) -> Result<Option<Step>, AllocError>
    requires { AreAll IsPlanWord (views items.now) }
    ensures { IfOk result (λ s. s ≡ step_of (views items.now)) }
{
    match items {
        [] => Ok(None),
        [name, arguments @ ..] => headed(alloc, name, arguments),
    }
}

#[tactic(auto, using(sexp::proofs::Walking::walking, crate::proofs::PlanLaws::appending))]
fn push_step(alloc: Global, tree: &Tree, steps: &mut Vec<Step>) -> Result<(), AllocError>
    requires { (rest : Forms) × AreAll IsPlanWord (before tree.now rest) }
    ensures { IfOk result (λ _. (rest : Forms) → steps.old.items ++ steps_of (before tree.now rest) ≡ steps.new.items ++ steps_of rest) }
{
    match tree {
        Tree::Word { text: _, span: _ } => Ok(()),
        Tree::List { items, span: _ } => match step(alloc, items)? {
            Some(step) => {
                steps.push(step)?;
                Ok(())
            }
            None => Ok(()),
        },
    }
}

/// Returns the steps of the lists among the trees.
fn steps(alloc: Global, trees: &[Tree]) -> Result<Vec<Step>, AllocError>
    requires { AreAll IsPlanWord (views trees.now) }
    ensures { IfOk result (λ steps. steps.items ≡ steps_of (views trees.now)) }
{
    let mut steps = Vec::new(alloc);
    for tree in trees {
        push_step(alloc, tree, &mut steps)?;
    }
    Ok(steps)
}

/// Returns the expressions of the text. Fails with its first fault, or if allocation fails.
fn trees(alloc: Global, bytes: &[u8]) -> Result<Vec<Tree>, PlanFault>
    ensures found { IfOk result (λ v. SpellsAll bytes.now (views v.items)) }
    ensures fault { IfErr result (λ e. IsPlanFault bytes.now e) }
{
    match read_all(alloc, bytes) {
        Ok(trees) => Ok(trees),
        Err(SexpFault::OutOfMemory) => Err(PlanFault::OutOfMemory),
        Err(fault) => Err(PlanFault::Tree(fault)),
    }
}

/// Returns the plan of the text. Fails with its first fault, or if allocation fails.
fn plan(alloc: Global, bytes: &[u8]) -> Result<Plan, PlanFault>
    ensures found { IfOk result (λ plan. SpellsPlan bytes.now plan) }
    ensures fault { IfErr result (λ e. IsPlanFault bytes.now e) }
{
    let trees = trees(alloc, bytes)?;
    if let Some(at) = shape_fault(&trees) {
        return Err(PlanFault::PlanShape(at));
    }
    if trees.len() > MAX_STEPS {
        return Err(PlanFault::PlanLimit);
    }
    Ok(Plan::new(steps(alloc, &trees)?))
}

/// Reads a plan: any number of lists of words, each a step, with comments and blanks between them, in upper or lower
/// case.
///
/// Fails with the first fault of its trees (F1 to F5); if there is none, with F25 at the first word outside a list,
/// empty list or list inside a list, in the order of the text; if there is none, with F26 for more than 1,048,576
/// steps; or if allocation fails.
pub fn read_plan(alloc: Global, bytes: &[u8]) -> Result<Plan, PlanFault>
    // The result is what the text spells.
    ensures found { IfOk result (λ plan. SpellsPlan bytes.now plan) }
    // A text that spells a plan is read, unless allocation fails.
    ensures only { (plan : List Words) → SpellsPlan bytes.now plan → GivesPlan result plan }
    // An error is the fault of the text, or that allocation failed.
    ensures fault { IfErr result (λ e. IsPlanFault bytes.now e) }
{
    plan(alloc, bytes)
}
