//! The successor generator of a task.

ghost use Rattle.std.specs.Prelude.{◌≡◌, ◌++◌, [], ◌+◌, ◌<◌, ◌≤◌, All, length, IfOk, OnOk, OnErr, filter, slice_range};
ghost use Rattle.std.specs.List.{list_all};
ghost use Rattle.fdr.specs.Tasks.{holds};
ghost use Rattle.fdr_successors.specs.Applicable.{applicable_operators};
ghost use Rattle.fdr_successors.specs.Listings.{IsPlaced, passes, facts_of, numbers_of};
ghost use Rattle.fdr_successors.specs.Numbers.{SameNumbers};
ghost use Rattle.fdr_successors.specs.Trees.{SharesTests, following};

use crate::candidate::{Candidate, Part};
use crate::node::{Node, Tree};
use crate::order::ordered_listing;
use crate::tree::add_part;
use fdr::{Fact, FdrTask};
use std::alloc::{AllocError, Global};
use std::marker::Model;

/// The greatest number of facts of a precondition that nodes of the tree test, each with a table of the variable's
/// values. Further facts are tested one by one.
const MOST_LEVELS: usize = 64;

/// A successor generator: finds the applicable operators of states of one task (Helmert 2006). In contracts its value
/// is the task.
///
/// It is a decision tree in flat lists. Preconditions are tested fact by fact, those on variables with more values
/// first. A node has the operators whose remaining facts are tested one by one, or that have none left, and a table of
/// children, one for each value of a variable. A visit goes to the child for the value in the state, and from there to
/// the node that follows for any value.
///
/// A node gets a table of a variable's values if the operators that test the variable next are more than one, and at
/// least a quarter as many as its values. Otherwise each of these operators is tested separately, as is one that has
/// passed `MOST_LEVELS` tables. So memory is linear in the lengths of the preconditions. The cost for a state is a step
/// for each visited node, a test for each of the node's operators, and sorting the result if it is not in order; it is
/// if the operators are numbered as `walk_order` lists them.
#[derive(Drop)]
pub struct SuccessorGenerator<'a> {
    task: &'a FdrTask,
    facts: Vec<Fact>,
    candidates: Vec<Candidate>,
    nodes: Vec<Node>,
    children: Vec<usize>,
    root: usize,
}

impl<'a> Model for SuccessorGenerator<'a> {
    ghost use Rattle.fdr.specs.Tasks.{FiniteDomainTask};
    ghost use Rattle.fdr_successors.specs.Trees.{IsGenerator};

    ghost Value = { FiniteDomainTask };

    ghost view = { λ g. g.task.now };

    ghost invariant = { λ g. IsGenerator g.task.now g.facts.items g.candidates.items g.nodes.items g.children.items g.root };
}

/// Returns the number of the node to which a visit goes from this one.
fn next_node(node: Node, children: &[usize], state: &[u32]) -> usize
    requires variable { 0 < node.range → node.variable < length state.now }
    requires table { node.table + node.range ≤ length children.now }
    ensures { result ≡ following children.now state.now node }
{
    match state.get(node.variable) {
        Some(value) if (*value as usize) < node.range => children[node.table + *value as usize],
        _ => node.next,
    }
}

/// Returns whether every fact holds in the state.
fn all_hold(facts: &[Fact], state: &[u32]) -> bool
    requires { All (λ f. f.variable < length state.now) facts.now }
    ensures { result ≡ list_all (holds state.now) facts.now }
{
    facts.iter().all(|fact| state[fact.variable] == fact.value)
}

/// Appends those of the candidates whose facts after the first `tested` all hold in the state.
fn add_passing(
    facts: &[Fact],
    candidates: &[Candidate],
    tested: usize,
    state: &[u32],
    found: &mut Vec<usize>,
) -> Result<(), AllocError>
    requires row { All (λ f. f.variable < length state.now) facts.now }
    requires placed { All (IsPlaced (length facts.now)) candidates.now }
    requires long { All (λ c. tested ≤ length (facts_of facts.now c)) candidates.now }
    ensures { OnOk result (found.new.items ≡ found.old.items ++ numbers_of (filter (passes facts.now tested state.now) candidates.now)) }
{
    for candidate in candidates {
        let precondition = &facts[candidate.first..candidate.end];
        if all_hold(&precondition[tested..], state) {
            found.push(candidate.operator)?;
        }
    }
    Ok(())
}

/// Appends those of the node's candidates that apply, in a state in which the tests before the node hold.
fn add_from_node(
    facts: &[Fact],
    candidates: &[Candidate],
    node: Node,
    state: &[u32],
    found: &mut Vec<usize>,
) -> Result<(), AllocError>
    requires row { All (λ f. f.variable < length state.now) facts.now }
    requires placed { All (IsPlaced (length facts.now)) candidates.now }
    requires shares { SharesTests facts.now candidates.now node.tested node.first node.end }
    ensures { OnOk result (found.new.items ≡ found.old.items ++ numbers_of (filter (passes facts.now node.tested state.now) (slice_range candidates.now node.first node.end))) }
{
    let listed = &candidates[node.first..node.end];
    add_passing(facts, listed, node.tested, state, found)
}

impl<'a> SuccessorGenerator<'a> {
    /// Returns the successor generator of the task. Takes time and memory linear in the lengths of the preconditions,
    /// and the time to sort the operators by them.
    pub fn new(alloc: Global, task: &'a FdrTask) -> Result<SuccessorGenerator<'a>, AllocError>
        ensures { IfOk result (λ g. g ≡ task.now) }
    {
        let listing = ordered_listing(alloc, task)?;
        let count = listing.candidates.len();
        let mut tree = Tree::new(alloc, count)?;
        let all = Part {
            first: 0,
            end: count,
            tested: 0,
            next: 0,
            levels: MOST_LEVELS,
        };
        let root = add_part(
            alloc,
            task,
            &listing.facts,
            &listing.candidates,
            all,
            &mut tree,
        )?;
        Ok(SuccessorGenerator {
            task,
            facts: listing.facts,
            candidates: listing.candidates,
            nodes: tree.nodes,
            children: tree.children,
            root,
        })
    }

    /// Replaces the content of `found` by the numbers of the operators that apply in the state, in increasing order.
    /// The state must have a value for each variable. A value that is not below the range of its variable satisfies no
    /// condition.
    ///
    /// On failure `found` is empty.
    pub fn applicable(&self, state: &[u32], found: &mut Vec<usize>) -> Result<(), AllocError>
        requires { length state.now ≡ length self.now.value_names }
        ensures found { OnOk result (found.new.items ≡ applicable_operators self.now state.now) }
        ensures none { OnErr result (found.new.items ≡ []) }
    {
        found.clear(); // what an earlier state left
        match self.gather(state, found) {
            Ok(()) => {
                // they are, if the operators are numbered in the order of the walk
                if !found.is_sorted() {
                    found.sort_unstable();
                }
                Ok(())
            }
            Err(error) => {
                found.clear(); // what was found so far
                Err(error)
            }
        }
    }

    /// Appends the operators that apply, in the order of the candidates.
    fn gather(&self, state: &[u32], found: &mut Vec<usize>) -> Result<(), AllocError>
        requires state { length state.now ≡ length self.now.value_names }
        requires none { found.old.items ≡ [] }
        ensures { OnOk result (SameNumbers found.new.items (applicable_operators self.now state.now)) }
    {
        let mut at = self.root;
        while at > 0 {
            let node = self.nodes[at];
            add_from_node(&self.facts, &self.candidates, node, state, found)?;
            at = next_node(node, &self.children, state);
        }
        Ok(())
    }
}
