//! The decision tree of operators in the order of their preconditions.

ghost use Rattle.std.specs.Prelude.{◌≡◌, ◌<◌, ◌≤◌, All, length, IfOk, OnOk};
ghost use Rattle.fdr_successors.specs.Listings.{IsPlaced};
ghost use Rattle.fdr_successors.specs.Trees.{IsTree, AreKept, SharesTests, Leads, Branches, tests_of_part};

use crate::candidate::{Candidate, Part};
use crate::groups::{Group, last_group, list_start, run_start};
use crate::node::{Node, Tree};
use fdr::{Fact, FdrTask};
use std::alloc::{AllocError, Global};

/// The children of a node: for each value of its variable, the number of the next node. The candidates from the index
/// `start` on are in the children.
#[derive(Drop)]
struct Children {
    start: usize,
    numbers: Vec<usize>,
}

/// Appends the nodes of a part to the tree, from its end to its start, and returns the number of the node at which a
/// visit of it begins.
#[cycle(tree)]
pub(crate) fn add_part(
    alloc: Global,
    task: &FdrTask,
    facts: &[Fact],
    candidates: &[Candidate],
    part: Part,
    tree: &mut Tree,
) -> Result<usize, AllocError>
    requires rows { All (IsPlaced (length facts.now)) candidates.now }
    requires tree { IsTree (length task.now.value_names) facts.now candidates.now tree.old.nodes.items tree.old.children.items }
    requires part { SharesTests facts.now candidates.now part.tested part.first part.end }
    requires next { Leads facts.now candidates.now tree.old.nodes.items (tests_of_part facts.now candidates.now part) part.end part.next }
    ensures tree { OnOk result (IsTree (length task.now.value_names) facts.now candidates.now tree.new.nodes.items tree.new.children.items) }
    ensures kept { OnOk result (AreKept tree.old.nodes.items tree.new.nodes.items) }
    ensures begins { IfOk result (λ n. Leads facts.now candidates.now tree.new.nodes.items (tests_of_part facts.now candidates.now part) part.first n) }
{
    let mut end = part.end;
    let mut next = part.next;
    while end > part.first {
        let (first, number) = add_node(
            alloc,
            task,
            facts,
            candidates,
            Part { end, next, ..part },
            tree,
        )?;
        end = first;
        next = number;
    }
    Ok(next)
}

/// Appends the node of the last candidates of a part, with its children, and returns the index of the first of these
/// candidates and the node's number.
#[cycle(tree)]
fn add_node(
    alloc: Global,
    task: &FdrTask,
    facts: &[Fact],
    candidates: &[Candidate],
    part: Part,
    tree: &mut Tree,
) -> Result<(usize, usize), AllocError>
    requires rows { All (IsPlaced (length facts.now)) candidates.now }
    requires tree { IsTree (length task.now.value_names) facts.now candidates.now tree.old.nodes.items tree.old.children.items }
    requires part { SharesTests facts.now candidates.now part.tested part.first part.end }
    requires some { part.first < part.end }
    requires next { Leads facts.now candidates.now tree.old.nodes.items (tests_of_part facts.now candidates.now part) part.end part.next }
    ensures tree { OnOk result (IsTree (length task.now.value_names) facts.now candidates.now tree.new.nodes.items tree.new.children.items) }
    ensures kept { OnOk result (AreKept tree.old.nodes.items tree.new.nodes.items) }
    ensures place { IfOk result (λ r. (part.first ≤ r.0) × (r.0 < part.end)) }
    ensures begins { IfOk result (λ r. Leads facts.now candidates.now tree.new.nodes.items (tests_of_part facts.now candidates.now part) r.0 r.1) }
{
    let group = last_group(task, facts, candidates, part);
    let Children { start, numbers } = add_children(
        alloc, task, facts, candidates, part, group, tree,
    )?;
    let listed = Part { end: start, ..part };
    let first = list_start(task, facts, candidates, listed).min(part.end - 1);
    let number = tree.nodes.len();
    let node = Node {
        first,
        end: start,
        tested: part.tested,
        variable: group.variable,
        table: tree.children.len(),
        range: group.range,
        next: part.next,
    };
    tree.push(node, &numbers)?;
    Ok((first, number))
}

/// Appends the nodes of the candidates of a group, the last ones of a part, for each value of the group's variable, and
/// returns the numbers at which their visits begin.
#[cycle(tree)]
fn add_children(
    alloc: Global,
    task: &FdrTask,
    facts: &[Fact],
    candidates: &[Candidate],
    part: Part,
    group: Group,
    tree: &mut Tree,
) -> Result<Children, AllocError>
    requires rows { All (IsPlaced (length facts.now)) candidates.now }
    requires tree { IsTree (length task.now.value_names) facts.now candidates.now tree.old.nodes.items tree.old.children.items }
    requires part { SharesTests facts.now candidates.now part.tested part.first part.end }
    requires low { part.first ≤ group.first }
    requires high { group.first < part.end }
    requires next { Leads facts.now candidates.now tree.old.nodes.items (tests_of_part facts.now candidates.now part) part.end part.next }
    ensures tree { OnOk result (IsTree (length task.now.value_names) facts.now candidates.now tree.new.nodes.items tree.new.children.items) }
    ensures kept { OnOk result (AreKept tree.old.nodes.items tree.new.nodes.items) }
    ensures long { IfOk result (λ r. length r.numbers.items ≡ group.range) }
    ensures place { IfOk result (λ r. (part.first ≤ r.start) × (r.start ≤ part.end)) }
    ensures branches { IfOk result (λ r. Branches facts.now candidates.now tree.new.nodes.items (tests_of_part facts.now candidates.now part) group.variable r.numbers.items part.next r.start) }
{
    let mut numbers = vec![in alloc; part.next; group.range]?;
    let mut start = part.end;
    for value in (0..group.range).rev() {
        let before = Part { end: start, ..part };
        let first = run_start(facts, candidates, before, group, value);
        if first < start && part.levels > 0 {
            let run = Part {
                first,
                end: start,
                tested: part.tested + 1,
                next: numbers[value],
                levels: part.levels - 1,
            };
            let child = add_part(alloc, task, facts, candidates, run, tree)?;
            numbers[value] = child;
            start = first;
        }
    }
    Ok(Children { start, numbers })
}
