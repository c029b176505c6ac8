//! The nodes of a decision tree, in flat lists.

ghost use Rattle.std.specs.Prelude.{◌≡◌, ◌++◌, ◌∷◌, [], IfOk, OnOk};
ghost use Rattle.fdr_successors.specs.Trees.{end_after};

use std::alloc::{AllocError, Global};

/// A node. If the facts that were tested before it hold, each of the candidates `first..end` has `tested` facts of its
/// precondition that need no test.
///
/// If the variable has a value below `range`, the next node is the child for that value: the children's numbers are
/// adjacent, from the index `table` on. For any other value it is `next`. The number of the next node is always below
/// the node's own.
#[derive(Clone, Copy)]
pub(crate) struct Node {
    pub(crate) first: usize,
    pub(crate) end: usize,
    pub(crate) tested: usize,
    pub(crate) variable: usize,
    pub(crate) table: usize,
    pub(crate) range: usize,
    pub(crate) next: usize,
}

/// The nodes, and the numbers of their children. A visit ends at node 0.
#[derive(Drop)]
pub(crate) struct Tree {
    pub(crate) nodes: Vec<Node>,
    pub(crate) children: Vec<usize>,
}

impl Tree {
    /// Returns the tree in which every visit ends at once, after `candidates` candidates.
    pub(crate) fn new(alloc: Global, candidates: usize) -> Result<Tree, AllocError>
        ensures nodes { IfOk result (λ tree. tree.nodes.items ≡ end_after candidates ∷ []) }
        ensures children { IfOk result (λ tree. tree.children.items ≡ []) }
    {
        let mut nodes = Vec::new(alloc);
        nodes.push(Node {
            first: candidates,
            end: candidates,
            tested: 0,
            variable: 0,
            table: 0,
            range: 0,
            next: 0,
        })?;
        Ok(Tree {
            nodes,
            children: Vec::new(alloc),
        })
    }

    /// Appends a node, and its children.
    pub(crate) fn push(&mut self, node: Node, children: &[usize]) -> Result<(), AllocError>
        ensures nodes { OnOk result (self.new.nodes.items ≡ self.old.nodes.items ++ node ∷ []) }
        ensures children { OnOk result (self.new.children.items ≡ self.old.children.items ++ children.now) }
    {
        self.children.extend_from_slice(children)?;
        self.nodes.push(node)?;
        Ok(())
    }
}
