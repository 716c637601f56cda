//! Trees: a node comes after its children and is the child of one other node at most.

ghost use Rattle.std.specs.Prelude.{◌≡◌, ◌∷◌, [], ◌++◌, ◌<◌, ◌^◌, length, slice_get, slice_index, Some, All, IfOk, OnErr, vec_len, vec_capacity};
ghost use Rattle.clu_tree.specs.Nodes.{Fits, IsKept, module_at};

use crate::count::count_with;
use crate::node::{Node, NodeKind};
use clu_base::Memory;
use std::alloc::Global;
use std::marker::Model;

/// A list of nodes in which each child comes before its parent and no node has two parents.
/// Nodes are named by their numbers, from 0.
#[derive(Drop)]
pub struct Tree {
    nodes: Vec<Node>,
    counts: Vec<u32>,
    modules: Vec<u32>,
}

impl Model for Tree {
    ghost use Rattle.std.specs.Prelude.{List};
    ghost use Rattle.clu_tree.specs.declared.node.Node.{Node};

    ghost Value = { List Node };

    ghost use Rattle.clu_tree.specs.Nodes.{IsKept};

    ghost view = { λ t. t.nodes.items };

    ghost invariant = { λ t. IsKept t.nodes.items t.counts.items t.modules.items };
}

impl Tree {
    ghost use Rattle.clu_tree.specs.Count.{counts};
    ghost use Rattle.clu_tree.specs.Nodes.{IsTree, Fits, modules};

    /// A tree without nodes.
    pub fn new(alloc: Global) -> Tree
        ensures { result ≡ [] }
    {
        Tree {
            nodes: Vec::new(alloc),
            counts: Vec::new(alloc),
            modules: Vec::new(alloc),
        }
    }

    /// Adds a node and gives its number. The only error is that memory runs out, which leaves the tree
    /// as it was.
    pub fn add(&mut self, node: Node) -> Result<u32, Memory>
        requires { Fits self.old node }
        ensures number { IfOk result (λ n. n ≡ length self.old) }
        ensures added { IfOk result (λ n. self.new ≡ self.old ++ node ∷ []) }
        ensures unchanged { OnErr result (self.new ≡ self.old) }
    {
        let n = add_row(&mut self.nodes, &mut self.counts, &mut self.modules, node)?;
        Ok(n)
    }

    pub fn node(&self, n: u32) -> &Node
        requires { n < length self.now }
        ensures node { slice_get self.now n ≡ Some result.now }
        ensures below { All (λ c. c < n) result.now.children }
    {
        &self.nodes[n as usize]
    }

    /// How many nodes there are.
    pub fn len(&self) -> u32
        ensures len { result ≡ length self.now }
        ensures tree { IsTree self.now }
    {
        self.nodes.len() as u32
    }

    /// The count of the node and all that stands below it: one for each node, one for each name
    /// of a node after its first, and one for each whole 64 bytes that a string literal denotes.
    pub fn nodes(&self, n: u32) -> u32
        requires { n < length self.now }
        ensures { result ≡ slice_index (counts self.now) n }
    {
        let counts = self.counts.as_slice();
        counts[n as usize]
    }

    /// The numbers of the modules, in the order of the text.
    pub fn modules(&self) -> &[u32]
        ensures { result.now ≡ modules self.now }
    {
        self.modules.as_slice()
    }
}

/// Adds a node with its count, and to the modules if it is one; all or, when memory runs out,
/// nothing.
fn add_row(
    nodes: &mut Vec<Node>,
    counts: &mut Vec<u32>,
    modules: &mut Vec<u32>,
    node: Node,
) -> Result<u32, Memory>
    requires fits { Fits nodes.old.items node }
    requires kept { IsKept nodes.old.items counts.old.items modules.old.items }
    ensures number { IfOk result (λ n. n ≡ length nodes.old.items) }
    ensures added { IfOk result (λ n. nodes.new.items ≡ nodes.old.items ++ node ∷ []) }
    ensures unchanged { OnErr result (nodes.new.items ≡ nodes.old.items) }
    ensures kept { IsKept nodes.new.items counts.new.items modules.new.items }
{
    let n = nodes.len() as u32;
    let count = count_with(counts.as_slice(), &node);
    nodes.reserve(1)?;
    counts.reserve(1)?;
    modules.reserve(1)?;
    note_module(modules, node.kind, n);
    counts.push_reserved(count);
    nodes.push_reserved(node);
    Ok(n)
}

/// Appends the number if it is that of a module.
fn note_module(modules: &mut Vec<u32>, kind: NodeKind, n: u32)
    requires { vec_len modules.old < vec_capacity modules.old }
    ensures { modules.new.items ≡ modules.old.items ++ module_at n kind }
{
    match kind {
        NodeKind::Module => modules.push_reserved(n),
        _ => {}
    }
}
