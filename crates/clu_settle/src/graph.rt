//! What the value of each node is made from: its children, and the right side of the equate that it names.

ghost use Rattle.std.specs.Prelude.{◌≡◌, ◌<◌, ◌++◌, [], Some, OnOk, IfOk, length, map};
ghost use Rattle.clu_tree.specs.Nodes.{IsTree};
ghost use Rattle.clu_circles.specs.Circles.{AreInside};
ghost use Rattle.clu_settle.specs.Graph.{named_target, targets_at, targets_to, spans_to};

use crate::meanings::{Meaning, meaning_at};
use clu_base::Memory;
use clu_circles::Span;
use clu_tree::Tree;
use std::alloc::Global;

/// For each node the nodes from whose values its own is made: those of `targets` in its span.
#[derive(Drop)]
pub struct Graph {
    pub targets: Vec<Option<usize>>,
    pub spans: Vec<Span>,
}

fn push_children(targets: &mut Vec<Option<usize>>, children: &[u32]) -> Result<(), Memory>
    ensures { OnOk result (targets.new.items ≡ targets.old.items ++ map Some children.now) }
{
    for child in children {
        targets.push(Some(*child as usize))?;
    }
    Ok(())
}

/// Appends the right side that a name stands for, which is one of so many nodes.
fn push_named(targets: &mut Vec<Option<usize>>, nodes: u32, meaning: Meaning) -> Result<(), Memory>
    ensures { OnOk result (targets.new.items ≡ targets.old.items ++ named_target nodes meaning) }
{
    match meaning {
        Meaning::Equate(right) => {
            if right < nodes {
                targets.push(Some(right as usize))?;
            }
            Ok(())
        }
        _ => Ok(()),
    }
}

fn push_node(
    targets: &mut Vec<Option<usize>>,
    tree: &Tree,
    meanings: &[Meaning],
    n: u32,
) -> Result<(), Memory>
    requires { n < length tree.now }
    ensures { OnOk result (targets.new.items ≡ targets.old.items ++ targets_at tree.now meanings.now n) }
{
    push_children(targets, tree.node(n).children.as_slice())?;
    push_named(targets, tree.len(), meaning_at(meanings, n))
}

#[tactic(auto, unfolding(crate::specs::Graph::targets_to, crate::specs::Graph::spans_to))]
fn push_all(
    targets: &mut Vec<Option<usize>>,
    spans: &mut Vec<Span>,
    tree: &Tree,
    meanings: &[Meaning],
) -> Result<(), Memory>
    requires targets { targets.old.items ≡ [] }
    requires spans { spans.old.items ≡ [] }
    ensures targets { OnOk result (targets.new.items ≡ targets_to tree.now meanings.now (length tree.now)) }
    ensures spans { OnOk result (spans.new.items ≡ spans_to tree.now meanings.now (length tree.now)) }
    ensures tree { OnOk result (IsTree tree.now) }
{
    for n in 0..tree.len() {
        let from = targets.len();
        push_node(targets, tree, meanings, n)?;
        let to = targets.len();
        spans.push(Span { from, to })?;
    }
    Ok(())
}

/// The graph of a tree, by what its names stand for.
pub fn graph_of(alloc: Global, tree: &Tree, meanings: &[Meaning]) -> Result<Graph, Memory>
    ensures targets { IfOk result (λ graph. graph.targets.items ≡ targets_to tree.now meanings.now (length tree.now)) }
    ensures spans { IfOk result (λ graph. graph.spans.items ≡ spans_to tree.now meanings.now (length tree.now)) }
    ensures inside { IfOk result (λ graph. AreInside graph.targets.items graph.spans.items) }
{
    let mut targets = Vec::new(alloc);
    let mut spans = Vec::with_capacity(alloc, tree.len() as usize)?;
    push_all(&mut targets, &mut spans, tree, meanings)?;
    Ok(Graph { targets, spans })
}
