//! A node as it is made when it is whole.

ghost use Rattle.std.specs.Prelude.{◌≡◌, ◌+◌, ◌-◌, IfOk, map, length, slice_get};
ghost use Rattle.clu_parser.specs.Trees.{text, is_marked, end_in, last_of, spelling_at, value_of, place_at, node_of};

use crate::begun::Begun;
use crate::source::{Source, place_in, spelling};
use clu_base::{Bytes, Memory, Place, Sequence};
use clu_tree::{Node, NodeKind, Tree};
use std::alloc::Global;

/// The spelling of the token of this number.
fn spelling_at(alloc: Global, source: &Source, n: u32) -> Result<Bytes, Memory>
    ensures { IfOk result (λ b. b ≡ spelling_at (text source.now) n) }
{
    spelling(alloc, source.bytes, source.tokens.get(n as usize))
}

/// The place of the token of this number.
fn place_at(source: &Source, n: u32) -> Place
    ensures { result ≡ place_at (text source.now) n }
{
    place_in(source.tokens.get(n as usize))
}

/// The identifiers of these tokens.
fn names(alloc: Global, source: &Source, tokens: &[u32]) -> Result<Sequence<Bytes>, Memory>
    ensures { IfOk result (λ names. names ≡ map (spelling_at (text source.now)) tokens.now) }
{
    let mut names = Vec::with_capacity(alloc, tokens.len())?;
    for n in tokens {
        let name = spelling_at(alloc, source, *n)?;
        names.push(name)?;
    }
    Ok(Sequence::from_vec(names))
}

/// What the token gives a node as its value; empty where there is none.
fn value_of(alloc: Global, source: &Source, token: Option<u32>) -> Result<Bytes, Memory>
    ensures { IfOk result (λ b. b ≡ value_of (text source.now) token) }
{
    match token {
        Some(n) => spelling_at(alloc, source, n),
        None => Ok(Bytes::from_vec(Vec::new(alloc))),
    }
}

/// Whether a fault at a node of this kind is reported at its mark, and not at its first token.
fn is_marked(kind: NodeKind) -> bool
    ensures { result ≡ is_marked kind }
{
    match kind {
        NodeKind::Infix
        | NodeKind::Index
        | NodeKind::Get
        | NodeKind::Call
        | NodeKind::Resignal
        | NodeKind::Except => true,
        _ => false,
    }
}

/// The last token of the node, or the one given where there is no node.
fn end_in(tree: &Tree, child: Option<u32>, last: u32) -> u32
    ensures { result ≡ end_in tree.now child last }
{
    match child {
        Some(n) => {
            if n < tree.len() {
                tree.node(n).last
            } else {
                last
            }
        }
        None => last,
    }
}

/// The last token of a node of this kind over these children, where `last` was taken last.
fn last_of(kind: NodeKind, tree: &Tree, children: &[u32], last: u32) -> u32
    ensures { result ≡ last_of kind tree.now children.now last }
{
    match kind {
        NodeKind::Restrict => end_in(tree, children.last().copied(), last),
        _ => last,
    }
}

/// The node that began so and ends with the token `last`.
pub fn make_node(
    alloc: Global,
    source: &Source,
    kind: NodeKind,
    last: u32,
    tree: &Tree,
    children: &[u32],
    begun: &Begun,
) -> Result<Node, Memory>
    ensures { IfOk result (λ node. node ≡ node_of (text source.now) kind last tree.now children.now begun.now) }
{
    let mark = if is_marked(kind) {
        begun.mark
    } else {
        begun.first
    };
    let names = names(alloc, source, begun.names.as_slice())?;
    let value = value_of(alloc, source, begun.value)?;
    let copy = children.to_vec(alloc)?;
    Ok(Node {
        kind,
        place: place_at(source, mark),
        first: begun.first,
        last: last_of(kind, tree, children, last),
        children: Sequence::from_vec(copy),
        names,
        value,
        value_token: begun.value,
    })
}
