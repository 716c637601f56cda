//! Nodes by number, of which one that isn't there is nothing.

ghost use Rattle.std.specs.Prelude.{◌≡◌, slice_get};
ghost use Rattle.clu_syntax.specs.Kinds.{kind_at};
ghost use Rattle.clu_syntax.specs.Rounds.{round_at};
ghost use Rattle.clu_syntax.specs.Splits.{children_of, type_of};
ghost use Rattle.clu_settle.specs.Names.{names_of};

use clu_base::Bytes;
use clu_syntax::{OUTSIDE, Round, is_type};
use clu_tree::{NodeKind, Tree};

/// The kind of the node n; File of one that is not there.
pub fn kind_of(tree: &Tree, n: u32) -> NodeKind
    ensures { result ≡ kind_at tree.now n }
{
    if n < tree.len() {
        tree.node(n).kind
    } else {
        NodeKind::File
    }
}

/// The parent of the node n.
pub fn parent_of(rounds: &[Round], n: u32) -> Option<u32>
    ensures { result ≡ (round_at rounds.now n).parent }
{
    match rounds.get(n as usize) {
        Some(round) => round.parent,
        None => None,
    }
}

/// The children of the node n.
pub fn children_of(tree: &Tree, n: u32) -> &[u32]
    ensures { result.now ≡ children_of (slice_get tree.now n) }
{
    if n < tree.len() {
        tree.node(n).children.as_slice()
    } else {
        &[]
    }
}

/// The names of the node n.
pub fn names_of(tree: &Tree, n: u32) -> &[Bytes]
    ensures { result.now ≡ names_of (slice_get tree.now n) }
{
    if n < tree.len() {
        tree.node(n).names.as_slice()
    } else {
        &[]
    }
}

/// What surrounds the node n; nothing if it isn't there.
pub fn round_of(rounds: &[Round], n: u32) -> Round
    ensures { result ≡ round_at rounds.now n }
{
    rounds.get(n as usize).copied().unwrap_or(OUTSIDE)
}

/// The type that stands first of these children.
pub fn type_of(tree: &Tree, children: &[u32]) -> Option<u32>
    ensures { result ≡ type_of tree.now children.now }
{
    match children {
        [] => None,
        [c, ..] => if is_type(kind_of(tree, *c)) {
            Some(*c)
        } else {
            None
        },
    }
}
